use crate::bad_modules::{
    BRANCH_TO_ITSELF, CUT, FLOAT, LABEL_IS_A_TYPE, NO_LENGTH, NO_MERGE, NULL_OF_NO_TYPE,
    OPERAND_OF_RETURN, TYPE_OUT_OF_BOUND, UNIFORM_COORDINATE, UNKNOWN, VARIABLE_BEHIND_RETURN,
    VARIABLE_OF_AN_INTEGER,
};
use sample_modules::frame::words_of;
use sample_modules::samples::{LOOP_MODULE, NAMES_MODULE, SELECTION_MODULE};
use spirv_model::{Words, WordsFault};
use spv_tree::{Block, End, Node, Run, TreeFault, flatten, tree_of};
use spv_types::{Meaning, ids_of};
use spv_words::{read_module, write_module};
use std::alloc::Global;
use std::process::Abort;
use std::test::Fail;
use valid_model::TypeFault;

fn module(alloc: Global, insts: &[(u16, &[u32])], bound: u32) -> Result<Words, Fail> {
    let words = words_of(alloc, insts, bound)?;
    Ok(read_module(alloc, &words)?)
}

#[test]
fn modules_are_read_and_written_back(rt: HostRuntime) -> Result<(), Fail> {
    let cases: [(&[(u16, &[u32])], u32, usize, usize); 3] = [
        (&LOOP_MODULE, 36, 40, 132),
        (&SELECTION_MODULE, 31, 28, 93),
        (&NAMES_MODULE, 23, 23, 87),
    ];
    for (listing, bound, count, written) in cases {
        let words = words_of(rt.alloc(), listing, bound)?;
        let read = read_module(rt.alloc(), &words)?;
        assert_eq!(rt; read.bound, bound);
        assert_eq!(rt; read.insts.len(), count);
        let back = write_module(rt.alloc(), read.insts.as_slice(), read.bound)?;
        assert_eq!(rt; back.len(), written);
    }
    Ok(())
}

#[test]
fn a_loop_is_a_round_behind_its_header(rt: HostRuntime) -> Result<(), Fail> {
    let module = module(rt.alloc(), &LOOP_MODULE, 36)?;
    let insts = module.insts.as_slice();
    assert_eq!(rt; insts.len(), 40);
    let body = tree_of(rt.alloc(), insts)?;
    assert_eq!(rt; body.run.end, End::Return);
    let [entry, header, Node::Round(round), merge] = body.run.nodes.as_slice() else {
        assert!(rt; false, "three blocks and a loop");
        return Ok(());
    };
    assert_eq!(rt; block(entry), Some((20, 17, 4)));
    assert_eq!(rt; block(header), Some((21, 21, 3)));
    assert_eq!(rt; block(merge), Some((25, 35, 4)));
    let round = round.get();
    assert_eq!(rt; (round.header, round.merge, round.next), (21, 25, 24));
    assert_eq!(rt; only_block(&round.test), Some((22, 24, 4)));
    assert_eq!(rt;
        round.test.end,
        End::Test {
            cond: 32,
            on_true: true
        }
    );
    assert_eq!(rt; only_block(&round.inner), Some((23, 28, 2)));
    assert_eq!(rt; round.inner.end, End::Continue);
    assert_eq!(rt; only_block(&round.step), Some((24, 30, 5)));
    assert_eq!(rt; round.step.end, End::Back);
    assert_eq!(rt; flatten(rt.alloc(), &body, insts)?.len(), 22);
    Ok(())
}

#[test]
fn a_selection_is_a_choice_of_two_arms(rt: HostRuntime) -> Result<(), Fail> {
    let module = module(rt.alloc(), &SELECTION_MODULE, 31)?;
    let insts = module.insts.as_slice();
    assert_eq!(rt; insts.len(), 28);
    let body = tree_of(rt.alloc(), insts)?;
    assert_eq!(rt; body.run.end, End::Return);
    let [entry, Node::Choice(choice), merge] = body.run.nodes.as_slice() else {
        assert!(rt; false, "two blocks and a selection");
        return Ok(());
    };
    assert_eq!(rt; block(entry), Some((20, 16, 3)));
    assert_eq!(rt; block(merge), Some((23, 23, 4)));
    let choice = choice.get();
    assert_eq!(rt; (choice.cond, choice.merge), (10, 23));
    assert_eq!(rt; choice.yes.as_ref().and_then(only_block), Some((21, 19, 2)));
    assert_eq!(rt; choice.no.as_ref().and_then(only_block), Some((22, 21, 2)));
    assert_eq!(rt; flatten(rt.alloc(), &body, insts)?.len(), 11);
    Ok(())
}

#[test]
fn names_are_no_instructions_of_the_list(rt: HostRuntime) -> Result<(), Fail> {
    let module = module(rt.alloc(), &NAMES_MODULE, 23)?;
    let insts = module.insts.as_slice();
    assert_eq!(rt; insts.len(), 23);
    let body = tree_of(rt.alloc(), insts)?;
    assert_eq!(rt; only_block(&body.run), Some((20, 17, 5)));
    assert_eq!(rt; flatten(rt.alloc(), &body, insts)?.len(), 5);
    let ids = ids_of(rt.alloc(), &module)?;
    assert_eq!(rt; ids.location(10), Some(3));
    assert_eq!(rt; ids.location(5), Some(0));
    assert!(rt; matches!(ids.at(9), Meaning::Other));
    assert!(rt; matches!(ids.at(22), Meaning::Value { ty: 3 }));
    Ok(())
}

#[test]
fn ids_have_meanings_and_specialization_numbers(rt: HostRuntime) -> Result<(), Fail> {
    let module = module(rt.alloc(), &LOOP_MODULE, 36)?;
    assert_eq!(rt; module.insts.len(), 40);
    let ids = ids_of(rt.alloc(), &module)?;
    assert_eq!(rt; ids.spec_id(10), Some(1));
    assert_eq!(rt; ids.spec_id(11), None);
    assert!(rt; matches!(ids.at(13), Meaning::Variable { ty: 9, class: 7 }));
    assert!(rt; matches!(ids.at(25), Meaning::Label));
    assert!(rt; matches!(ids.at(34), Meaning::Value { ty: 3 }));
    assert!(rt; matches!(ids.at(14), Meaning::Absent));
    Ok(())
}

/// A block's label, the place of its OpLabel, and the number of its instructions.
fn block(node: &Node) -> Option<(u32, u32, u32)> {
    match node {
        Node::Block(
            Block {
                label,
                first,
                count,
            },
        ) => Some((*label, *first, *count)),
        _ => None,
    }
}

/// The block of a run that has no other.
fn only_block(run: &Run) -> Option<(u32, u32, u32)> {
    match run.nodes.as_slice() {
        [node] => block(node),
        _ => None,
    }
}

/// The first fault of a module.
#[derive(Debug, Drop, PartialEq, Eq)]
enum Fault {
    Words(WordsFault),
    Tree(TreeFault),
    Ids(TypeFault),
}

fn first_fault(rt: &impl Abort, alloc: Global, words: &[u32]) -> Option<Fault> {
    let module = match read_module(alloc, words) {
        Ok(module) => module,
        Err(fault) => return Some(Fault::Words(fault)),
    };
    let insts = module.insts.as_slice();
    assert!(rt; insts.len() < 1000);
    if let Err(fault) = tree_of(alloc, insts) {
        return Some(Fault::Tree(fault));
    }
    ids_of(alloc, &module).err().map(Fault::Ids)
}

#[test]
fn a_module_with_one_defect_has_its_fault(rt: HostRuntime) {
    let cases: [(&[u32], Fault); 13] = [
        (&NO_LENGTH, Fault::Words(WordsFault::ZeroLength)),
        (&CUT, Fault::Words(WordsFault::CutShort)),
        (&UNKNOWN, Fault::Words(WordsFault::UnknownOp(310))),
        (&FLOAT, Fault::Words(WordsFault::FloatType)),
        (&OPERAND_OF_RETURN, Fault::Words(WordsFault::BadShape(21))),
        (
            &VARIABLE_BEHIND_RETURN,
            Fault::Tree(TreeFault::BadBlock(15)),
        ),
        (&NO_MERGE, Fault::Tree(TreeFault::BadMerge(31))),
        (&BRANCH_TO_ITSELF, Fault::Tree(TreeFault::BadExit(24))),
        (&LABEL_IS_A_TYPE, Fault::Ids(TypeFault::IdTwice(6))),
        (&TYPE_OUT_OF_BOUND, Fault::Ids(TypeFault::IdOutOfBound(9))),
        (&VARIABLE_OF_AN_INTEGER, Fault::Ids(TypeFault::BadType(12))),
        (&NULL_OF_NO_TYPE, Fault::Ids(TypeFault::BadConstant(11))),
        (&UNIFORM_COORDINATE, Fault::Ids(TypeFault::BadDecoration(4))),
    ];
    for (words, fault) in cases {
        assert_eq!(rt;
            first_fault(&rt, rt.alloc(), words),
            Some(fault),
            "of {words:?}"
        );
    }
}
