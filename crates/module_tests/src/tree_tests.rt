//! The tree of a function, and the first fault of its body.
ghost use Rattle.std.specs.Prelude.{◌<◌, IfOk};
ghost use Rattle.spv_tree.specs.Trees.{IsTreeOf};

use crate::faulty_bodies::{
    AGAINST_THE_GRAMMAR, END, IN_A_LOOP, IN_AN_ARM, LABEL_20, LABEL_21, LABEL_22, LOOP_TO_BODY,
    Line, OF_A_SWITCH, RETURN, SWITCH_TO_ARM,
};
use sample_modules::frame::inst;
use spirv_model::{Inst, op};
use spv_tree::{Body, Node, Pick, PickCase, Run, TreeFault, flatten, tree_of};
use std::alloc::{AllocError, Global};
use std::test::Fail;

/// The instructions of a function: OpFunction, and these.
fn function(alloc: Global, parts: &[&[Line]]) -> Result<Vec<Inst>, AllocError> {
    let mut insts = Vec::new(alloc);
    push(alloc, &mut insts, op::FUNCTION, &[1, 10, 0, 2])?;
    for part in parts {
        for (op, words) in *part {
            push(alloc, &mut insts, *op, words)?;
        }
    }
    Ok(insts)
}

fn push(alloc: Global, insts: &mut Vec<Inst>, op: u16, words: &[u32]) -> Result<(), AllocError> {
    insts.push(inst(alloc, op, words)?)?;
    Ok(())
}

/// The tree of a list that is short.
fn read(alloc: Global, insts: &[Inst]) -> Result<Body, TreeFault>
    ensures { IfOk result (λ body. IsTreeOf insts.now body) }
{
    if insts.len() > 20_000 {
        return Err(TreeFault::Memory);
    }
    tree_of(alloc, insts)
}

/// What nests.
#[derive(Clone, Copy)]
enum Construct {
    Selection,
    Switch,
    Loop,
}

/// From the first label of a construct up to that of its arm or body, which is one more.
fn push_head(
    alloc: Global,
    insts: &mut Vec<Inst>,
    construct: Construct,
    at: u32,
) -> Result<(), AllocError>
    requires { at < 1000 }
{
    push(alloc, insts, op::LABEL, &[at])?;
    match construct {
        Construct::Selection => {
            push(alloc, insts, op::SELECTION_MERGE, &[at + 1000, 0])?;
            push(
                alloc,
                insts,
                op::BRANCH_CONDITIONAL,
                &[4, at + 1, at + 1000],
            )
        }
        Construct::Switch => {
            push(alloc, insts, op::SELECTION_MERGE, &[at + 1000, 0])?;
            push(alloc, insts, op::SWITCH, &[6, at + 1000, 1, at + 1])
        }
        Construct::Loop => {
            push(alloc, insts, op::LOOP_MERGE, &[at + 1000, at + 2000, 0])?;
            push(alloc, insts, op::BRANCH, &[at + 3000])?;
            push(alloc, insts, op::LABEL, &[at + 3000])?;
            push(
                alloc,
                insts,
                op::BRANCH_CONDITIONAL,
                &[4, at + 1, at + 1000],
            )
        }
    }
}

/// From the last branch of a construct's arm or body up to the label of its merge block.
fn push_tail(
    alloc: Global,
    insts: &mut Vec<Inst>,
    construct: Construct,
    at: u32,
) -> Result<(), AllocError>
    requires { at < 1000 }
{
    if matches!(construct, Construct::Loop) {
        push(alloc, insts, op::BRANCH, &[at + 2000])?;
        push(alloc, insts, op::LABEL, &[at + 2000])?;
        push(alloc, insts, op::BRANCH, &[at])?;
    } else {
        push(alloc, insts, op::BRANCH, &[at + 1000])?;
    }
    push(alloc, insts, op::LABEL, &[at + 1000])
}

/// So many constructs, each in the arm or the body of the one before, and in the innermost block these lines.
fn nested(
    alloc: Global,
    construct: Construct,
    depth: u32,
    inner: &[Line],
) -> Result<Vec<Inst>, AllocError>
    requires { depth < 100 }
{
    let mut insts = function(alloc, &[])?;
    for at in 0..depth {
        push_head(alloc, &mut insts, construct, at + 100)?;
    }
    push(alloc, &mut insts, op::LABEL, &[depth + 100])?;
    for (op, words) in inner {
        push(alloc, &mut insts, *op, words)?;
    }
    for at in (0..depth).rev() {
        push_tail(alloc, &mut insts, construct, at + 100)?;
    }
    push(alloc, &mut insts, op::RETURN, &[])?;
    push(alloc, &mut insts, op::FUNCTION_END, &[])?;
    Ok(insts)
}

/// An OpSwitch with so many arms, the literal 0 first, and their instructions in the other order.
fn wide_switch(alloc: Global, count: u32) -> Result<Vec<Inst>, AllocError>
    requires { count < 100000 }
{
    let mut insts = function(alloc, &[&[LABEL_20]])?;
    push(alloc, &mut insts, op::SELECTION_MERGE, &[21, 0])?;
    let mut words = Vec::new(alloc);
    words.push(6)?;
    words.push(21)?;
    for at in 0..count {
        words.push(at)?;
        words.push(at + 100)?;
    }
    push(alloc, &mut insts, op::SWITCH, words.as_slice())?;
    for at in (0..count).rev() {
        push(alloc, &mut insts, op::LABEL, &[at + 100])?;
        push(alloc, &mut insts, op::BRANCH, &[21])?;
    }
    push(alloc, &mut insts, op::LABEL, &[21])?;
    push(alloc, &mut insts, op::RETURN, &[])?;
    push(alloc, &mut insts, op::FUNCTION_END, &[])?;
    Ok(insts)
}

/// The blocks of a run as their labels, and its constructs by what they are.
#[cycle(shapes)]
fn shape(alloc: Global, run: &Run) -> Result<String, AllocError> {
    let mut text = String::new(alloc);
    for node in run.nodes.as_slice() {
        let part = match node {
            Node::Block(block) => format!(in alloc;
                " {}@{}+{}",
                block.label, block.first, block.count
            )?,
            Node::Choice(choice) => {
                let choice = choice.get();
                let on_true = way(alloc, &choice.yes)?;
                let on_false = way(alloc, &choice.no)?;
                format!(in alloc;
                    " if {}{on_true} else{on_false} end {}",
                    choice.cond, choice.merge
                )?
            }
            Node::Pick(pick) => pick_shape(alloc, pick.get())?,
            Node::Round(round) => {
                let round = round.get();
                let test = shape(alloc, &round.test)?;
                let inner = shape(alloc, &round.inner)?;
                let step = shape(alloc, &round.step)?;
                format!(in alloc;
                    " loop {} {} {} ({test} ) ({inner} ) ({step} )",
                    round.header, round.merge, round.next
                )?
            }
        };
        text.push_str(part.as_str())?;
    }
    let end = run.end;
    format!(in alloc; "{text} {end:?}")
}

#[cycle(shapes)]
fn pick_shape(alloc: Global, pick: &Pick) -> Result<String, AllocError> {
    let mut text = format!(in alloc; " switch {}", pick.selector)?;
    for case in pick.cases.as_slice() {
        let arm = case.arm;
        let part = format!(in alloc; " {}: {arm:?},", case.literal)?;
        text.push_str(part.as_str())?;
    }
    let default = pick.default;
    let part = format!(in alloc; " else {default:?} end {}", pick.merge)?;
    text.push_str(part.as_str())?;
    for run in pick.arms.as_slice() {
        let arm = shape(alloc, run)?;
        let part = format!(in alloc; " [{arm} ]")?;
        text.push_str(part.as_str())?;
    }
    Ok(text)
}

#[cycle(shapes)]
fn way(alloc: Global, way: &Option<Run>) -> Result<String, AllocError> {
    match way {
        None => String::from_str(alloc, ""),
        Some(run) => shape(alloc, run),
    }
}

#[test]
fn one_block_is_a_tree_of_one_node(rt: HostRuntime) -> Result<(), Fail> {
    let alloc = rt.alloc();
    let insts = function(alloc, &[&[LABEL_20, (op::STORE, &[4, 5]), RETURN, END]])?;
    let body = read(alloc, insts.as_slice())?;
    assert_eq!(rt; shape(alloc, &body.run)?.as_str(), " 20@1+3 Return");
    let blocks = flatten(alloc, &body, insts.as_slice())?;
    assert_eq!(rt; blocks.len(), 3);
    assert_eq!(rt; blocks[0].op, op::LABEL);
    assert_eq!(rt; blocks[1].words.as_slice(), [4, 5].as_slice());
    assert_eq!(rt; blocks[2].op, op::RETURN);
    Ok(())
}

#[test]
fn a_selection_stands_in_the_body_of_a_loop(rt: HostRuntime) -> Result<(), Fail> {
    let alloc = rt.alloc();
    let rest: [Line; 13] = [
        (op::SELECTION_MERGE, &[40, 0]),
        (op::BRANCH_CONDITIONAL, &[4, 41, 42]),
        (op::LABEL, &[41]),
        (op::BRANCH, &[30]),
        (op::LABEL, &[42]),
        (op::KILL, &[]),
        (op::LABEL, &[40]),
        (op::BRANCH, &[31]),
        (op::LABEL, &[31]),
        (op::BRANCH, &[20]),
        (op::LABEL, &[30]),
        RETURN,
        END,
    ];
    let insts = function(alloc, &[&LOOP_TO_BODY, &rest])?;
    let body = read(alloc, insts.as_slice())?;
    let text = shape(alloc, &body.run)?;
    assert_eq!(rt;
        text.as_str(),
        " 20@1+3 loop 20 30 31 ( 32@4+2 Test { cond: 4, on_true: true } ) ( 33@6+3 if 4 41@9+2 Break else 42@11+2 Kill end 40 40@13+2 Continue ) ( 31@15+2 Back ) 30@17+2 Return"
    );
    assert_eq!(rt; flatten(alloc, &body, insts.as_slice())?.len(), 18);
    Ok(())
}

#[test]
fn arms_of_a_switch_stand_in_any_order(rt: HostRuntime) -> Result<(), Fail> {
    let alloc = rt.alloc();
    let lines: [Line; 10] = [
        LABEL_20,
        (op::SELECTION_MERGE, &[21, 0]),
        (op::SWITCH, &[6, 21, 1, 23, 2, 22, 3, 23]),
        (op::LABEL, &[23]),
        (op::BRANCH, &[21]),
        LABEL_22,
        RETURN,
        LABEL_21,
        (op::PHI, &[3, 60]),
        RETURN,
    ];
    let insts = function(alloc, &[&lines, &[END]])?;
    let body = read(alloc, insts.as_slice())?;
    let text = shape(alloc, &body.run)?;
    assert_eq!(rt;
        text.as_str(),
        " 20@1+3 switch 6 1: Some(0), 2: Some(1), 3: Some(0), else None end 21 [ 23@4+2 Merge ] [ 22@6+2 Return ] 21@8+3 Return"
    );
    assert_eq!(rt; flatten(alloc, &body, insts.as_slice())?.len(), 10);
    Ok(())
}

#[test]
fn a_selection_in_an_arm_leaves_to_the_merge_block_of_the_switch(
    rt: HostRuntime,
) -> Result<(), Fail> {
    let alloc = rt.alloc();
    let lines: [Line; 21] = [
        (op::SELECTION_MERGE, &[40, 0]),
        (op::BRANCH_CONDITIONAL, &[4, 41, 40]),
        (op::LABEL, &[41]),
        (op::BRANCH, &[21]),
        (op::LABEL, &[40]),
        (op::PHI, &[3, 60]),
        (op::BRANCH, &[21]),
        (op::LABEL, &[23]),
        (op::LOOP_MERGE, &[50, 51, 0]),
        (op::BRANCH, &[52]),
        (op::LABEL, &[52]),
        (op::BRANCH_CONDITIONAL, &[4, 53, 50]),
        (op::LABEL, &[53]),
        (op::BRANCH, &[51]),
        (op::LABEL, &[51]),
        (op::BRANCH, &[23]),
        (op::LABEL, &[50]),
        (op::BRANCH, &[21]),
        LABEL_21,
        (op::PHI, &[3, 61]),
        RETURN,
    ];
    let insts = function(alloc, &[&SWITCH_TO_ARM, &lines, &[END]])?;
    let body = read(alloc, insts.as_slice())?;
    let text = shape(alloc, &body.run)?;
    assert_eq!(rt;
        text.as_str(),
        " 20@1+3 switch 6 1: Some(1), else Some(0) end 21 [ 22@4+3 if 4 41@7+2 Leave else end 40 40@9+3 Merge ] [ 23@12+3 loop 23 50 51 ( 52@15+2 Test { cond: 4, on_true: true } ) ( 53@17+2 Continue ) ( 51@19+2 Back ) 50@21+2 Merge ] 21@23+3 Return"
    );
    assert_eq!(rt; flatten(alloc, &body, insts.as_slice())?.len(), 25);
    Ok(())
}

#[test]
fn the_first_fault_against_the_grammar_is_answered(rt: HostRuntime) -> Result<(), Fail> {
    let alloc = rt.alloc();
    for (lines, fault) in AGAINST_THE_GRAMMAR {
        let insts = function(alloc, &[lines, &[END]])?;
        assert_eq!(rt; read(alloc, insts.as_slice()).err(), Some(fault));
    }
    Ok(())
}

#[test]
fn the_function_ends_the_list(rt: HostRuntime) -> Result<(), Fail> {
    let alloc = rt.alloc();
    let insts = function(alloc, &[&[LABEL_20, RETURN]])?;
    assert_eq!(rt;
        read(alloc, insts.as_slice()).err(),
        Some(TreeFault::BadBlock(3))
    );
    let insts = function(alloc, &[&[LABEL_20, RETURN, END, RETURN]])?;
    assert_eq!(rt;
        read(alloc, insts.as_slice()).err(),
        Some(TreeFault::BadBlock(4))
    );
    Ok(())
}

#[test]
fn a_loop_is_left_and_gone_on_with_as_it_says(rt: HostRuntime) -> Result<(), Fail> {
    let alloc = rt.alloc();
    for (lines, fault) in IN_A_LOOP {
        let insts = function(alloc, &[&LOOP_TO_BODY, lines, &[END]])?;
        assert_eq!(rt; read(alloc, insts.as_slice()).err(), Some(fault));
    }
    Ok(())
}

#[test]
fn an_arm_of_a_switch_leads_to_no_other(rt: HostRuntime) -> Result<(), Fail> {
    let alloc = rt.alloc();
    for (lines, fault) in IN_AN_ARM {
        let insts = function(alloc, &[&SWITCH_TO_ARM, lines, &[END]])?;
        assert_eq!(rt; read(alloc, insts.as_slice()).err(), Some(fault));
    }
    Ok(())
}

#[test]
fn a_switch_is_laid_out_as_its_words_say(rt: HostRuntime) -> Result<(), Fail> {
    let alloc = rt.alloc();
    for (lines, fault) in OF_A_SWITCH {
        let insts = function(alloc, &[lines, &[END]])?;
        assert_eq!(rt; read(alloc, insts.as_slice()).err(), Some(fault));
    }
    Ok(())
}

#[test]
fn sixty_four_constructs_nest_and_no_more(rt: HostRuntime) -> Result<(), Fail> {
    let alloc = rt.alloc();
    let constructs = [
        (Construct::Selection, TreeFault::TooDeep(194)),
        (Construct::Switch, TreeFault::TooDeep(194)),
        (Construct::Loop, TreeFault::TooDeep(322)),
    ];
    for (construct, fault) in constructs {
        for depth in 63..65 {
            let insts = nested(alloc, construct, depth, &[])?;
            assert!(rt; read(alloc, insts.as_slice()).is_ok());
        }
        let insts = nested(alloc, construct, 65, &[])?;
        assert_eq!(rt; read(alloc, insts.as_slice()).err(), Some(fault));
    }
    Ok(())
}

#[test]
fn a_merge_instruction_is_too_deep_before_anything_but_another_terminator(
    rt: HostRuntime,
) -> Result<(), Fail> {
    let alloc = rt.alloc();
    let merge: Line = (op::SELECTION_MERGE, &[90, 0]);
    let lines = [merge, (op::I_ADD, &[3, 60, 6, 6])];
    let insts = nested(alloc, Construct::Switch, 64, &lines)?;
    assert_eq!(rt;
        read(alloc, insts.as_slice()).err(),
        Some(TreeFault::TooDeep(194))
    );
    let lines = [merge, RETURN];
    let insts = nested(alloc, Construct::Switch, 64, &lines)?;
    assert_eq!(rt;
        read(alloc, insts.as_slice()).err(),
        Some(TreeFault::BadMerge(194))
    );
    let lines = [merge, (op::I_ADD, &[3, 60, 6, 6])];
    let insts = nested(alloc, Construct::Switch, 63, &lines)?;
    assert_eq!(rt;
        read(alloc, insts.as_slice()).err(),
        Some(TreeFault::BadBlock(192))
    );
    Ok(())
}

#[test]
fn a_switch_has_a_thousand_arms(rt: HostRuntime) -> Result<(), Fail> {
    let alloc = rt.alloc();
    let insts = wide_switch(alloc, 1000)?;
    let body = read(alloc, insts.as_slice())?;
    let Some(Node::Pick(pick)) = body.run.nodes.as_slice().get(1) else {
        return Err(TreeFault::BadBlock(2).into());
    };
    let pick = pick.get();
    assert_eq!(rt; pick.arms.len(), 1000);
    assert_eq!(rt; pick.default, None);
    assert_eq!(rt;
        pick.cases.as_slice().get(7).copied(),
        Some(PickCase {
            literal: 7,
            arm: Some(992)
        })
    );
    assert_eq!(rt; flatten(alloc, &body, insts.as_slice())?.len(), 2005);
    Ok(())
}

#[test]
fn the_longest_module_is_one_block(rt: HostRuntime) -> Result<(), Fail> {
    let alloc = rt.alloc();
    let mut insts = function(alloc, &[&[LABEL_20]])?;
    for _ in 0..16_380 {
        push(alloc, &mut insts, op::STORE, &[4, 5])?;
    }
    push(alloc, &mut insts, op::RETURN, &[])?;
    push(alloc, &mut insts, op::FUNCTION_END, &[])?;
    assert_eq!(rt; insts.len(), 16_384);
    let body = read(alloc, insts.as_slice())?;
    assert_eq!(rt; flatten(alloc, &body, insts.as_slice())?.len(), 16_382);
    Ok(())
}
