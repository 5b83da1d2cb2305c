ghost use Rattle.std.specs.Prelude.{◌≡◌, ◌<◌, ◌^◌, length};
ghost use Rattle.spirv_model.specs.declared.module.Words.{Words};
ghost use Rattle.check_model.specs.Interfaces as interfaces;
ghost use Rattle.check_model.specs.Interfaces.{AreSpecIds, stage_of};
ghost use Rattle.check_model.specs.Validity.{IsValidList};
ghost use Rattle.spv_tree.specs.Trees.{IsTreeOf};
ghost use Rattle.spv_types.specs.Answers.{AreIdsOf};
ghost use Rattle.valid_model.specs.ModuleFacts.{facts_of, is_vertex};
ghost use Rattle.spv_check.specs.Modules.{IsModule, stage_by};

use crate::list_faults::{inputs_of, outputs_of};
use check_model::Stage;
use spirv_model::{Inst, Items, Words};
use spv_tree::Body;
use spv_types::Ids;
use state_model::Iface;
use std::marker::Model;

/// A valid module (SPIR-V specification, section 2.16 "Validation Rules"). It is seen as its instructions and its id bound,
/// from which all else follows.
#[derive(Drop)]
pub struct Module {
    words: Words,
    body: Body,
    ids: Ids,
    stage: Stage,
    inputs: Iface,
    outputs: Iface,
    spec_ids: Items<u32>,
}

impl Model for Module {
    ghost Value = { Words };

    ghost view = { λ m. m.words };

    ghost invariant = { λ m. IsModule m.words m.body m.ids m.stage m.inputs m.outputs m.spec_ids };
}

impl Module {
    /// Its instructions in their order.
    pub fn insts(&self) -> &[Inst]
        ensures are { result.now ≡ self.now.insts }
        ensures few { length result.now < 2 ^ 32 }
        ensures valid { IsValidList self.now }
    {
        self.words.insts.as_slice()
    }

    /// The bound of its ids, above all of them.
    pub fn bound(&self) -> u32
        ensures is { result ≡ self.now.bound }
        ensures valid { IsValidList self.now }
    {
        self.words.bound
    }

    /// Its instructions and its bound.
    pub fn into_words(self) -> Words
        ensures { result ≡ self }
    {
        let Module { words, .. } = self;
        words
    }

    /// The structured body of its function.
    pub fn body(&self) -> &Body
        ensures { IsTreeOf self.now.insts result.now }
    {
        &self.body
    }

    /// What its ids mean, and what decorations say of them.
    pub fn ids(&self) -> &Ids
        ensures { AreIdsOf self.now result.now }
    {
        &self.ids
    }

    /// The stage of its entry point.
    pub fn stage(&self) -> Stage
        ensures { result ≡ stage_of self.now.insts }
    {
        self.stage
    }

    /// Its inputs by location.
    pub fn inputs(&self) -> &Iface
        ensures { result.now ≡ interfaces.inputs_of self.now.insts }
    {
        &self.inputs
    }

    /// Its outputs by location.
    pub fn outputs(&self) -> &Iface
        ensures { result.now ≡ interfaces.outputs_of self.now.insts }
    {
        &self.outputs
    }

    /// The numbers by which its specialization constants are set, in ascending order.
    pub fn spec_ids(&self) -> &[u32]
        ensures { AreSpecIds self.now.insts result.now }
    {
        self.spec_ids.as_slice()
    }
}

/// The module with these parts, which are its own.
pub fn module_with(words: Words, body: Body, ids: Ids, vertex: bool, spec_ids: Items<u32>) -> Module
    requires few { length words.insts < 2 ^ 32 }
    requires valid { IsValidList words }
    requires tree { IsTreeOf words.insts body }
    requires ids { AreIdsOf words ids }
    requires vertex { vertex ≡ is_vertex (facts_of words.insts) }
    requires declares { AreSpecIds words.insts spec_ids }
    ensures { result ≡ words }
{
    let stage = stage_by(vertex);
    let inputs = inputs_of(&words, &ids);
    let outputs = outputs_of(&words, &ids);
    Module {
        words,
        body,
        ids,
        stage,
        inputs,
        outputs,
        spec_ids,
    }
}

fn stage_by(vertex: bool) -> Stage
    ensures { result ≡ stage_by vertex }
{
    if vertex {
        Stage::Vertex
    } else {
        Stage::Fragment
    }
}
