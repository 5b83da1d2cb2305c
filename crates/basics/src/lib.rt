//! Words of specifications and lemmas that several crates share: answers unless memory ran out, counts that stand still
//! at their end, 32-bit words read as signed numbers. There is no code here.
#![tactic(auto)]
