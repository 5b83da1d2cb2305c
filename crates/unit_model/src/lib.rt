//! Which modules may stand for a pipeline's own ones: those that are reduced, and agree with them.
#![tactic(auto)]
