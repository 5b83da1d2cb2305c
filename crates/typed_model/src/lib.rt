//! Which values ids have at a place of a valid module: those of their types. So each instruction finds the operands that it
//! takes, and a stage of a valid module has an outcome.
#![tactic(auto)]
