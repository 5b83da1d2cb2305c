//! A module's values as words: how the values of ids lie in one frame, and the words of variables in one memory.
#![tactic(auto)]
