// The seven rules of a sound state together: those of `survey` and those of `mapping`.
#![tactic(auto)]

pub mod sound;
