// The three demands, said of the contracts of the public calls. No code.
#![tactic(auto)]
