// The three demands, proved of the definitions. No code.
#![tactic(auto)]
