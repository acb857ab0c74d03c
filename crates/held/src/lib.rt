// What it is for a function to be held to a fact. No code.
#![tactic(auto)]
