// What the operations do to pages, blocks and lists, and what a list of operations costs: laws of the definitions. No code.
#![tactic(auto)]
