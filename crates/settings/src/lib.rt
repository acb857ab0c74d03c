// Document 02's P1 as definitions, and what is proved of them. No code.
#![tactic(auto)]
