// What the cache's order does to ranks, entries and current places: laws of the definitions. No code.
#![tactic(auto)]
