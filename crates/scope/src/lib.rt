// Document 01 as definitions. All of it stands in specs/, where the contracts of the other crates cite it; there is no code here.
#![tactic(auto)]
