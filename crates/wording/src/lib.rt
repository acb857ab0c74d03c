// What C lends as words beside the lists, read and stored: the small record, and the requests of a run. The laws that lead from a call by value
// to a call in words stand in specs/.
#![tactic(auto)]

pub mod record;
pub mod requests;
