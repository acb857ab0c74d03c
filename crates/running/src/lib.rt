// A run in its parts: what they hand on, what each does, and that together they are the call of the definitions. Whoever has the requests
// goes through them between `begin` and `finish`, so the laws stand apart from the code of the parts. No code.
#![tactic(auto)]

use lent::reply::Refusal;
use lent::{Counts, Record};

// Whether the run is admitted, the counts of the requests served, and the small record.
#[derive(Clone, Copy)]
pub struct Running {
    pub answer: Result<(), Refusal>,
    pub counts: Counts,
    pub rec: Record,
}
