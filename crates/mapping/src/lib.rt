// Rules 4 to 7: what directory, translation pages and cache say of where pages lie. Rule 2 goes with 4 and 6; rule 5 fills the filter of
// the cached pages.
#![tactic(auto)]

pub mod directory;
pub mod entries;
pub mod held;
pub mod owners;
pub mod part;
pub mod places;
pub mod stored;
pub mod tally;
