// Leaves over lent slices, each with a contract on the whole list. runs: words filled, copied and stored; entries: the cache's
// entries; spare: a page's state and owner; states: counts of states; erased: sweeps for erased words; census: searches among the
// blocks; bitmap: a set of small numbers.
#![tactic(auto)]

pub mod bitmap;
pub mod census;
pub mod entries;
pub mod erased;
pub mod runs;
pub mod spare;
pub mod states;
