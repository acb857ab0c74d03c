// Room in a region, once for both: the choice among room that is there, an erased block opened and a block to collect, and the start of a
// collection, which copies the block's valid pages and notes where they went. What follows a moved page is the caller's to do with these
// moves: it makes no operation and looks at nothing that a copy changes, so that it may wait for the last copy.
#![tactic(auto)]

pub mod choice;
pub mod copies;
