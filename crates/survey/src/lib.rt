// Rules 1 and 3, in one walk over the blocks of a region, which counts the valid pages and takes the census on its way.
#![tactic(auto)]

pub mod area;
pub mod blocks;
pub mod pages;
