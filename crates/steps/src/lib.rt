// What document 01's steps on flash and directory are made of, in code, each equal to its definition in lent words and in counts. Flash is
// what they work on; blocks: a region's numbers, and the searches among its blocks; census: states changed, with what these read; chip:
// operations on chip or spare alone; operations: those on flash; directory.
#![tactic(auto)]

pub mod blocks;
pub mod census;
pub mod chip;
pub mod directory;
pub mod operations;

ghost use Rattle.std.specs.Prelude.{◌≡◌, length};
ghost use Rattle.scope.specs.Lent.{chip_size, spare_size};
ghost use Rattle.flash.specs.Bounded.{Bounded};
ghost use Rattle.lent.specs.Model.{geometry};
ghost use Rattle.words.specs.Census.{Census};

use lent::Geometry;

// Flash as the steps work on it: the chip and its spare, under a geometry that they have the sizes of, and the census of the blocks, which
// is right whenever no step is under way. What a step asks beside that stands in its contract.
#[derive(Drop)]
pub struct Flash<'a> {
    pub g: Geometry,
    pub chip: &'a mut [u32],
    pub spare: &'a mut [u32],
    pub census: &'a mut [u32],
    pub ghost bounded: { Bounded (geometry g) },
    pub ghost chip_fits: { length chip.now ≡ chip_size (geometry g) },
    pub ghost spare_fits: { length spare.now ≡ spare_size (geometry g) },
    pub ghost counted: { Census (geometry g) spare.now census.now },
}
