// A region's numbers, of the geometry and of the small record, and the searches among its blocks.
ghost use Rattle.std.specs.Prelude.{◌≡◌};
ghost use Rattle.flash.specs.Bounded.{Bounded};
ghost use Rattle.lent.specs.Model.{geometry, small, region};
ghost use Rattle.scope.specs.Regions.{first_block, region_blocks};
ghost use Rattle.scope.specs.SmallRecord.{open_block, next_offset, with_open};
ghost use Rattle.scope.specs.Lent.{State};
ghost use Rattle.scope.specs.Room.{erased_blocks, lowest_erased, victim, open_lowest};
ghost use Rattle.lent.specs.Shapes.{DoesBySpare};
ghost use Rattle.words.specs.Census.{Census};

use crate::Flash;
use lent::{Geometry, Record, Region, Work};
use words::census::{ERASED_PAGE, count_equal, fewest_below, lowest_equal};

pub fn first_block(g: Geometry, r: Region) -> u32
    ensures { result ≡ first_block (geometry g) (region r) }
{
    match r {
        Region::Data => 0,
        Region::Translation => g.d,
    }
}

pub fn region_blocks(g: Geometry, r: Region) -> u32
    ensures { result ≡ region_blocks (geometry g) (region r) }
{
    match r {
        Region::Data => g.d,
        Region::Translation => g.t,
    }
}

// The open block, and its next page offset.
pub fn open_block(rec: Record, r: Region) -> u32
    ensures { result ≡ open_block (region r) (small rec) }
{
    match r {
        Region::Data => rec.open_data,
        Region::Translation => rec.open_translation,
    }
}

pub fn next_offset(rec: Record, r: Region) -> u32
    ensures { result ≡ next_offset (region r) (small rec) }
{
    match r {
        Region::Data => rec.data_offset,
        Region::Translation => rec.translation_offset,
    }
}

// Another open block and next offset.
pub fn set_open(rec: &mut Record, r: Region, b: u32, offset: u32)
    ensures { small rec.new ≡ with_open (region r) b offset (small rec.old) }
{
    match r {
        Region::Data => {
            rec.open_data = b;
            rec.data_offset = offset;
        }
        Region::Translation => {
            rec.open_translation = b;
            rec.translation_offset = offset;
        }
    }
}

// The blocks as the searches see them: the spare, and the census that is right of it. They ask nothing of a chip, nor how long the spare is.
#[derive(Clone, Copy)]
pub struct Blocks<'a> {
    pub g: Geometry,
    pub spare: &'a [u32],
    pub census: &'a [u32],
    pub ghost bounded: { Bounded (geometry g) },
    pub ghost counted: { Census (geometry g) spare.now census.now },
}

impl Blocks<'_> {
    // How many blocks are wholly erased.
    pub fn erased_blocks(&self, r: Region) -> u32
        ensures { (s : State) → s.spare ≡ self.now.spare.now
            → erased_blocks (geometry self.now.g) (region r) s ≡ result }
    {
        let first = first_block(self.g, r) as usize;
        let n = region_blocks(self.g, r) as usize;
        count_equal(self.census, first, n, ERASED_PAGE * self.g.p) as u32
    }

    // The lowest of them.
    pub fn lowest_erased(&self, r: Region) -> u32
        ensures { (s : State) → s.spare ≡ self.now.spare.now
            → lowest_erased (geometry self.now.g) (region r) s ≡ result }
    {
        let first = first_block(self.g, r) as usize;
        let n = region_blocks(self.g, r) as usize;
        (first + lowest_equal(self.census, first, n, ERASED_PAGE * self.g.p)) as u32
    }

    // The block to collect.
    pub fn victim(&self, r: Region) -> u32
        ensures { (s : State) → s.spare ≡ self.now.spare.now → victim (geometry self.now.g) (region r) s ≡ result }
    {
        let first = first_block(self.g, r) as usize;
        let n = region_blocks(self.g, r) as usize;
        (first + fewest_below(self.census, first, n, ERASED_PAGE)) as u32
    }

    // The lowest wholly erased block becomes the open one.
    pub fn open_lowest(&self, work: &mut Work, r: Region)
        ensures { DoesBySpare (open_lowest (geometry self.now.g) (region r)) self.now.spare.now work.old tt work.new }
    {
        let b = self.lowest_erased(r);
        set_open(&mut work.rec, r, b, 0);
    }
}

impl Flash<'_> {
    // Its blocks.
    pub fn blocks(&self) -> Blocks<'_>
        ensures same_geometry { result.g ≡ self.now.g }
        ensures same_spare { result.spare.now ≡ self.now.spare.now }
    {
        Blocks {
            g: self.g,
            spare: self.spare,
            census: self.census,
        }
    }
}
