// The words that have a meaning, and the numbers of a call: the geometry, the small record, the counts, a region, and an entry taken apart.
// Their models, and the shape of every step's contract, stand in specs/.
#![tactic(auto)]

ghost use Rattle.std.specs.Prelude.{◌≡◌};
ghost use Rattle.scope.specs.Lent.{decode};
ghost use Rattle.lent.specs.Model.{counts, entry};
ghost use Rattle.lent.specs.DoesLaws.{one_read, one_program, one_erase};
ghost use Rattle.lent.specs.Shapes.{RoomToCount};

pub mod reply;

// No page; the word of an erased page, in the chip and in the spare; the other two states.
pub const NONE: u32 = 4294967295;

pub const ERASED: u32 = 4294967295;

pub const VALID: u32 = 65535;

pub const INVALID: u32 = 0;

// Words a page has in the spare: its state and its owner.
pub const SPARE_WORDS: usize = 2;

// Words an entry has in the cache: its logical page, its physical page, and whether it is changed.
pub const ENTRY_WORDS: usize = 3;

// Words of the small record.
pub const RECORD_WORDS: usize = 6;

// Words of what a call keeps on its stack: the census, and the filter of the cached pages, whose words have 64 bits.
pub const CENSUS_WORDS: usize = 1024;

pub const FILTER_WORDS: usize = 1024;

pub const FILTER_BITS: usize = FILTER_WORDS * 64;

// The six numbers of a geometry.
#[derive(Clone, Copy)]
pub struct Geometry {
    pub p: u32,
    pub w: u32,
    pub d: u32,
    pub t: u32,
    pub l: u32,
    pub c: u32,
}

// The small record, in document 01's order, with the number that document 02 adds.
#[derive(Clone, Copy)]
pub struct Record {
    pub open_data: u32,
    pub data_offset: u32,
    pub open_translation: u32,
    pub translation_offset: u32,
    pub used: u32,
    pub protected: u32,
}

// Reads, programs and erases.
#[derive(Clone, Copy)]
pub struct Counts {
    pub reads: u32,
    pub programs: u32,
    pub erases: u32,
}

// The small record and the counts so far, which a step is lent and changes in place.
#[derive(Clone, Copy)]
pub struct Work {
    pub rec: Record,
    pub counts: Counts,
}

// The two regions of the chip.
#[derive(Clone, Copy)]
pub enum Region {
    Data,
    Translation,
}

// An entry: a page number, or none.
// Kept: (a) document 01 names this form, "an entry is a page number or none", and docs/DECISIONS.md this enum and `decode`.
#[derive(Clone, Copy, Debug, PartialEq, Eq)]
pub enum Entry {
    Place(u32),
    Nowhere,
}

// A word as an entry.
pub fn decode(x: u32) -> Entry
    ensures { entry result ≡ decode x }
{
    if x == NONE {
        Entry::Nowhere
    } else {
        Entry::Place(x)
    }
}

impl Counts {
    // One more read; one more program; one more erase.
    pub fn add_read(&mut self)
        requires { RoomToCount 1 self.old }
        ensures { counts self.new ≡ one_read (counts self.old) }
    {
        self.reads += 1;
    }

    pub fn add_program(&mut self)
        requires { RoomToCount 1 self.old }
        ensures { counts self.new ≡ one_program (counts self.old) }
    {
        self.programs += 1;
    }

    pub fn add_erase(&mut self)
        requires { RoomToCount 1 self.old }
        ensures { counts self.new ≡ one_erase (counts self.old) }
    {
        self.erases += 1;
    }
}
