// The settings record of document 02's P1, read and written field by field, by the table of its version. What each function means stands in
// crate settings; what the structs and enums here mean, with 02's numbers for the refusals, in specs/Model.antt.
#![tactic(auto)]

ghost use Rattle.std.specs.Prelude.{◌≡◌};
ghost use Rattle.settings.specs.Settings.{version_1, versions, version_of};
ghost use Rattle.fields.specs.Model.{size, version, row};

pub mod after;
pub mod next;
pub mod numbers;
pub mod read;
pub mod refusal;
pub mod rows;
pub mod words;
pub mod write;

// How many bytes the number of a field has.
#[derive(Clone, Copy)]
pub enum Size {
    One = 1,
    Two = 2,
    Four = 4,
}

impl Size {
    pub(crate) fn bytes(self) -> usize
        ensures { result ≡ size self }
    {
        self as usize
    }
}

// A field by its version: its tag, and how many bytes its number has.
#[derive(Clone, Copy)]
pub struct Field {
    pub tag: u8,
    pub size: Size,
}

// The bytes of a field before its number: a tag of one, a length of two.
pub const HEAD_BYTES: usize = 3;

// How many numbers a geometry has, and so how many fields a version has behind its own.
pub const NUMBERS: usize = 6;

// A version: its number, its fields in their order, and whether fields of higher tags may follow.
#[derive(Clone, Copy)]
pub struct Version {
    pub number: u8,
    pub fields: [Field; NUMBERS],
    pub more: bool,
}

// The field of a version's number, with which every record begins.
pub const VERSION_FIELD: Field = Field {
    tag: 1,
    size: Size::One,
};

// The row of version 1.
pub fn version_1() -> Version
    ensures { version result ≡ version_1 }
{
    Version {
        number: 1,
        fields: [
            Field {
                tag: 2,
                size: Size::Two,
            },
            Field {
                tag: 3,
                size: Size::Two,
            },
            Field {
                tag: 4,
                size: Size::Two,
            },
            Field {
                tag: 5,
                size: Size::Two,
            },
            Field {
                tag: 6,
                size: Size::Four,
            },
            Field {
                tag: 7,
                size: Size::Two,
            },
        ],
        more: true,
    }
}

// The row that has a number.
pub fn version_of(number: u32) -> Option<Version>
    ensures { row result ≡ version_of versions number }
{
    match number {
        1 => Some(version_1()),
        _ => None,
    }
}
