// What a call is told and tells by numbers alone: 01's tests of the geometry, of lengths and of a request, the counts handed over, and the
// two structs of the public calls that are neither a geometry nor a record. Nothing here sees a word of the state.
#![tactic(auto)]

ghost use Rattle.std.specs.Prelude.{◌≡◌};
ghost use Rattle.replies.specs.Model.{kind, Decodes};

pub mod counting;
pub mod tests;

use lent::Record;
use lent::reply::{Refusal, Reply};

// What a request asks for.
#[derive(Clone, Copy, Debug, PartialEq, Eq)]
pub enum Kind {
    Read,
    Write,
}

impl TryFrom<u32> for Kind {
    type Error = Refusal;

    ghost try_from_gives = { Decodes };

    fn try_from(number: u32) -> Result<Self, Refusal> {
        match number {
            0 => Ok(Kind::Read),
            1 => Ok(Kind::Write),
            _ => Err(Refusal::Kind),
        }
    }
}

impl From<Kind> for u32 {
    ghost from_gives = { λ asked number. number ≡ kind asked };

    fn from(asked: Kind) -> u32 {
        match asked {
            Kind::Read => 0,
            Kind::Write => 1,
        }
    }
}

// A request: kind 0 reads and kind 1 writes a logical page.
// Kept: `kind` is a number, as any may come and KIND refuses it (01's tests of a request, `request_tests`, and the theorems on runs).
#[derive(Clone, Copy)]
pub struct Request {
    pub kind: u32,
    pub page: u32,
}

// The reply, and the small record after the call.
#[derive(Clone, Copy)]
pub struct Out {
    pub answer: Reply,
    pub rec: Record,
}
