// 01's table of replies: a call is done, or it read a page that nothing was written to, or the first test that applies refuses it. Their
// numbers, which C is handed, stand in the model.
ghost use Rattle.std.specs.Prelude.{◌≡◌};
ghost use Rattle.lent.specs.Reply.{refusal, reply, tested};
ghost use Rattle.lent.specs.declared.reply.Reply.TheVariants.{Refused};

// What the tests refuse for, in their order.
#[derive(Clone, Copy, Debug, PartialEq, Eq)]
pub enum Refusal {
    Geometry,
    Length,
    Damaged,
    Kind,
    Page,
}

#[derive(Clone, Copy, Debug, PartialEq, Eq)]
pub enum Reply {
    Done,
    Unwritten,
    Refused(Refusal),
}

impl From<Refusal> for u32 {
    ghost from_gives = { λ refused n. n ≡ refusal refused };

    fn from(refused: Refusal) -> u32 {
        match refused {
            Refusal::Geometry => 2,
            Refusal::Length => 3,
            Refusal::Damaged => 4,
            Refusal::Kind => 5,
            Refusal::Page => 6,
        }
    }
}

impl From<Reply> for u32 {
    ghost from_gives = { λ replied n. n ≡ reply replied };

    fn from(replied: Reply) -> u32 {
        match replied {
            Reply::Done => 0,
            Reply::Unwritten => 1,
            Reply::Refused(refused) => refused.into(),
        }
    }
}

impl From<Refusal> for Reply {
    ghost from_gives = { λ refused replied. replied ≡ Refused refused };

    fn from(refused: Refusal) -> Reply {
        Reply::Refused(refused)
    }
}

// The reply of a call that does nothing but test.
impl From<Result<(), Refusal>> for Reply {
    ghost from_gives = { λ tests replied. reply replied ≡ tested tests };

    fn from(tests: Result<(), Refusal>) -> Reply {
        match tests {
            Ok(()) => Reply::Done,
            Err(refused) => refused.into(),
        }
    }
}
