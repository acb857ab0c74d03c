// Why a call is refused, in the order of document 02's numbers.
ghost use Rattle.std.specs.Prelude.{◌≡◌};
ghost use Rattle.fields.specs.Model.{refusal};

#[derive(Clone, Copy, PartialEq, Eq, Debug)]
pub enum Refusal {
    Short,
    Tag,
    Length,
    Version,
    After,
    Geometry,
    Place,
}

impl From<Refusal> for u32 {
    ghost from_gives = { λ refused n. n ≡ refusal refused };

    fn from(refused: Refusal) -> u32 {
        match refused {
            Refusal::Short => 1,
            Refusal::Tag => 2,
            Refusal::Length => 3,
            Refusal::Version => 4,
            Refusal::After => 5,
            Refusal::Geometry => 6,
            Refusal::Place => 7,
        }
    }
}
