// The six numbers of a geometry in 02's order, and back.
ghost use Rattle.std.specs.Prelude.{◌≡◌};
ghost use Rattle.lent.specs.Model.{geometry};
ghost use Rattle.settings.specs.Settings.{numbers_of};

use crate::NUMBERS;
use lent::Geometry;

// Kept: two functions, since a From of other crates' types may not stand here.
pub(crate) fn numbers_of(g: Geometry) -> [u32; NUMBERS]
    ensures { result ≡ numbers_of (geometry g) }
{
    let Geometry { p, w, d, t, l, c } = g;
    [p, w, d, t, l, c]
}

pub(crate) fn geometry_from(numbers: [u32; NUMBERS]) -> Geometry
    ensures { numbers_of (geometry result) ≡ numbers }
{
    let [p, w, d, t, l, c] = numbers;
    Geometry { p, w, d, t, l, c }
}
