// The reader: the version's number, the version's fields, what may follow them, the geometry. The first reason that applies refuses.
ghost use Rattle.std.specs.Prelude.{◌≡◌};
ghost use Rattle.settings.specs.Settings.{versions, read};
ghost use Rattle.fields.specs.Model.{settings};

use crate::after::may_follow;
use crate::next::next;
use crate::numbers::geometry_from;
use crate::refusal::Refusal;
use crate::rows::fields_at;
use crate::{NUMBERS, VERSION_FIELD, version_of};
use lent::Geometry;

// What a settings record says, or why it is refused.
pub fn read(bytes: &[u8]) -> Result<Geometry, Refusal>
    ensures { settings result ≡ read versions bytes.now }
{
    let (number, fields) = next(bytes, VERSION_FIELD)?;
    let table = version_of(number).ok_or(Refusal::Version)?;
    let (numbers, rest) = fields_at(fields, table)?;
    if !may_follow(rest, table.fields[NUMBERS - 1].tag, table.more) {
        return Err(Refusal::After);
    }
    let g = geometry_from(numbers);
    if !geometry::accepts(g) {
        return Err(Refusal::Geometry);
    }
    Ok(g)
}
