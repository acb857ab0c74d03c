// The fields of a version, read row by row of its table.
ghost use Rattle.std.specs.Prelude.{◌≡◌, []};
ghost use Rattle.settings.specs.Fields.{Numbers, fields_read};
ghost use Rattle.fields.specs.Model.{version, after_fields};

use crate::next::next;
use crate::refusal::Refusal;
use crate::{NUMBERS, Version};

// The numbers of a version's fields, one after the other, and the bytes behind them.
pub fn fields_at(bytes: &[u8], table: Version) -> Result<([u32; NUMBERS], &[u8]), Refusal>
    ensures { fields_read (version table).fields (Numbers [] bytes.now) ≡ after_fields result }
{
    let mut numbers = [0; NUMBERS];
    let mut rest = bytes;
    for (i, f) in table.fields.iter().enumerate() {
        let (number, behind) = next(rest, *f)?;
        numbers[i] = number;
        rest = behind;
    }
    Ok((numbers, rest))
}
