// What may stand behind a version's fields.
ghost use Rattle.std.specs.Prelude.{◌≡◌};
ghost use Rattle.settings.specs.Fields.{whole_fields};
ghost use Rattle.settings.specs.Settings.{Version, last_tag, may_follow};
ghost use Rattle.fields.specs.Model.{Skipped};

use crate::HEAD_BYTES;
use crate::next::pair;

// The bytes behind the field that some begin with, if it is whole and its tag above the last.
fn skipped(bytes: &[u8], last: u8) -> Option<&[u8]>
    ensures { Skipped bytes.now last result }
{
    if bytes.len() < HEAD_BYTES {
        return None;
    }
    if bytes[0] <= last {
        return None;
    }
    // Kept: no bytes.get(size..), with which 64 skipped fields take 1.06 to 1.11 of plain C's time; so 0.98.
    let size = HEAD_BYTES + pair(bytes, 1) as usize;
    if bytes.len() < size {
        return None;
    }
    Some(&bytes[size..])
}

// Whether some bytes are only whole fields of tags above the last.
fn whole_fields(bytes: &[u8], last: u8) -> bool
    ensures { result ≡ whole_fields last 0 bytes.now }
{
    let mut rest = bytes;
    while let Some(behind) = skipped(rest, last) {
        rest = behind;
    }
    rest.is_empty()
}

// Whether some bytes may follow the fields of a version, by the last one's tag and by whether more may follow.
pub fn may_follow(bytes: &[u8], last: u8, more: bool) -> bool
    ensures { (v : Version) → v.more ≡ more → last_tag 0 v.fields ≡ last → result ≡ may_follow v bytes.now }
{
    if !more {
        return bytes.is_empty();
    }
    whole_fields(bytes, last)
}
