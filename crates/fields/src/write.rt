// The writer: field by field, each behind what is written already.
ghost use Rattle.std.specs.Prelude.{◌≡◌, ◌+◌, ◌≤◌, length};
ghost use Rattle.lent.specs.Model.{geometry};
ghost use Rattle.settings.specs.Fields.{bytes_of, field_written, field_bytes};
ghost use Rattle.settings.specs.Settings.{answered, version_1, record_bytes, written, write};
ghost use Rattle.fields.specs.Model.{field, version, Put, writing};

use crate::numbers::numbers_of;
use crate::refusal::Refusal;
use crate::{Field, HEAD_BYTES, VERSION_FIELD, Version, version_1};
use lent::Geometry;

// The bytes of version 1.
pub const RECORD_BYTES: usize = 36;

// A number of n bytes, the higher first: the last n of its four.
fn put_number(place: &mut [u8], at: usize, n: usize, x: u32)
    requires four_at_most { n ≤ 4 }
    requires room { at + n ≤ length place.old }
    ensures { Put place.old place.new at (bytes_of n x) }
{
    place[at..at + n].copy_from_slice(&x.to_be_bytes()[4 - n..]);
}

// A field: its tag, its length, its number.
fn put_field(place: &mut [u8], at: usize, f: Field, x: u32)
    requires { at + field_bytes (field f) ≤ length place.old }
    ensures { Put place.old place.new at (field_written (field f) x) }
{
    let size = f.size.bytes();
    place[at] = f.tag;
    put_number(place, at + 1, HEAD_BYTES - 1, size as u32);
    put_number(place, at + HEAD_BYTES, size, x);
}

// The record of a geometry, by its version's table.
fn put_record(place: &mut [u8], table: Version, g: Geometry)
    requires { length place.old ≡ record_bytes (version table) }
    ensures { place.new ≡ written (version table) (geometry g) }
{
    put_field(place, 0, VERSION_FIELD, table.number as u32);
    let mut at = HEAD_BYTES + VERSION_FIELD.size.bytes();
    let numbers = numbers_of(g);
    for (i, f) in table.fields.iter().enumerate() {
        put_field(place, at, *f, numbers[i]);
        at += HEAD_BYTES + f.size.bytes();
    }
}

// The record of a geometry, as version 1.
pub fn write(g: Geometry, place: &mut [u8]) -> Result<(), Refusal>
    ensures { answered (writing result) place.new ≡ write version_1 (geometry g) place.old }
{
    if !geometry::accepts(g) {
        return Err(Refusal::Geometry);
    }
    if place.len() != RECORD_BYTES {
        return Err(Refusal::Place);
    }
    put_record(place, version_1(), g);
    Ok(())
}
