// Read and write in words, as format and check are in crate wordcalls: load the small record, make the call by value, store the record.
#![tactic(auto)]

ghost use Rattle.lent.specs.Model.{geometry, words};
ghost use Rattle.scope.specs.Requests.{replied};
ghost use Rattle.scope.specs.Boundary.{tf_read, tf_write};
ghost use Rattle.scope.specs.Holding.{Gives};

use lent::Geometry;
use wording::record::{load, store};

// Fills the page buffer where the page was written.
pub fn read(
    g: Geometry,
    page: u32,
    chip: &mut [u32],
    spare: &mut [u32],
    directory: &mut [u32],
    cache: &mut [u32],
    record: &mut [u32],
    buffer: &mut [u32],
    counts: &mut [u32],
) -> u32
    ensures { Gives
        (tf_read (geometry g) page (words chip.old spare.old directory.old
        cache.old «record».old counts.old) buffer.old)
        (replied buffer.new result)
        (words chip.new spare.new directory.new
        cache.new «record».new counts.new) }
{
    let record_words = record.len();
    let rec = load(record);
    let read = calls::read(
        rec,
        record_words,
        g,
        page,
        chip,
        spare,
        directory,
        cache,
        buffer,
        counts,
    );
    store(record, read.rec);
    read.answer.into()
}

// Leaves the page buffer as it is.
pub fn write(
    g: Geometry,
    page: u32,
    chip: &mut [u32],
    spare: &mut [u32],
    directory: &mut [u32],
    cache: &mut [u32],
    record: &mut [u32],
    buffer: &[u32],
    counts: &mut [u32],
) -> u32
    ensures { Gives
        (tf_write (geometry g) page (words chip.old spare.old directory.old
        cache.old «record».old counts.old) buffer.now)
        (replied buffer.now result)
        (words chip.new spare.new directory.new
        cache.new «record».new counts.new) }
{
    let record_words = record.len();
    let rec = load(record);
    let written = calls::write(
        rec,
        record_words,
        g,
        page,
        chip,
        spare,
        directory,
        cache,
        buffer,
        counts,
    );
    store(record, written.rec);
    written.answer.into()
}
