// Format and check in words: the small record is loaded from its words, the call is made by value and the record is stored. Each contract
// gives, for every input, the reply and every lent word by the call's definition in words, which are those of the calls for C.
#![tactic(auto)]

ghost use Rattle.lent.specs.Model.{geometry, words};
ghost use Rattle.scope.specs.Boundary.{tf_format, tf_check};
ghost use Rattle.scope.specs.Holding.{Gives};

use lent::Geometry;
use wording::record::{load, store};

// The old state isn't tested.
pub fn format(
    g: Geometry,
    chip: &mut [u32],
    spare: &mut [u32],
    directory: &mut [u32],
    cache: &mut [u32],
    record: &mut [u32],
    counts: &mut [u32],
) -> u32
    ensures { Gives
        (tf_format (geometry g) (words chip.old spare.old directory.old
        cache.old «record».old counts.old))
        result
        (words chip.new spare.new directory.new
        cache.new «record».new counts.new) }
{
    let record_words = record.len();
    let rec = load(record);
    let formatted = calls::format(rec, record_words, g, chip, spare, directory, cache, counts);
    store(record, formatted.rec);
    formatted.answer.into()
}

// Changes nothing but the counts, so that the record isn't stored.
pub fn check(
    g: Geometry,
    chip: &[u32],
    spare: &[u32],
    directory: &[u32],
    cache: &[u32],
    record: &[u32],
    counts: &mut [u32],
) -> u32
    ensures { Gives
        (tf_check (geometry g) (words chip.now spare.now directory.now
        cache.now «record».now counts.old))
        result
        (words chip.now spare.now directory.now
        cache.now «record».now counts.new) }
{
    let record_words = record.len();
    let rec = load(record);
    calls::check(rec, record_words, g, chip, spare, directory, cache, counts).into()
}
