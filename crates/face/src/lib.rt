// The public face of the library for Rattle, over a small record that is lent and changed in place: format and check stand here, read and write
// in crate facepage, the run in crate facerun. No call has a `requires`, and each contract cites the call's definition, so that it settles the
// reply, the record, every lent list and the counts for every input. A body only copies the record, hands it on by value and stores what
// comes back: all that is tested and done is in crate calls.
#![tactic(auto)]

ghost use Rattle.std.specs.Prelude.{length};
ghost use Rattle.lent.specs.Model.{geometry, state};
ghost use Rattle.lent.specs.Reply.{reply};
ghost use Rattle.scope.specs.Calls.{format, check};
ghost use Rattle.scope.specs.SmallRecord.{record_words};
ghost use Rattle.scope.specs.Boundary.{call_sizes};
ghost use Rattle.scope.specs.Holding.{Answers};

use lent::reply::Reply;
use lent::{Geometry, RECORD_WORDS, Record};

// The old state isn't tested.
pub fn format(
    rec: &mut Record,
    g: Geometry,
    chip: &mut [u32],
    spare: &mut [u32],
    directory: &mut [u32],
    cache: &mut [u32],
    counts: &mut [u32],
) -> Reply
    ensures { Answers
        (format (geometry g) (call_sizes record_words (length counts.old))
        (state chip.old spare.old directory.old cache.old rec.old))
        counts.old (reply result)
        (state chip.new spare.new directory.new cache.new rec.new)
        counts.new }
{
    let r = *rec;
    let out = calls::format(r, RECORD_WORDS, g, chip, spare, directory, cache, counts);
    *rec = out.rec;
    out.answer
}

// Changes nothing but the counts, so that the record is only looked at.
pub fn check(
    rec: &Record,
    g: Geometry,
    chip: &[u32],
    spare: &[u32],
    directory: &[u32],
    cache: &[u32],
    counts: &mut [u32],
) -> Reply
    ensures { Answers
        (check (geometry g) (call_sizes record_words (length counts.old))
        (state chip.now spare.now directory.now cache.now rec.now))
        counts.old (reply result)
        (state chip.now spare.now directory.now cache.now rec.now)
        counts.new }
{
    let r = *rec;
    calls::check(r, RECORD_WORDS, g, chip, spare, directory, cache, counts)
}
