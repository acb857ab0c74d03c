// Read and write for Rattle, over a small record that is lent and changed in place, and a page buffer. They have no `requires`, and the contracts
// cite the calls' definitions, as in crate face; all that is tested and done is in crate calls.
#![tactic(auto)]

ghost use Rattle.std.specs.Prelude.{length};
ghost use Rattle.lent.specs.Model.{geometry, state};
ghost use Rattle.lent.specs.Reply.{reply};
ghost use Rattle.scope.specs.Requests.{replied};
ghost use Rattle.scope.specs.Calls.{read, write};
ghost use Rattle.scope.specs.SmallRecord.{record_words};
ghost use Rattle.scope.specs.Boundary.{call_sizes};
ghost use Rattle.scope.specs.Holding.{Answers};

use lent::reply::Reply;
use lent::{Geometry, RECORD_WORDS, Record};

// Fills the page buffer where the page was written.
pub fn read(
    rec: &mut Record,
    g: Geometry,
    page: u32,
    chip: &mut [u32],
    spare: &mut [u32],
    directory: &mut [u32],
    cache: &mut [u32],
    buffer: &mut [u32],
    counts: &mut [u32],
) -> Reply
    ensures { Answers
        (read (geometry g) (call_sizes record_words (length counts.old)) page buffer.old
        (state chip.old spare.old directory.old cache.old rec.old))
        counts.old (replied buffer.new (reply result))
        (state chip.new spare.new directory.new cache.new rec.new)
        counts.new }
{
    let r = *rec;
    let out = calls::read(
        r,
        RECORD_WORDS,
        g,
        page,
        chip,
        spare,
        directory,
        cache,
        buffer,
        counts,
    );
    *rec = out.rec;
    out.answer
}

// Leaves the page buffer as it is.
pub fn write(
    rec: &mut Record,
    g: Geometry,
    page: u32,
    chip: &mut [u32],
    spare: &mut [u32],
    directory: &mut [u32],
    cache: &mut [u32],
    buffer: &[u32],
    counts: &mut [u32],
) -> Reply
    ensures { Answers
        (write (geometry g) (call_sizes record_words (length counts.old)) page buffer.now
        (state chip.old spare.old directory.old cache.old rec.old))
        counts.old (replied buffer.now (reply result))
        (state chip.new spare.new directory.new cache.new rec.new)
        counts.new }
{
    let r = *rec;
    let out = calls::write(
        r,
        RECORD_WORDS,
        g,
        page,
        chip,
        spare,
        directory,
        cache,
        buffer,
        counts,
    );
    *rec = out.rec;
    out.answer
}
