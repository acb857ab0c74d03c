// Format, check, read and write by value: 01's tests, then the steps, for every input. No call has a `requires`, and each contract settles the reply, the
// record, every lent list and the counts by citing the call's definition. `record_words` is how many words the small record has where the
// caller lends it: RECORD_WORDS for Rattle, and any number for C.
#![tactic(auto)]

ghost use Rattle.std.specs.Prelude.{length};
ghost use Rattle.lent.specs.Model.{geometry, state};
ghost use Rattle.lent.specs.Reply.{reply};
ghost use Rattle.scope.specs.Calls.{format, check, read, write};
ghost use Rattle.scope.specs.Requests.{replied};
ghost use Rattle.scope.specs.Boundary.{call_sizes};
ghost use Rattle.scope.specs.Holding.{Answers};

use admission::{test_for_check, test_single};
use lent::reply::Reply;
use lent::{CENSUS_WORDS, FILTER_WORDS, Geometry, Record, Work};
use replies::counting::{NO_COUNTS, put_counts, put_none};
use replies::tests::{lengths_right, test_sizes};
use replies::{Kind, Out, Request};
use requests::node::Node;
use steps::Flash;

// The old state isn't tested.
pub fn format(
    rec: Record,
    record_words: usize,
    g: Geometry,
    chip: &mut [u32],
    spare: &mut [u32],
    directory: &mut [u32],
    cache: &mut [u32],
    counts: &mut [u32],
) -> Out
    ensures { Answers
        (format (geometry g) (call_sizes record_words (length counts.old))
        (state chip.old spare.old directory.old cache.old rec))
        counts.old (reply result.answer)
        (state chip.new spare.new directory.new cache.new result.rec)
        counts.new }
{
    let right = lengths_right(record_words, counts.len());
    let sizes = test_sizes(
        g,
        right,
        chip.len(),
        spare.len(),
        directory.len(),
        cache.len(),
    );
    if let Err(refusal) = sizes {
        put_none(counts);
        return Out {
            answer: Reply::Refused(refusal),
            rec,
        };
    }
    let fresh = formatting::format(g, chip, spare, directory, cache);
    put_counts(counts, fresh.counts);
    Out {
        answer: Reply::Done,
        rec: fresh.rec,
    }
}

// Changes nothing but the counts.
pub fn check(
    rec: Record,
    record_words: usize,
    g: Geometry,
    chip: &[u32],
    spare: &[u32],
    directory: &[u32],
    cache: &[u32],
    counts: &mut [u32],
) -> Reply
    ensures { Answers
        (check (geometry g) (call_sizes record_words (length counts.old))
        (state chip.now spare.now directory.now cache.now rec))
        counts.old (reply result)
        (state chip.now spare.now directory.now cache.now rec)
        counts.new }
{
    let right = lengths_right(record_words, counts.len());
    let tests = test_for_check(rec, right, g, chip, spare, directory, cache);
    put_none(counts);
    tests.into()
}

// Fills the page buffer where the page was written.
// Kept: `read` and `write` stand apart, as a closure for the steps would have the work, the lent lists and both notes in its `pre` and `post`.
pub fn read(
    rec: Record,
    record_words: usize,
    g: Geometry,
    page: u32,
    chip: &mut [u32],
    spare: &mut [u32],
    directory: &mut [u32],
    cache: &mut [u32],
    buffer: &mut [u32],
    counts: &mut [u32],
) -> Out
    ensures { Answers
        (read (geometry g) (call_sizes record_words (length counts.old)) page buffer.old
        (state chip.old spare.old directory.old cache.old rec))
        counts.old (replied buffer.new (reply result.answer))
        (state chip.new spare.new directory.new cache.new result.rec)
        counts.new }
{
    let mut census = [0u32; CENSUS_WORDS];
    let mut filter = [0u64; FILTER_WORDS];
    let tests = test_single(
        rec,
        record_words,
        g,
        Request {
            kind: Kind::Read.into(),
            page,
        },
        buffer.len(),
        counts.len(),
        chip,
        spare,
        directory,
        cache,
        &mut census,
        &mut filter,
    );
    if let Err(refusal) = tests {
        put_none(counts);
        return Out {
            answer: Reply::Refused(refusal),
            rec,
        };
    }
    let mut work = Work {
        rec,
        counts: NO_COUNTS,
    };
    let mut flash = Flash {
        g,
        chip,
        spare,
        census: &mut census,
    };
    let mut node = Node {
        work: &mut work,
        flash: &mut flash,
        directory,
        cache,
        filter: &mut filter,
    };
    let answer = node.read(page, buffer);
    let done = *node.work;
    put_counts(counts, done.counts);
    Out {
        answer,
        rec: done.rec,
    }
}

// Leaves the page buffer as it is.
pub fn write(
    rec: Record,
    record_words: usize,
    g: Geometry,
    page: u32,
    chip: &mut [u32],
    spare: &mut [u32],
    directory: &mut [u32],
    cache: &mut [u32],
    buffer: &[u32],
    counts: &mut [u32],
) -> Out
    ensures { Answers
        (write (geometry g) (call_sizes record_words (length counts.old)) page buffer.now
        (state chip.old spare.old directory.old cache.old rec))
        counts.old (replied buffer.now (reply result.answer))
        (state chip.new spare.new directory.new cache.new result.rec)
        counts.new }
{
    let mut census = [0u32; CENSUS_WORDS];
    let mut filter = [0u64; FILTER_WORDS];
    let tests = test_single(
        rec,
        record_words,
        g,
        Request {
            kind: Kind::Write.into(),
            page,
        },
        buffer.len(),
        counts.len(),
        chip,
        spare,
        directory,
        cache,
        &mut census,
        &mut filter,
    );
    if let Err(refusal) = tests {
        put_none(counts);
        return Out {
            answer: Reply::Refused(refusal),
            rec,
        };
    }
    let mut work = Work {
        rec,
        counts: NO_COUNTS,
    };
    let mut flash = Flash {
        g,
        chip,
        spare,
        census: &mut census,
    };
    let mut node = Node {
        work: &mut work,
        flash: &mut flash,
        directory,
        cache,
        filter: &mut filter,
    };
    let answer = node.write(page, buffer);
    let written = *node.work;
    put_counts(counts, written.counts);
    Out {
        answer,
        rec: written.rec,
    }
}
