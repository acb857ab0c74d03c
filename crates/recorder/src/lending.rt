// The five calls for Rattle as a caller makes them. Each function here has the small record by value, and a run's requests too; it lends them
// to the call, as `&mut Record`, `&Record` and `&[Request]`, and hands back the record that the call left. Each ensures what its call does,
// of the record by value.
// Kept: docs/DECISIONS.md and docs/DESIGN.md name these five as where a caller lends the record and a run's requests.
ghost use Rattle.std.specs.Prelude.{map, length};
ghost use Rattle.lent.specs.Model.{geometry, state};
ghost use Rattle.lent.specs.Reply.{reply};
ghost use Rattle.replies.specs.Model.{request};
ghost use Rattle.scope.specs.Requests.{replied};
ghost use Rattle.scope.specs.Calls.{run_replied, format, check, read, write, run};
ghost use Rattle.scope.specs.SmallRecord.{record_words};
ghost use Rattle.scope.specs.Boundary.{call_sizes};
ghost use Rattle.scope.specs.Holding.{Answers};

use lent::reply::Reply;
use lent::{Geometry, Record};
use replies::{Out, Request};

// The requests of document 01's session.
pub const REQUESTS: usize = 8;

pub fn format(
    mut rec: Record,
    g: Geometry,
    chip: &mut [u32],
    spare: &mut [u32],
    directory: &mut [u32],
    cache: &mut [u32],
    counts: &mut [u32],
) -> Out
    ensures { Answers
        (format (geometry g) (call_sizes record_words (length counts.old))
        (state chip.old spare.old directory.old cache.old rec))
        counts.old (reply result.answer)
        (state chip.new spare.new directory.new cache.new result.rec)
        counts.new }
{
    let answer = face::format(&mut rec, g, chip, spare, directory, cache, counts);
    Out { answer, rec }
}

pub fn check(
    rec: Record,
    g: Geometry,
    chip: &[u32],
    spare: &[u32],
    directory: &[u32],
    cache: &[u32],
    counts: &mut [u32],
) -> Reply
    ensures { Answers
        (check (geometry g) (call_sizes record_words (length counts.old))
        (state chip.now spare.now directory.now cache.now rec))
        counts.old (reply result)
        (state chip.now spare.now directory.now cache.now rec)
        counts.new }
{
    face::check(&rec, g, chip, spare, directory, cache, counts)
}

pub fn read(
    mut rec: Record,
    g: Geometry,
    page: u32,
    chip: &mut [u32],
    spare: &mut [u32],
    directory: &mut [u32],
    cache: &mut [u32],
    buffer: &mut [u32],
    counts: &mut [u32],
) -> Out
    ensures { Answers
        (read (geometry g) (call_sizes record_words (length counts.old)) page buffer.old
        (state chip.old spare.old directory.old cache.old rec))
        counts.old (replied buffer.new (reply result.answer))
        (state chip.new spare.new directory.new cache.new result.rec)
        counts.new }
{
    let answer = facepage::read(
        &mut rec, g, page, chip, spare, directory, cache, buffer, counts,
    );
    Out { answer, rec }
}

pub fn write(
    mut rec: Record,
    g: Geometry,
    page: u32,
    chip: &mut [u32],
    spare: &mut [u32],
    directory: &mut [u32],
    cache: &mut [u32],
    buffer: &[u32],
    counts: &mut [u32],
) -> Out
    ensures { Answers
        (write (geometry g) (call_sizes record_words (length counts.old)) page buffer.now
        (state chip.old spare.old directory.old cache.old rec))
        counts.old (replied buffer.now (reply result.answer))
        (state chip.new spare.new directory.new cache.new result.rec)
        counts.new }
{
    let answer = facepage::write(
        &mut rec, g, page, chip, spare, directory, cache, buffer, counts,
    );
    Out { answer, rec }
}

pub fn run(
    mut rec: Record,
    g: Geometry,
    requests: [Request; REQUESTS],
    chip: &mut [u32],
    spare: &mut [u32],
    directory: &mut [u32],
    cache: &mut [u32],
    words: &mut [u32],
    answers: &mut [u32],
    counts: &mut [u32],
) -> Out
    ensures { Answers
        (run (geometry g) (call_sizes record_words (length counts.old)) (map request requests) words.old answers.old
        (state chip.old spare.old directory.old cache.old rec))
        counts.old (run_replied words.new answers.new (reply result.answer))
        (state chip.new spare.new directory.new cache.new result.rec)
        counts.new }
{
    let answer = facerun::run(
        &mut rec, g, &requests, chip, spare, directory, cache, words, answers, counts,
    );
    Out { answer, rec }
}
