// Tests in number order: the first that applies refuses. What is tested of a slice is its length, which comes by value.
ghost use Rattle.std.specs.Prelude.{◌≡◌, ◌&&◌, IfOk};
ghost use Rattle.lent.specs.Model.{geometry, small};
ghost use Rattle.lent.specs.Reply.{tested};
ghost use Rattle.scope.specs.Boundary.{call_sizes};
ghost use Rattle.scope.specs.Calls.{size_tests, request_tests};
ghost use Rattle.scope.specs.Replies.{first_applying, right_sizes};
ghost use Rattle.geometry.specs.Sizes.{sizes};
ghost use Rattle.replies.specs.Sizes.{beside_run, buffer_right, run_right};
ghost use Rattle.replies.specs.Model.{request, kind};

use crate::counting::COUNTS_WORDS;
use crate::{Kind, Request};
use geometry::{accepts, sizes_right};
use lent::reply::Refusal;
use lent::{Geometry, RECORD_WORDS, Record};

const MOST_REQUESTS: usize = 1024;

// What every call lends beside the state's lists: the words of the small record, and the counts.
pub fn lengths_right(record_words: usize, counts: usize) -> bool
    ensures { result ≡ right_sizes (call_sizes record_words counts) }
{
    if record_words != RECORD_WORDS {
        return false;
    }
    counts == COUNTS_WORDS
}

// Those, and that of the page buffer.
pub fn page_lengths_right(g: Geometry, record_words: usize, buffer: usize, counts: usize) -> bool
    ensures { result ≡ buffer_right (geometry g) buffer (call_sizes record_words counts) }
{
    if buffer != g.w as usize {
        return false;
    }
    lengths_right(record_words, counts)
}

// Those, what a run of n requests lends, and that no request word is odd. There are few enough before any number is multiplied.
pub fn run_lengths_right(
    g: Geometry,
    record_words: usize,
    odd_words: usize,
    n: usize,
    words: usize,
    answers: usize,
    counts: usize,
) -> bool
    ensures { result ≡ run_right (geometry g) n words answers (beside_run odd_words record_words counts) }
{
    if MOST_REQUESTS < n {
        return false;
    }
    if words != n * g.w as usize {
        return false;
    }
    if answers != n {
        return false;
    }
    if odd_words != 0 {
        return false;
    }
    lengths_right(record_words, counts)
}

// GEOMETRY, and LENGTH of the state's slices and of all others together.
pub fn test_sizes(
    g: Geometry,
    others: bool,
    chip: usize,
    spare: usize,
    directory: usize,
    cache: usize,
) -> Result<(), Refusal>
    ensures { tested result ≡ first_applying (size_tests (geometry g) (right_sizes (sizes (geometry g) chip spare directory cache) && others)) }
{
    if !accepts(g) {
        return Err(Refusal::Geometry);
    }
    if !sizes_right(g, chip, spare, directory, cache) {
        return Err(Refusal::Length);
    }
    if !others {
        return Err(Refusal::Length);
    }
    Ok(())
}

// The tests of a request, be it a single call's or a run's, with the small record as it is then: KIND and PAGE. One that passes has a kind.
pub fn test_request(rec: Record, g: Geometry, q: Request) -> Result<Kind, Refusal>
    ensures first { tested result ≡ first_applying (request_tests (geometry g) (small rec) (request q)) }
    ensures kind { IfOk result (λ k. kind k ≡ q.kind) }
{
    let kind = Kind::try_from(q.kind)?;
    if g.l <= q.page {
        return Err(Refusal::Page);
    }
    Ok(kind)
}
