// The public run for Rattle: over a small record that is lent and changed in place, and a lent slice of requests. It has no `requires`, and its
// contract cites the call's definition, so that it settles the reply, the record, every lent list and the counts for every input. All that
// is tested and done is in crate serving.
#![tactic(auto)]

mod served;

ghost use Rattle.std.specs.Prelude.{map, length};
ghost use Rattle.lent.specs.Model.{geometry, state};
ghost use Rattle.lent.specs.Reply.{reply};
ghost use Rattle.scope.specs.Calls.{run_replied, run};
ghost use Rattle.scope.specs.SmallRecord.{record_words};
ghost use Rattle.scope.specs.Boundary.{call_sizes};
ghost use Rattle.scope.specs.Holding.{Answers};
ghost use Rattle.replies.specs.Model.{request};

use crate::served::serve_all;
use lent::reply::Reply;
use lent::{CENSUS_WORDS, FILTER_WORDS, Geometry, RECORD_WORDS, Record};
use replies::Request;
use serving::{begin, finish};

// Serves the requests in their order, once the state has been tested, each with its own answer.
pub fn run(
    rec: &mut Record,
    g: Geometry,
    requests: &[Request],
    chip: &mut [u32],
    spare: &mut [u32],
    directory: &mut [u32],
    cache: &mut [u32],
    words: &mut [u32],
    answers: &mut [u32],
    counts: &mut [u32],
) -> Reply
    ensures { Answers
        (run (geometry g) (call_sizes record_words (length counts.old)) (map request requests.now) words.old answers.old
        (state chip.old spare.old directory.old cache.old rec.old))
        counts.old (run_replied words.new answers.new (reply result))
        (state chip.new spare.new directory.new cache.new rec.new)
        counts.new }
{
    let r = *rec;
    let n = requests.len();
    let words_len = words.len();
    let answers_len = answers.len();
    let counts_len = counts.len();
    let mut census = [0u32; CENSUS_WORDS];
    let mut filter = [0u64; FILTER_WORDS];
    let first = begin(
        r,
        RECORD_WORDS,
        0,
        n,
        g,
        words_len,
        answers_len,
        counts_len,
        chip,
        spare,
        directory,
        cache,
        &mut census,
        &mut filter,
    );
    let last = serve_all(
        first,
        requests,
        g,
        chip,
        spare,
        directory,
        cache,
        &mut census,
        &mut filter,
        words,
        answers,
    );
    let out = finish(last, counts);
    *rec = out.rec;
    out.answer
}
