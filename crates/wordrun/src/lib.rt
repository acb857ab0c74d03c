// A run in words. An odd number of request words is refused with the other lengths, before any request is taken from them. The small record is
// loaded from its words before the run, and stored after it.
#![tactic(auto)]

ghost use Rattle.std.specs.Prelude.{◌/◌, ◌%◌, length};
ghost use Rattle.lent.specs.Model.{geometry, state, words as lent-words};
ghost use Rattle.lent.specs.Reply.{reply};
ghost use Rattle.scope.specs.Calls.{run_replied, run};
ghost use Rattle.scope.specs.Boundary.{requests_of, tf_run};
ghost use Rattle.scope.specs.Holding.{Answers, Gives};
ghost use Rattle.replies.specs.Sizes.{beside_run};
ghost use Rattle.running.specs.Ran.{Tested, Ran};

use lent::{CENSUS_WORDS, FILTER_WORDS, Geometry, Record};
use replies::Out;
use running::Running;
use serving::{begin, finish, serve};
use wording::record::{load, store};
use wording::requests::{REQUEST_WORDS, request_at};

// The requests one after the other, where the run was admitted.
fn serve_words(
    first: Running,
    requests: &[u32],
    g: Geometry,
    chip: &mut [u32],
    spare: &mut [u32],
    directory: &mut [u32],
    cache: &mut [u32],
    census: &mut [u32; CENSUS_WORDS],
    filter: &mut [u64; FILTER_WORDS],
    words: &mut [u32],
    answers: &mut [u32],
) -> Running
    requires { Tested (geometry g) (length requests.now / 2) first
        (state chip.old spare.old directory.old cache.old first.rec) words.old answers.old census.old filter.old }
    ensures { Ran (geometry g) (requests_of requests.now) (length requests.now / 2) first
        (state chip.old spare.old directory.old cache.old first.rec)
        words.old answers.old census.old filter.old result
        (state chip.new spare.new directory.new cache.new result.rec)
        words.new answers.new census.new filter.new }
{
    let n = requests.len() / REQUEST_WORDS;
    let mut cur = first;
    for i in 0..n {
        let q = request_at(requests, i);
        cur = serve(
            cur, i, q, g, chip, spare, directory, cache, census, filter, words, answers,
        );
    }
    cur
}

// The run over the loaded record. The notes last as long as it does.
fn run_words(
    rec: Record,
    record_words: usize,
    g: Geometry,
    requests: &[u32],
    chip: &mut [u32],
    spare: &mut [u32],
    directory: &mut [u32],
    cache: &mut [u32],
    words: &mut [u32],
    answers: &mut [u32],
    counts: &mut [u32],
) -> Out
    ensures { Answers
        (run (geometry g) (beside_run (length requests.now % 2) record_words (length counts.old))
        (requests_of requests.now) words.old answers.old
        (state chip.old spare.old directory.old cache.old rec))
        counts.old (run_replied words.new answers.new (reply result.answer))
        (state chip.new spare.new directory.new cache.new result.rec)
        counts.new }
{
    let odd_words = requests.len() % REQUEST_WORDS;
    let n = requests.len() / REQUEST_WORDS;
    let mut census = [0u32; CENSUS_WORDS];
    let mut filter = [0u64; FILTER_WORDS];
    let first = begin(
        rec,
        record_words,
        odd_words,
        n,
        g,
        words.len(),
        answers.len(),
        counts.len(),
        chip,
        spare,
        directory,
        cache,
        &mut census,
        &mut filter,
    );
    let last = serve_words(
        first,
        requests,
        g,
        chip,
        spare,
        directory,
        cache,
        &mut census,
        &mut filter,
        words,
        answers,
    );
    finish(last, counts)
}

// The whole, between the record loaded and the record stored.
pub fn run(
    g: Geometry,
    chip: &mut [u32],
    spare: &mut [u32],
    directory: &mut [u32],
    cache: &mut [u32],
    record: &mut [u32],
    requests: &[u32],
    words: &mut [u32],
    answers: &mut [u32],
    counts: &mut [u32],
) -> u32
    ensures { Gives
        (tf_run (geometry g) (lent-words chip.old spare.old directory.old
        cache.old «record».old counts.old)
        requests.now words.old answers.old)
        (run_replied words.new answers.new result)
        (lent-words chip.new spare.new directory.new
        cache.new «record».new counts.new) }
{
    let record_words = record.len();
    let rec = load(record);
    let ran = run_words(
        rec,
        record_words,
        g,
        requests,
        chip,
        spare,
        directory,
        cache,
        words,
        answers,
        counts,
    );
    store(record, ran.rec);
    ran.answer.into()
}
