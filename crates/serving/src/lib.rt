// A run in three parts, so that whoever has the requests can go through them: `begin` tests once, `serve` serves one request, `finish`
// hands over the counts. What the parts hand on says whether the run was admitted; where it wasn't, nothing is done. Whoever goes through
// the requests also owns the notes, which `begin` takes and every request keeps, so that a run searches the chip once.
#![tactic(auto)]

ghost use Rattle.std.specs.Prelude.{◌≡◌, length};
ghost use Rattle.scope.specs.Requests.{replied};
ghost use Rattle.lent.specs.Model.{geometry, state};
ghost use Rattle.lent.specs.Reply.{reply, tested};
ghost use Rattle.scope.specs.Calls.{serve};
ghost use Rattle.scope.specs.Replies.{DONE};
ghost use Rattle.admission.specs.Room.{most_cost};
ghost use Rattle.running.specs.Serve.{Serving, Served};
ghost use Rattle.lent.specs.Ready.{ReadyFor};
ghost use Rattle.requests.specs.Node.{under, held, NodeDoes};
ghost use Rattle.replies.specs.Model.{request, kind};
ghost use Rattle.replies.specs.Sizes.{beside_run};
ghost use Rattle.running.specs.Ends.{Begun, Finished};

use admission::test_state;
use lent::reply::Reply;
use lent::{CENSUS_WORDS, FILTER_WORDS, Geometry, Record, Work};
use replies::counting::{NO_COUNTS, put_counts};
use replies::tests::{run_lengths_right, test_request};
use replies::{Kind, Out, Request};
use requests::node::Node;
use running::Running;
use steps::Flash;

// The tests of a run of n requests, with the lengths of all that it lends. `record_words` is as in crate calls; `odd_words` are the request words
// that C lends beyond whole requests.
pub fn begin(
    rec: Record,
    record_words: usize,
    odd_words: usize,
    n: usize,
    g: Geometry,
    words: usize,
    answers: usize,
    counts: usize,
    chip: &mut [u32],
    spare: &mut [u32],
    directory: &mut [u32],
    cache: &mut [u32],
    census: &mut [u32; CENSUS_WORDS],
    filter: &mut [u64; FILTER_WORDS],
) -> Running
    ensures { Begun (geometry g) (beside_run odd_words record_words counts) n words answers
        (state chip.old spare.old directory.old cache.old rec) result
        (state chip.new spare.new directory.new cache.new result.rec)
        census.new filter.new }
{
    let right = run_lengths_right(g, record_words, odd_words, n, words, answers, counts);
    let answer = test_state(rec, right, g, chip, spare, directory, cache, census, filter);
    Running {
        answer,
        counts: NO_COUNTS,
        rec,
    }
}

// The steps of a request that has passed its tests.
fn serve_request(node: &mut Node, asked: Kind, q: Request, buffer: &mut [u32]) -> Reply
    requires asked { kind asked ≡ q.kind }
    requires ready_for { ReadyFor q.page (under node.old) (held node.old) most_cost node.old.work.now.counts
        × (length buffer.old ≡ node.old.flash.now.g.w) }
    ensures does { NodeDoes (serve (under node.old) (request q) buffer.old) node.old (replied buffer.new (reply result)) node.new }
    ensures work_kept { node.new.work.ghost_name ≡ node.old.work.ghost_name }
    ensures flash_kept { node.new.flash.ghost_name ≡ node.old.flash.ghost_name }
    ensures chip_kept { node.new.flash.now.chip.ghost_name ≡ node.old.flash.now.chip.ghost_name }
    ensures spare_kept { node.new.flash.now.spare.ghost_name ≡ node.old.flash.now.spare.ghost_name }
    ensures census_kept { node.new.flash.now.census.ghost_name ≡ node.old.flash.now.census.ghost_name }
    ensures directory_kept { node.new.directory.ghost_name ≡ node.old.directory.ghost_name }
    ensures cache_kept { node.new.cache.ghost_name ≡ node.old.cache.ghost_name }
    ensures filter_kept { node.new.filter.ghost_name ≡ node.old.filter.ghost_name }
{
    match asked {
        Kind::Read => node.read(q.page, buffer),
        Kind::Write => node.write(q.page, buffer),
    }
}

// Request i: its tests, its steps on its own words, and its answer stored.
pub fn serve(
    cur: Running,
    i: usize,
    q: Request,
    g: Geometry,
    chip: &mut [u32],
    spare: &mut [u32],
    directory: &mut [u32],
    cache: &mut [u32],
    census: &mut [u32; CENSUS_WORDS],
    filter: &mut [u64; FILTER_WORDS],
    words: &mut [u32],
    answers: &mut [u32],
) -> Running
    requires { tested cur.answer ≡ DONE → Serving (geometry g) i cur
        (state chip.old spare.old directory.old cache.old cur.rec) words.old answers.old census.old filter.old }
    ensures { Served (geometry g) i (request q) cur
        (state chip.old spare.old directory.old cache.old cur.rec)
        words.old answers.old census.old filter.old result
        (state chip.new spare.new directory.new cache.new result.rec)
        words.new answers.new census.new filter.new }
{
    if cur.answer.is_err() {
        return cur;
    }
    let asked = match test_request(cur.rec, g, q) {
        Ok(asked) => asked,
        Err(refusal) => {
            answers[i] = refusal.into();
            return cur;
        }
    };
    let w = g.w as usize;
    let from = i * w;
    let to = from + w;
    let mut work = Work {
        rec: cur.rec,
        counts: cur.counts,
    };
    let mut flash = Flash {
        g,
        chip,
        spare,
        census,
    };
    let mut node = Node {
        work: &mut work,
        flash: &mut flash,
        directory,
        cache,
        filter,
    };
    let done = serve_request(&mut node, asked, q, &mut words[from..to]);
    answers[i] = done.into();
    Running {
        answer: cur.answer,
        counts: node.work.counts,
        rec: node.work.rec,
    }
}

// The end of a run.
pub fn finish(cur: Running, counts: &mut [u32]) -> Out
    ensures { Finished cur counts.old (reply result.answer) result.rec counts.new }
{
    put_counts(counts, cur.counts);
    Out {
        answer: cur.answer.into(),
        rec: cur.rec,
    }
}
