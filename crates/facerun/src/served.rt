// The requests of a run, one after the other. Nothing is tested here: `begin` has the number of the requests and tests before the first
// is served, and each request is the callee's to test, so that the walk is there for any slice, an empty one too.
ghost use Rattle.std.specs.Prelude.{map, length};
ghost use Rattle.lent.specs.Model.{geometry, state};
ghost use Rattle.replies.specs.Model.{request};
ghost use Rattle.running.specs.Ran.{Tested, Ran};

use lent::{CENSUS_WORDS, FILTER_WORDS, Geometry};
use replies::Request;
use running::Running;
use serving::serve;

pub fn serve_all(
    first: Running,
    requests: &[Request],
    g: Geometry,
    chip: &mut [u32],
    spare: &mut [u32],
    directory: &mut [u32],
    cache: &mut [u32],
    census: &mut [u32; CENSUS_WORDS],
    filter: &mut [u64; FILTER_WORDS],
    words: &mut [u32],
    answers: &mut [u32],
) -> Running
    requires { Tested (geometry g) (length requests.now) first
        (state chip.old spare.old directory.old cache.old first.rec) words.old answers.old census.old filter.old }
    ensures { Ran (geometry g) (map request requests.now) (length requests.now) first
        (state chip.old spare.old directory.old cache.old first.rec)
        words.old answers.old census.old filter.old result
        (state chip.new spare.new directory.new cache.new result.rec)
        words.new answers.new census.new filter.new }
{
    let mut cur = first;
    for i in 0..requests.len() {
        cur = serve(
            cur,
            i,
            requests[i],
            g,
            chip,
            spare,
            directory,
            cache,
            census,
            filter,
            words,
            answers,
        );
    }
    cur
}
