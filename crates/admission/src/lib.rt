// The tests of a call that see its state: DAMAGED behind those of crate replies, and a single request's own behind it. On the way the notes
// are taken that the steps read instead of searching, the census of the blocks and the filter of the cached pages: a state found sound has
// both. They are no part of the state: a call keeps them on its stack, as long as it lasts.
#![tactic(auto)]

ghost use Rattle.std.specs.Prelude.{◌≤◌, length, OnOk};
ghost use Rattle.lent.specs.Model.{geometry, state};
ghost use Rattle.lent.specs.Reply.{tested};
ghost use Rattle.lent.specs.Notes.{census_words};
ghost use Rattle.scope.specs.Boundary.{call_sizes};
ghost use Rattle.replies.specs.Model.{request};
ghost use Rattle.admission.specs.Tested.{StateTested};
ghost use Rattle.words.specs.Noted.{Noted};
ghost use Rattle.admission.specs.SingleTested.{SingleTested};

use lent::reply::Refusal;
use lent::{CENSUS_WORDS, FILTER_WORDS, Geometry, Record};
use replies::Request;
use replies::tests::{page_lengths_right, test_request, test_sizes};
use soundness::sound::is_sound;

// These, and DAMAGED. The census has a place for each block of any chip.
pub fn test_state(
    rec: Record,
    others: bool,
    g: Geometry,
    chip: &[u32],
    spare: &[u32],
    directory: &[u32],
    cache: &[u32],
    census: &mut [u32],
    filter: &mut [u64; FILTER_WORDS],
) -> Result<(), Refusal>
    requires { census_words ≤ length census.old }
    ensures state_tested { StateTested (geometry g)
        (state chip.now spare.now directory.now cache.now rec) others (tested result) }
    ensures noted { OnOk result (Noted (geometry g)
        (state chip.now spare.now directory.now cache.now rec)
        census.new filter.new) }
{
    test_sizes(
        g,
        others,
        chip.len(),
        spare.len(),
        directory.len(),
        cache.len(),
    )?;
    if !is_sound(g, chip, spare, directory, cache, rec, census, filter) {
        return Err(Refusal::Damaged);
    }
    Ok(())
}

// The same, for a check, which needs no notes. Their text stands twice so that `is_sound` is called from two places, and the compiler leaves
// it a function of its own: put into another, its loops lack registers and take a fifth longer.
pub fn test_for_check(
    rec: Record,
    others: bool,
    g: Geometry,
    chip: &[u32],
    spare: &[u32],
    directory: &[u32],
    cache: &[u32],
) -> Result<(), Refusal>
    ensures { StateTested (geometry g)
        (state chip.now spare.now directory.now cache.now rec) others (tested result) }
{
    let mut census = [0u32; CENSUS_WORDS];
    let mut filter = [0u64; FILTER_WORDS];
    test_sizes(
        g,
        others,
        chip.len(),
        spare.len(),
        directory.len(),
        cache.len(),
    )?;
    let sound = is_sound(
        g,
        chip,
        spare,
        directory,
        cache,
        rec,
        &mut census,
        &mut filter,
    );
    if sound { Ok(()) } else { Err(Refusal::Damaged) }
}

// All tests of a single request: the state's, with the lengths of what else it lends, and then its own.
pub fn test_single(
    rec: Record,
    record_words: usize,
    g: Geometry,
    q: Request,
    buffer: usize,
    counts: usize,
    chip: &[u32],
    spare: &[u32],
    directory: &[u32],
    cache: &[u32],
    census: &mut [u32],
    filter: &mut [u64; FILTER_WORDS],
) -> Result<(), Refusal>
    requires { census_words ≤ length census.old }
    ensures { SingleTested (geometry g) (call_sizes record_words counts) (request q) buffer
        (state chip.now spare.now directory.now cache.now rec) (tested result)
        census.new filter.new }
{
    let right = page_lengths_right(g, record_words, buffer, counts);
    test_state(rec, right, g, chip, spare, directory, cache, census, filter)?;
    test_request(rec, g, q)?;
    Ok(())
}
