// The index in code: update of a translation page, room in the translation region, what waits settled. Each does its definition.
#![tactic(auto)]

ghost use Rattle.std.specs.Prelude.{◌≡◌};
ghost use Rattle.scope.specs.Cache.{changed_of, unchanged_of};
ghost use Rattle.scope.specs.Steps.{of_page, update, update_all};
ghost use Rattle.lent.specs.Model.{geometry};
ghost use Rattle.copying.specs.Moves.{first_moves};
ghost use Rattle.index.specs.Moves.{WaitsIn};
ghost use Rattle.index.specs.Index.{indexed, IndexDoes, IndexReady};
ghost use Rattle.index.specs.Changed.{EntriesLent};
ghost use Rattle.index.specs.Taking.{LeftAfter};
ghost use Rattle.index.specs.Writing.{PageReady};

use changed::set_changed;
use copying::copies::MOVES_WORDS;
use lent::Work;
use page::{begin, finish};
use steps::Flash;
use touched::{Left, lowest, take_words};

pub mod changed;
pub mod page;
pub mod room;
pub mod touched;

// Translation page t is updated with the changed entries of it, which become unchanged.
pub fn update_changed(
    flash: &mut Flash,
    work: &mut Work,
    directory: &mut [u32],
    cache: &mut [u32],
    t: u32,
)
    requires page_ready { PageReady (geometry flash.old.g) (indexed flash.old directory.old) work.old t }
    requires entries_lent { EntriesLent (geometry flash.old.g) t work.old.rec.used cache.old }
    ensures does_index { IndexDoes (update (geometry flash.old.g) t (changed_of (geometry flash.old.g) t work.old.rec.used cache.old))
        flash.old directory.old work.old tt flash.new directory.new work.new }
    ensures cache_after { cache.new ≡ unchanged_of (geometry flash.old.g) t work.old.rec.used cache.old }
{
    let g = flash.g;
    let used = work.rec.used as usize;
    let q = begin(flash, work, directory, t);
    set_changed(g, q, t, used, cache, flash.chip);
    finish(flash, work, directory, t);
}

// The lowest translation page that something waits for is updated with all of it. Handed back is what is left.
fn update_page(
    flash: &mut Flash,
    work: &mut Work,
    directory: &mut [u32],
    left: Left,
    m: u32,
    waiting: &mut [u32; MOVES_WORDS],
) -> Left
    requires page_ready { PageReady (geometry flash.old.g) (indexed flash.old directory.old) work.old left.lowest }
    requires waits_in { WaitsIn (geometry flash.old.g) left.n waiting.old }
    ensures does_index { IndexDoes (update (geometry flash.old.g) left.lowest
        (of_page (geometry flash.old.g) left.lowest (first_moves left.n waiting.old)))
        flash.old directory.old work.old tt flash.new directory.new work.new }
    ensures left_after { LeftAfter (geometry flash.old.g) left.lowest m left.n waiting.old
        result.n result.lowest waiting.new }
{
    let g = flash.g;
    let t = left.lowest;
    let q = begin(flash, work, directory, t);
    let next = take_words(g, q, t, left.n, m, waiting, flash.chip);
    finish(flash, work, directory, t);
    next
}

// The first n mappings that wait are settled: each translation page that they touch, in rising number, is updated once.
pub fn settle(
    flash: &mut Flash,
    work: &mut Work,
    directory: &mut [u32],
    n: usize,
    waiting: &mut [u32; MOVES_WORDS],
)
    requires index_ready { IndexReady (geometry flash.old.g) (indexed flash.old directory.old) work.old (first_moves n waiting.old) }
    requires waits_in { WaitsIn (geometry flash.old.g) n waiting.old }
    ensures { IndexDoes (update_all (geometry flash.old.g) (first_moves n waiting.old))
        flash.old directory.old work.old tt flash.new directory.new work.new }
{
    let m = directory.len() as u32;
    let t = lowest(n, waiting, m);
    let mut left = Left { n, lowest: t };
    while left.lowest < m {
        left = update_page(flash, work, directory, left, m, waiting);
    }
}
