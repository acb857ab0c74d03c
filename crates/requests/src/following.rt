// What follows the moves of a collection in the data region: the entry of a cached owner takes the new place, and the others wait. These
// are gathered at the front of the array of moves, in the words of moves that have been followed.
ghost use Rattle.std.specs.Prelude.{◌≡◌, [], ◌∷◌, ◌++◌, ◌≤◌, ◌<◌, length};
ghost use Rattle.scope.specs.Geometry.{most_pages_in_block, Accepted};
ghost use Rattle.scope.specs.Steps.{cache_or_wait, cache_follows};
ghost use Rattle.region.specs.Apart.{follow_each};
ghost use Rattle.lent.specs.Model.{geometry};
ghost use Rattle.lent.specs.Shapes.{DoesCache};
ghost use Rattle.entries.specs.Entries.{CacheLent, Different};
ghost use Rattle.copying.specs.Moves.{moves_words, first_moves};
ghost use Rattle.index.specs.Moves.{WaitsIn, MovesAhead};
ghost use Rattle.requests.specs.Following.{DoesWaiting};
ghost use Rattle.requests.specs.Node.{under, OnlyCache};

use crate::node::Node;
use copying::copies::{MOVE_WORDS, MOVES_WORDS};
use entries::set_entry;
use index::touched::put_behind;
use lent::Geometry;

// One more waits, behind n others, with its translation page.
fn wait(
    g: Geometry,
    n: usize,
    logical: u32,
    physical: u32,
    waiting: &mut [u32; MOVES_WORDS],
) -> usize
    requires accepted { Accepted (geometry g) × (n < most_pages_in_block) }
    requires waits_in { WaitsIn (geometry g) n waiting.old }
    ensures waiting_after { first_moves result waiting.new
        ≡ first_moves n waiting.old ++ record { logical = logical; physical = physical } ∷ [] }
    ensures waits_in_after { WaitsIn (geometry g) result waiting.new }
    ensures moves_ahead { MovesAhead n result waiting.old waiting.new }
{
    put_behind(n, logical, physical, logical / g.w, waiting);
    n + 1
}

impl Node<'_, '_, '_, '_, '_, '_> {
    // Logical page l has moved to a page: its entry takes the new place, or it waits behind n others. Handed back is how many wait.
    fn follow(&mut self, n: usize, l: u32, page: u32, waiting: &mut [u32; MOVES_WORDS]) -> usize
        requires accepted { Accepted (under self.old) × CacheLent (under self.old) self.old.cache.now self.old.work.now.rec.used × (n < most_pages_in_block) }
        requires different { Different self.old.cache.now self.old.work.now.rec.used }
        requires waits_in { WaitsIn (under self.old) n waiting.old }
        ensures does_waiting { DoesWaiting (cache_or_wait (under self.old) l page) self.old.cache.now self.old.work.now
            (first_moves n waiting.old) (first_moves result waiting.new) self.new.cache.now }
        ensures only_cache { OnlyCache self.old self.new }
        ensures different_after { Different self.new.cache.now self.old.work.now.rec.used }
        ensures waits_in_after { WaitsIn (under self.old) result waiting.new }
        ensures moves_ahead { MovesAhead n result waiting.old waiting.new }
    {
        let i = self.rank_from_last(l);
        if i < self.flash.g.c as usize {
            set_entry(i, page, self.cache);
            return n;
        }
        wait(self.flash.g, n, l, page, waiting)
    }

    // The first n moves are followed, in their order. Handed back is how many wait.
    pub(crate) fn follow_moves(&mut self, n: usize, moves: &mut [u32; MOVES_WORDS]) -> usize
        requires accepted { Accepted (under self.old) × CacheLent (under self.old) self.old.cache.now self.old.work.now.rec.used × (n ≤ most_pages_in_block) }
        requires different { Different self.old.cache.now self.old.work.now.rec.used }
        requires moves_len { length moves.old ≡ moves_words }
        ensures does_cache { DoesCache (follow_each (cache_follows (under self.old)) (first_moves n moves.old)) self.old.cache.now self.old.work.now
            (first_moves result moves.new) self.new.cache.now self.old.work.now }
        ensures only_cache { OnlyCache self.old self.new }
        ensures waits_in { WaitsIn (under self.old) result moves.new }
    {
        let mut waiting = 0;
        for i in 0..n {
            let l = moves[i * MOVE_WORDS];
            let page = moves[i * MOVE_WORDS + 1];
            waiting = self.follow(waiting, l, page, moves);
        }
        waiting
    }
}
