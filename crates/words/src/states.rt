// How many of a block's pages have a state.
ghost use Rattle.std.specs.Prelude.{◌≡◌, cond, ◌+◌, ◌*◌, ◌≤◌, eqb, length};
ghost use Rattle.scope.specs.Counting.{count};
ghost use Rattle.scope.specs.Lent.{spare_words, state_of};

use crate::spare::state_at;

// What a word adds to a count of those that are b. A loop that adds it up has no branch, and reads wide words; `filter` and `count` over
// the same words take twice as long.
pub fn bit(a: u32, b: u32) -> usize
    ensures { result ≡ cond (eqb a b) 1 0 }
{
    usize::from(a == b)
}

// How many of the n pages from `first` on have the state. Never inlined: a walk over all blocks comes here for few of them, and keeps its
// own numbers in registers where the places of this loop are not among them.
#[inline(never)]
pub fn count_state(spare: &[u32], first: usize, n: usize, state: u32) -> usize
    requires { (first + n) * spare_words ≤ length spare.now }
    ensures { result ≡ count n (λ i. eqb (state_of (first + i) spare.now) state) }
{
    let mut k = 0;
    for i in 0..n {
        k += bit(state_at(spare, first + i), state);
    }
    k
}
