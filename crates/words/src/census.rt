// Searches in a census, which holds a number for each block, so that none of them looks at a page. specs/Census.antt says what the
// numbers stand for.
ghost use Rattle.std.specs.Prelude.{◌≡◌, cond, ◌+◌, ◌≤◌, eqb, ltb, length, get_or};
ghost use Rattle.scope.specs.Counting.{count, lowest, fewest};

use crate::states::bit;

// What an erased page adds to its block's number: more than all valid pages of a block.
pub const ERASED_PAGE: u32 = 256;

// How many of the n numbers from `first` on are x.
pub fn count_equal(census: &[u32], first: usize, n: usize, x: u32) -> usize
    requires { first + n ≤ length census.now }
    ensures { (result ≤ n) × (result ≡ count n (λ i. eqb (get_or census.now (first + i) 0) x)) }
{
    let mut k = 0;
    for i in 0..n {
        k += bit(census[first + i], x);
    }
    k
}

// The lowest of them, counted from the first; n where there is none.
pub fn lowest_equal(census: &[u32], first: usize, n: usize, x: u32) -> usize
    requires { first + n ≤ length census.now }
    ensures { (result ≤ n) × (result ≡ lowest n (λ i. eqb (get_or census.now (first + i) 0) x)) }
{
    for i in 0..n {
        if census[first + i] == x {
            return i;
        }
    }
    n
}

// The block with the smallest number so far, and that number; n and the limit where none was found.
// Kept: (d) an Option of the two would be matched at each turn, where the limit makes it one comparison.
#[derive(Drop)]
struct Best {
    at: usize,
    size: u32,
}

fn better(best: Best, i: usize, size: u32) -> Best
    ensures { (result.at ≡ cond (ltb size best.size) i best.at) × (result.size ≡ cond (ltb size best.size) size best.size) }
{
    if size < best.size {
        Best { at: i, size }
    } else {
        best
    }
}

// Of the n numbers from `first` on that are below the limit, the smallest, the lowest on a tie, counted from the first; n where there
// is none.
pub fn fewest_below(census: &[u32], first: usize, n: usize, limit: u32) -> usize
    requires { first + n ≤ length census.now }
    ensures { (result ≤ n) × (result ≡ fewest n (λ i. ltb (get_or census.now (first + i) 0) limit)
        (λ i. get_or census.now (first + i) 0)) }
{
    let mut best = Best { at: n, size: limit };
    for i in 0..n {
        best = better(best, i, census[first + i]);
    }
    best.at
}
