// The cache's entries: put in front of the others, and found by their logical page.
ghost use Rattle.std.specs.Prelude.{◌≡◌, ◌&&◌, ◌∷◌, ◌++◌, ◌+◌, ◌*◌, ◌≤◌, eqb, ltb, length, take};
ghost use Rattle.std.proofs.lemmas.List.Edits.{sets};
ghost use Rattle.scope.specs.Counting.{lowest};
ghost use Rattle.scope.specs.Lent.{entry_words, logical_at};
ghost use Rattle.scope.specs.Cache.{entry_at, without};

use crate::runs::store_three;
use lent::ENTRY_WORDS;

// The first n words move back by an entry, over those that stood there.
fn shift_back(s: &mut [u32], n: usize)
    requires { n + entry_words ≤ length s.old }
    ensures { s.new ≡ sets s.old entry_words (take n s.old) }
{
    s.copy_within(0..n, ENTRY_WORDS);
}

// An entry in front, in the place of the one at rank i.
pub fn put_front(cache: &mut [u32], i: usize, logical: u32, physical: u32, changed: u32)
    requires { i * entry_words + entry_words ≤ length cache.old }
    ensures { cache.new ≡ logical ∷ physical ∷ changed ∷ without i cache.old }
{
    shift_back(cache, i * ENTRY_WORDS);
    store_three(cache, 0, logical, physical, changed);
}

// The entry at rank i moves to the front.
pub fn to_front(cache: &mut [u32], i: usize)
    requires { i * entry_words + entry_words ≤ length cache.old }
    ensures { cache.new ≡ entry_at i cache.old ++ without i cache.old }
{
    let logical = cache[i * ENTRY_WORDS];
    let physical = cache[i * ENTRY_WORDS + 1];
    let changed = cache[i * ENTRY_WORDS + 2];
    put_front(cache, i, logical, physical, changed);
}

// Which of the four entries from rank i on is the first with logical page l; 4 where none has it.
pub fn among_four(cache: &[u32], i: usize, l: u32) -> usize
    requires { (i + 4) * entry_words ≤ length cache.now }
    ensures { result ≡ lowest 4 (λ k. eqb (logical_at (i + k) cache.now) l) }
{
    for k in 0..4 {
        if cache[(i + k) * ENTRY_WORDS] == l {
            return k;
        }
    }
    4
}

// The lowest rank below `used` whose entry has logical page l; n where none has. Those that are used again and again stand first, so that the
// search ends early where it finds one. Four entries a turn, so that the loop's own test is paid once for four.
pub fn rank_of(cache: &[u32], used: usize, n: usize, l: u32) -> usize
    requires { (used ≤ n) × (n * entry_words ≤ length cache.now) }
    ensures { (result ≤ n) × (result ≡ lowest n (λ i. ltb i used && eqb (logical_at i cache.now) l)) }
{
    let mut i = 0;
    // Kept: (b) `position` over the entries, one a turn, takes 1.7 times as long over 300 of them.
    while i + 4 <= used {
        let k = among_four(cache, i, l);
        if k < 4 {
            return i + k;
        }
        i += 4;
    }
    for rank in i..used {
        if cache[rank * ENTRY_WORDS] == l {
            return rank;
        }
    }
    n
}
