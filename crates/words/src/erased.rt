// Only erased words, which are none too. A sweep never leaves its loop, so that the compiler makes wide reads of it and a fresh chip is
// read at the memory's speed: a bit that some word lacks is lacking in the end.
ghost use Rattle.std.specs.Prelude.{◌≡◌, ◌&&◌, ◌+◌, ◌≤◌, eqb, length};
ghost use Rattle.scope.specs.Counting.{all};
ghost use Rattle.scope.specs.Lent.{erased};
ghost use Rattle.words.specs.Erased.{is_erased_word, only_erased, ErasedRun};

use lent::ERASED;

// Words that are swept at once. A caller that passes a constant for the length has the sweep put into it and unrolled, which halves the
// cost of words that are near.
const STRETCH: usize = 256;

// Words of a step along a run: few, so that little is read in vain where the run ends.
const STEP: usize = 16;

// The bits that `bits` and the n words from `at` on have in common.
fn sweep(words: &[u32], at: usize, n: usize, bits: u32) -> u32
    requires { at + n ≤ length words.now }
    ensures { eqb result erased ≡ (eqb bits erased && all n (λ i. is_erased_word words.now (at + i))) }
{
    let mut left = bits;
    for i in 0..n {
        left &= words[at + i];
    }
    left
}

// Whether each of the words is erased.
pub fn only_erased(words: &[u32]) -> bool
    ensures { result ≡ only_erased words.now }
{
    let mut bits = ERASED;
    for k in 0..words.len() / STRETCH {
        bits = sweep(words, k * STRETCH, STRETCH, bits);
    }
    let rest = words.len() % STRETCH;
    sweep(words, words.len() - rest, rest, bits) == ERASED
}

// How far the words from `at` on are erased, by whole steps: behind there may be some more.
pub fn erased_run(words: &[u32], at: usize) -> usize
    requires { at ≤ length words.now }
    ensures { ErasedRun words.now at result }
{
    let steps = (words.len() - at) / STEP;
    for k in 0..steps {
        let end = at + k * STEP;
        if sweep(words, end, STEP, ERASED) != ERASED {
            return end;
        }
    }
    at + steps * STEP
}
