// A page's words in the spare, its state and its owner: read and stored. Which is which no step knows; check alone, which reads all pages in
// one pass, looks at the two words where they lie.
ghost use Rattle.std.specs.Prelude.{◌≡◌, ◌+◌, ◌*◌, ◌≤◌, length};
ghost use Rattle.scope.specs.Lent.{spare_words, state_of, owner_of, with_state, with_claim, with_erased};

use crate::runs::{fill_erased, store_two};
use lent::{SPARE_WORDS, VALID};

pub fn state_at(spare: &[u32], p: usize) -> u32
    requires { (p + 1) * spare_words ≤ length spare.now }
    ensures { result ≡ state_of p spare.now }
{
    spare[p * SPARE_WORDS]
}

pub fn owner_at(spare: &[u32], p: usize) -> u32
    requires { (p + 1) * spare_words ≤ length spare.now }
    ensures { result ≡ owner_of p spare.now }
{
    spare[p * SPARE_WORDS + 1]
}

// Page p in another state, with the owner that it has.
pub fn set_state(spare: &mut [u32], p: usize, state: u32)
    requires { (p + 1) * spare_words ≤ length spare.old }
    ensures { spare.new ≡ with_state p state spare.old }
{
    spare[p * SPARE_WORDS] = state;
}

// Page p valid, and the owner's.
pub fn claim(spare: &mut [u32], p: usize, owner: u32)
    requires { (p + 1) * spare_words ≤ length spare.old }
    ensures { spare.new ≡ with_claim p owner spare.old }
{
    store_two(spare, p * SPARE_WORDS, VALID, owner);
}

// The n pages from `first` on erased.
pub fn erase_pages(spare: &mut [u32], first: usize, n: usize)
    requires { (first + n) * spare_words ≤ length spare.old }
    ensures { spare.new ≡ with_erased first n spare.old }
{
    fill_erased(spare, first * SPARE_WORDS, n * SPARE_WORDS);
}
