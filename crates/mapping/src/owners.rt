// The pages of a region as the owners of a map know them.
ghost use Rattle.std.specs.Prelude.{◌+◌, ◌*◌, ◌≤◌, length};
ghost use Rattle.scope.specs.Geometry.{most_pages};
ghost use Rattle.scope.specs.Lent.{spare_words};

use lent::{SPARE_WORDS, VALID};

// A page's state and owner as one number, as they lie side by side in the spare: one comparison tells both, and the compiler reads them
// at once.
const PAIR: u64 = 4294967296;

// The n pages from `first` on: their states and owners stand in the spare.
#[derive(Clone, Copy)]
pub struct Owners<'a> {
    pub spare: &'a [u32],
    pub first: usize,
    pub n: usize,
    pub ghost in_spare: { (first + n) * spare_words ≤ length spare.now },
    pub ghost few: { first + n ≤ most_pages },
}

impl Owners<'_> {
    ghost use Rattle.std.specs.Prelude.{◌≡◌, cond, ◌<◌};
    ghost use Rattle.mapping.specs.Named.{owns};

    // 1 where page `at` is one of these, valid and owned by k, else 0. No branch hangs on what is read: which words of a full chip are
    // stale, nobody can guess.
    pub(crate) fn owned(&self, k: u32, at: usize) -> usize
        requires { at < self.now.first + self.now.n }
        ensures { result ≡ cond (owns self.now.first self.now.n self.now.spare.now k at) 1 0 }
    {
        let state = self.spare[at * SPARE_WORDS];
        let owner = self.spare[at * SPARE_WORDS + 1];
        let pair = state as u64 + owner as u64 * PAIR;
        let same = pair == VALID as u64 + k as u64 * PAIR;
        (same & (self.first <= at)) as usize
    }
}
