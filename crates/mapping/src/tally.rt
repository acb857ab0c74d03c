// A map from owners to pages, held to the pages of a region by counting its words: those that are none, and those that name the valid
// page of their owner. With the number of valid pages the two decide rules 4 and 6 (specs/Named.antt).
ghost use Rattle.std.specs.Prelude.{◌≡◌, ◌+◌, ◌≤◌};
ghost use Rattle.mapping.specs.Named.{owns, is_none};
ghost use Rattle.mapping.specs.Tally.{most_counted, Room, TalliedWord};

use crate::owners::Owners;
use lent::NONE;
use words::states::bit;

#[derive(Clone, Copy, Default)]
pub struct Tally {
    pub nones: usize,
    pub good: usize,
}

impl Tally {
    // Counts a word, x, whose owner is k. A page comes first: where there are many words they name pages.
    pub fn add_word(&mut self, owners: &Owners, x: u32, k: u32)
        requires room { Room self.old 1 }
        ensures { TalliedWord self.old self.new (is_none x) (owns owners.now.first owners.now.n owners.now.spare.now k x) }
    {
        let at = x as usize;
        if at < owners.first + owners.n {
            self.good += owners.owned(k, at);
        } else {
            self.nones += bit(x, NONE);
        }
    }

    // Adds the counts of other words.
    pub fn add(&mut self, more: Tally)
        requires { (self.old.nones + more.nones ≤ most_counted) × (self.old.good + more.good ≤ most_counted) }
        ensures { (self.new.nones ≡ self.old.nones + more.nones) × (self.new.good ≡ self.old.good + more.good) }
    {
        self.nones += more.nones;
        self.good += more.good;
    }
}
