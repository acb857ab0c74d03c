// What flash holds for every logical page, counted in one pass over the translation pages.
ghost use Rattle.std.specs.Prelude.{◌≡◌, length};
ghost use Rattle.scope.specs.Geometry.{Accepted};
ghost use Rattle.scope.specs.Lent.{chip_size, spare_size, directory_size};
ghost use Rattle.lent.specs.Model.{geometry};
ghost use Rattle.mapping.specs.Translated.{NamesOnChip};

use crate::owners::Owners;
use crate::part::Part;
use crate::stored::Stored;
use crate::tally::Tally;
use lent::{ENTRY_WORDS, Entry, Geometry};
use words::erased::{erased_run, only_erased};

// The map on flash and the spare, in lists of their lengths; the pages that the directory names are on the chip.
#[derive(Clone, Copy)]
pub(crate) struct Held<'a> {
    pub g: Geometry,
    pub chip: &'a [u32],
    pub spare: &'a [u32],
    pub directory: &'a [u32],
    pub ghost accepted: { Accepted (geometry g) },
    pub ghost chip_len: { length chip.now ≡ chip_size (geometry g) },
    pub ghost spare_len: { length spare.now ≡ spare_size (geometry g) },
    pub ghost directory_len: { length directory.now ≡ directory_size (geometry g) },
    pub ghost names_on_chip: { NamesOnChip (geometry g) directory.now },
}

impl<'a> Held<'a> {
    ghost use Rattle.std.specs.Prelude.{◌+◌, ◌*◌, ◌≤◌, ◌<◌};
    ghost use Rattle.scope.specs.Geometry.{M};
    ghost use Rattle.scope.specs.Lent.{entry_words};
    ghost use Rattle.scope.specs.Laws.Decides.{Decides};
    ghost use Rattle.scope.specs.Sound.{PastL};
    ghost use Rattle.mapping.specs.Tally.{nothing, Room, Tallied, TalliedWords};
    ghost use Rattle.mapping.specs.Translated.{held_words, TalliedFrom};
    ghost use Rattle.mapping.specs.Translated.{stored_none, stored_good, cached_none, cached_good, hidden_none, hidden_good};

    // Counts the words from `at` on, for the logical pages from `from` on: W of them, or as many as L leaves. A single word is counted as
    // one: where pages have no other, the next word is then on its way before this one has come.
    fn tally_held(&self, sum: &mut Tally, at: usize, from: usize)
        requires { (at + self.now.g.w ≤ length self.now.chip.now) × (from ≤ self.now.g.l) × Room sum.old self.now.g.w }
        ensures { TalliedWords (held_words (geometry self.now.g) self.now.chip.now at from) from self.now.spare.now
            (self.now.g.d * self.now.g.p) sum.old sum.new }
    {
        let n = (self.g.w as usize).min(self.g.l as usize - from);
        let owners = Owners {
            spare: self.spare,
            first: 0,
            n: self.g.d as usize * self.g.p as usize,
        };
        if n == 1 {
            sum.add_word(&owners, self.chip[at], from as u32);
            return;
        }
        let end = at + n;
        let part = Part {
            words: &self.chip[at..end],
            from,
            owners,
        };
        sum.add(part.tally());
    }

    // Counts what translation page t stores, for as many logical pages as it holds; where there is no such page, so many nones as it and
    // those behind it would hold, as far as none of them exists: where pages are short and few exist, most of the directory is passed in
    // such runs. Hands back the page that comes next.
    fn tally_from(&self, sum: &mut Tally, t: usize) -> usize
        requires { (t < M (geometry self.now.g)) × Room sum.old (self.now.g.l + self.now.g.w) }
        ensures { TalliedFrom (geometry self.now.g) self.now.chip.now self.now.spare.now self.now.directory.now t sum.old sum.new result }
    {
        let w = self.g.w as usize;
        let from = t * w;
        let Entry::Place(q) = lent::decode(self.directory[t]) else {
            let next = erased_run(self.directory, t + 1);
            sum.nones += (next * w).min(self.g.l as usize) - from;
            return next;
        };
        self.tally_held(sum, q as usize * w, from);
        t + 1
    }

    // What flash stores, for every logical page: the words below L of the pages that the directory names.
    pub(crate) fn tally_stored(&self) -> Tally
        ensures { Tallied nothing result self.now.g.l
            (stored_none (geometry self.now.g) self.now.chip.now self.now.directory.now)
            (stored_good (geometry self.now.g) self.now.chip.now self.now.spare.now self.now.directory.now) }
    {
        let mut sum = Tally::default();
        let mut t = 0;
        // Kept: (d) a turn passes as many pages as its run has: no range steps so.
        while t < self.directory.len() {
            t = self.tally_from(&mut sum, t);
        }
        sum
    }

    // The places of the first `used` entries.
    pub(crate) fn tally_cached(&self, cache: &[u32], used: usize) -> Tally
        requires { (used * entry_words ≤ length cache.now) × (used ≤ 4096) }
        ensures { Tallied nothing result used (cached_none cache.now)
            (cached_good (self.now.g.d * self.now.g.p) cache.now self.now.spare.now) }
    {
        let owners = Owners {
            spare: self.spare,
            first: 0,
            n: self.g.d as usize * self.g.p as usize,
        };
        let mut sum = Tally::default();
        for i in 0..used {
            sum.add_word(&owners, cache[i * ENTRY_WORDS + 1], cache[i * ENTRY_WORDS]);
        }
        sum
    }

    // What they hide: the words of flash for their logical pages.
    pub(crate) fn tally_hidden(&self, cache: &[u32], used: usize) -> Tally
        requires { (used * entry_words ≤ length cache.now) × (used ≤ 4096) }
        ensures { Tallied nothing result used
            (hidden_none (geometry self.now.g) self.now.chip.now self.now.directory.now cache.now)
            (hidden_good (geometry self.now.g) self.now.chip.now self.now.spare.now self.now.directory.now cache.now) }
    {
        let flash = Stored {
            g: self.g,
            chip: self.chip,
            directory: self.directory,
        };
        let owners = Owners {
            spare: self.spare,
            first: 0,
            n: self.g.d as usize * self.g.p as usize,
        };
        let mut sum = Tally::default();
        for i in 0..used {
            let l = cache[i * ENTRY_WORDS];
            sum.add_word(&owners, flash.stored(l), l);
        }
        sum
    }

    // The words past L are none: the last translation page alone has any.
    pub(crate) fn none_past(&self) -> bool
        ensures { Decides result (PastL (geometry self.now.g) self.now.chip.now self.now.directory.now) }
    {
        let last = self.directory.len() - 1;
        let Entry::Place(q) = lent::decode(self.directory[last]) else {
            return true;
        };
        let w = self.g.w as usize;
        let page = q as usize * w;
        let n = self.g.l as usize - last * w;
        only_erased(&self.chip[page + n..page + w])
    }
}
