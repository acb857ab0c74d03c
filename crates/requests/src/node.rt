// A node between the tests of a call and its answer: the small record and the counts, flash, directory and cache, and the filter of the
// cached pages, which is right whenever no step is under way. What a step only looks up stands here.
ghost use Rattle.std.specs.Prelude.{◌≡◌, ◌+◌, ◌*◌, ◌≤◌, ◌<◌, length};
ghost use Rattle.scope.specs.Sound.{rank_of};
ghost use Rattle.scope.specs.Cache.{is_changed};
ghost use Rattle.scope.specs.Lent.{entry_words, logical_at, physical_at, named};
ghost use Rattle.lent.specs.Model.{geometry, entry};
ghost use Rattle.entries.specs.Entries.{CacheLent, Different};
ghost use Rattle.words.specs.Filter.{Filtered};

use lent::{Entry, FILTER_WORDS, Work};
use steps::Flash;

#[derive(Drop)]
pub struct Node<'w, 'f, 'x, 'd, 'c, 'n> {
    pub work: &'w mut Work,
    pub flash: &'f mut Flash<'x>,
    pub directory: &'d mut [u32],
    pub cache: &'c mut [u32],
    pub filter: &'n mut [u64; FILTER_WORDS],
    pub ghost filtered: { Filtered cache.now work.now.rec.used filter.now },
}

impl Node<'_, '_, '_, '_, '_, '_> {
    // The rank of logical page l; C where it isn't cached.
    pub(crate) fn rank_of(&self, l: u32) -> usize
        requires { CacheLent (geometry self.now.flash.now.g) self.now.cache.now self.now.work.now.rec.used }
        ensures { (result ≤ (geometry self.now.flash.now.g).C)
            × (rank_of (geometry self.now.flash.now.g) self.now.cache.now self.now.work.now.rec.used l ≡ result) }
    {
        entries::rank_of(self.work.rec, self.flash.g, l, self.cache, self.filter)
    }

    // The same, sought from the last entries on.
    pub(crate) fn rank_from_last(&self, l: u32) -> usize
        requires cache_lent { CacheLent (geometry self.now.flash.now.g) self.now.cache.now self.now.work.now.rec.used }
        requires different { Different self.now.cache.now self.now.work.now.rec.used }
        ensures { (result ≤ (geometry self.now.flash.now.g).C)
            × (rank_of (geometry self.now.flash.now.g) self.now.cache.now self.now.work.now.rec.used l ≡ result) }
    {
        entries::rank_from_last(self.work.rec, self.flash.g, l, self.cache, self.filter)
    }

    // The words of the entry at rank i.
    pub(crate) fn logical(&self, i: usize) -> u32
        requires { i * entry_words + entry_words ≤ length self.now.cache.now }
        ensures { result ≡ logical_at i self.now.cache.now }
    {
        entries::logical(i, self.cache)
    }

    pub(crate) fn physical(&self, i: usize) -> u32
        requires { i * entry_words + entry_words ≤ length self.now.cache.now }
        ensures { result ≡ physical_at i self.now.cache.now }
    {
        entries::physical(i, self.cache)
    }

    pub(crate) fn is_changed(&self, i: usize) -> bool
        requires { i * entry_words + entry_words ≤ length self.now.cache.now }
        ensures { result ≡ is_changed i self.now.cache.now }
    {
        entries::is_changed(i, self.cache)
    }

    // The page that the directory names for translation page t.
    pub(crate) fn named(&self, t: u32) -> Entry
        requires { t < length self.now.directory.now }
        ensures { entry result ≡ named t self.now.directory.now }
    {
        steps::directory::named(t, self.directory)
    }
}
