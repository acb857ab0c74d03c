// The changed entries of one translation page, in one pass over the cache: the word of each is set in the page that is to be programmed, and
// the entry becomes unchanged. From the last entry down, since the dropped one is the last and a page of few words may have no other.
ghost use Rattle.std.specs.Prelude.{◌≡◌, ◌+◌, ◌*◌, ◌<◌, ◌≤◌, length, if◌then◌else◌};
ghost use Rattle.std.proofs.lemmas.List.Edits.{sets};
ghost use Rattle.scope.specs.Geometry.{pages};
ghost use Rattle.scope.specs.Counting.{count};
ghost use Rattle.scope.specs.Lent.{entry_words, words_of};
ghost use Rattle.scope.specs.Cache.{changed_of, unchanged_of};
ghost use Rattle.scope.specs.Steps.{set_words};
ghost use Rattle.lent.specs.Model.{geometry};
ghost use Rattle.steps.specs.Lies.{ChipLent};
ghost use Rattle.index.specs.OfPage.{OfPages, of_page_at, stretch};
ghost use Rattle.index.specs.Changed.{EntriesLent, LooksAt};

use lent::{ENTRY_WORDS, Geometry};
use steps::chip::set_word;

// Whether the entry at rank i is of translation page t. By one comparison, since nobody can guess on which side of the page its logical
// page lies: one before the page's first is far behind it by 32 bits.
fn of_page(g: Geometry, t: u32, i: usize, cache: &[u32]) -> bool
    requires { OfPages (geometry g) t × (i * entry_words + entry_words ≤ length cache.now) }
    ensures { result ≡ of_page_at (geometry g) t cache.now i }
{
    cache[i * ENTRY_WORDS].wrapping_sub(t * g.w) < g.w
}

// The entries that are passed by at once where none of them is of the page, as mostly none is.
const STRETCH: usize = 20;

// How many of the entries of a stretch from rank i on are of translation page t. Without a branch, so that the compiler looks at several at once.
fn own_in(g: Geometry, t: u32, i: usize, cache: &[u32]) -> usize
    requires { OfPages (geometry g) t × ((i + stretch) * entry_words ≤ length cache.now) × (i < 4294967296) }
    ensures { result ≡ count stretch (λ k. of_page_at (geometry g) t cache.now (i + k)) }
{
    let mut own = 0;
    for k in 0..STRETCH {
        own += usize::from(of_page(g, t, i + k, cache));
    }
    own
}

// The entry at rank i: if it is of translation page t and changed, its word is set in the page at q, and it becomes unchanged.
fn set_if_changed(g: Geometry, q: u32, t: u32, i: usize, cache: &mut [u32], chip: &mut [u32])
    requires chip_lent { ChipLent (geometry g) chip.old × (q < pages (geometry g)) }
    requires of_pages { OfPages (geometry g) t × (i * entry_words + entry_words ≤ length cache.old) }
    ensures { LooksAt (geometry g) q t i (i + 1) cache.old chip.old cache.new chip.new }
{
    if !of_page(g, t, i, cache) {
        return;
    }
    if cache[i * ENTRY_WORDS + 2] != 1 {
        return;
    }
    let l = cache[i * ENTRY_WORDS];
    let place = cache[i * ENTRY_WORDS + 1];
    set_word(g, q, l, place, chip);
    cache[i * ENTRY_WORDS + 2] = 0;
}

// The first n, from the last down.
fn set_first(g: Geometry, q: u32, t: u32, n: usize, cache: &mut [u32], chip: &mut [u32])
    requires chip_lent { ChipLent (geometry g) chip.old × (q < pages (geometry g)) }
    requires of_pages { OfPages (geometry g) t × (n * entry_words ≤ length cache.old) }
    ensures { LooksAt (geometry g) q t 0 n cache.old chip.old cache.new chip.new }
{
    for k in (0..n).rev() {
        set_if_changed(g, q, t, k, cache, chip);
    }
}

// Those of the stretch from rank i on, among which so many are of the page: once these are met, the ones before are of other pages.
fn set_own(own: usize, g: Geometry, q: u32, t: u32, i: usize, cache: &mut [u32], chip: &mut [u32])
    requires chip_lent { ChipLent (geometry g) chip.old × (q < pages (geometry g)) }
    requires of_pages { OfPages (geometry g) t × ((i + stretch) * entry_words ≤ length cache.old) × (i < 4294967296) }
    requires own_value { own ≡ count stretch (λ k. of_page_at (geometry g) t cache.old (i + k)) }
    ensures { LooksAt (geometry g) q t i (i + stretch) cache.old chip.old cache.new chip.new }
{
    let mut left = own;
    for k in (0..STRETCH).rev() {
        if left == 0 {
            return;
        }
        left -= usize::from(of_page(g, t, i + k, cache));
        set_if_changed(g, q, t, i + k, cache, chip);
    }
}

// How many entries of the page were met once the stretch from rank i on is looked at, those before with these.
fn set_stretch(
    met: usize,
    g: Geometry,
    q: u32,
    t: u32,
    i: usize,
    cache: &mut [u32],
    chip: &mut [u32],
) -> usize
    requires chip_lent { ChipLent (geometry g) chip.old × (q < pages (geometry g)) }
    requires of_pages { OfPages (geometry g) t × ((i + stretch) * entry_words ≤ length cache.old) }
    requires i_bound { (i < 4294967296) × (met ≤ 4294967296) }
    ensures value { result ≡ met + count stretch (λ k. of_page_at (geometry g) t cache.old (i + k)) }
    ensures looks_at { LooksAt (geometry g) q t i (i + stretch) cache.old chip.old cache.new chip.new }
{
    let own = own_in(g, t, i, cache);
    if own == 0 {
        return met;
    }
    set_own(own, g, q, t, i, cache, chip);
    met + own
}

// All of the first n: the stretches, from the last down, and then those before the first stretch. A page has no more entries than words: once
// so many were met the others are of other pages.
pub(crate) fn set_changed(
    g: Geometry,
    q: u32,
    t: u32,
    n: usize,
    cache: &mut [u32],
    chip: &mut [u32],
)
    requires chip_lent { ChipLent (geometry g) chip.old × (q < pages (geometry g)) }
    requires entries_lent { EntriesLent (geometry g) t n cache.old × (n < 4294967296) }
    ensures chip_after { chip.new ≡ sets chip.old (q * g.w)
        (set_words (geometry g) (changed_of (geometry g) t n cache.old) (words_of (geometry g) q chip.old)) }
    ensures cache_after { cache.new ≡ unchanged_of (geometry g) t n cache.old }
{
    let w = g.w as usize;
    let first = n % STRETCH;
    let mut met = 0;
    for k in (0..n / STRETCH).rev() {
        met = set_stretch(met, g, q, t, first + k * STRETCH, cache, chip);
        if w <= met {
            return;
        }
    }
    set_first(g, q, t, first, cache, chip);
}
