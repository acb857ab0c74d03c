// Rule 5: used entries number at most C, have different logical pages below L and changed 0 or 1; unused entries are none throughout; protected
// ones number at most C/2 and at most the used ones.
// Any words may stand in the cache, and any number may come as used. The pages differ where each is new to the filter, which takes them one
// after the other; where the rule holds, it is the filter of the cached pages.
ghost use Rattle.std.specs.Prelude.{◌≡◌, true, ◌+◌, ◌*◌, ◌≤◌, length};
ghost use Rattle.scope.specs.Geometry.{Accepted};
ghost use Rattle.scope.specs.Laws.Decides.{Decides};
ghost use Rattle.scope.specs.Lent.{cache_size, logical_at, entry_words};
ghost use Rattle.scope.specs.Sound.{EntriesFit, ProtectedFit};
ghost use Rattle.lent.specs.Model.{geometry, small};
ghost use Rattle.lent.specs.Notes.{filter_bits};
ghost use Rattle.words.specs.Bitmap.{has, put};
ghost use Rattle.words.specs.Filter.{Filter};
ghost use Rattle.mapping.specs.Entries.{entry_fits, used_fit};
ghost use Rattle.mapping.specs.Seen.{Seen};

use lent::{ENTRY_WORDS, FILTER_WORDS, Geometry, Record};
use words::bitmap;
use words::erased::only_erased;

// The entry at rank i has a logical page below l, changed 0 or 1, and the page is new to the filter, which takes it.
fn entry_fits(cache: &[u32], l: u32, i: usize, filter: &mut [u64; FILTER_WORDS]) -> bool
    requires { (i * entry_words + entry_words ≤ length cache.now) × (l ≤ filter_bits) }
    ensures value { result ≡ entry_fits (has filter.old) cache.now l i }
    ensures filter_after { result ≡ true → filter.new ≡ put filter.old (logical_at i cache.now) }
{
    let page = cache[i * ENTRY_WORDS];
    if l <= page || 1 < cache[i * ENTRY_WORDS + 2] {
        return false;
    }
    let at = page as usize;
    let new = !bitmap::has(filter, at);
    bitmap::put(filter, at);
    new
}

// So do the first n entries, each in its turn, from an empty filter on.
fn used_fit(cache: &[u32], l: u32, n: usize, filter: &mut [u64; FILTER_WORDS]) -> bool
    requires { (n * entry_words ≤ length cache.now) × (l ≤ filter_bits) }
    ensures value { result ≡ used_fit cache.now l n }
    ensures seen { result ≡ true → Seen cache.now n filter.new }
{
    bitmap::clear(filter);
    for i in 0..n {
        if !entry_fits(cache, l, i, filter) {
            return false;
        }
    }
    true
}

// Rule 5, but for its last sentence.
pub fn entries_fit(g: Geometry, cache: &[u32], used: u32, filter: &mut [u64; FILTER_WORDS]) -> bool
    requires accepted { Accepted (geometry g) }
    requires cache_len { length cache.now ≡ cache_size (geometry g) }
    ensures decides { Decides result (EntriesFit (geometry g) cache.now used) }
    ensures filter { result ≡ true → Filter cache.now used filter.new }
{
    let n = used as usize;
    used <= g.c && used_fit(cache, g.l, n, filter) && only_erased(&cache[n * ENTRY_WORDS..])
}

// That sentence.
pub fn protected_fit(g: Geometry, rec: Record) -> bool
    ensures { Decides result (ProtectedFit (geometry g) (small rec)) }
{
    rec.protected <= g.c / 2 && rec.protected <= rec.used
}
