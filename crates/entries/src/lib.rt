// The cache's entries: found, moved to the front, entered, dropped and set, with the numbers of those in use and of the protected ones.
#![tactic(auto)]

ghost use Rattle.std.specs.Prelude.{◌≡◌, ◌+◌, ◌*◌, ◌≤◌, ◌<◌, length};
ghost use Rattle.scope.specs.Sound.{rank_of};
ghost use Rattle.scope.specs.Cache.{is_changed, protected_after, touch, enter, forget, set_entry};
ghost use Rattle.scope.specs.Lent.{entry_words, logical_at, physical_at};
ghost use Rattle.lent.specs.declared.Work.{Work};
ghost use Rattle.lent.specs.Model.{geometry};
ghost use Rattle.lent.specs.Shapes.{DoesCache};
ghost use Rattle.entries.specs.Entries.{CacheLent, Different};
ghost use Rattle.words.specs.Filter.{Filter, bit_of};

use lent::{ENTRY_WORDS, FILTER_BITS, FILTER_WORDS, Geometry, NONE, Record, Work};
use words::bitmap;
use words::entries::{among_four, put_front, to_front};
use words::runs::{store_three, store_two};

// The bit of a logical page in the filter.
fn bit_of(l: u32) -> usize
    ensures { result ≡ bit_of l }
{
    l as usize % FILTER_BITS
}

// The rank of logical page l; C where it isn't cached, which the filter mostly tells.
pub fn rank_of(
    rec: Record,
    g: Geometry,
    l: u32,
    cache: &[u32],
    filter: &[u64; FILTER_WORDS],
) -> usize
    requires cache_lent { CacheLent (geometry g) cache.now rec.used }
    requires filter { Filter cache.now rec.used filter.now }
    ensures { (result ≤ (geometry g).C) × (rank_of (geometry g) cache.now rec.used l ≡ result) }
{
    let n = g.c as usize;
    if !bitmap::has(filter, bit_of(l)) {
        return n;
    }
    let used = rec.used as usize;
    words::entries::rank_of(cache, used, n, l)
}

// The words of the entry at rank i.
pub fn logical(i: usize, cache: &[u32]) -> u32
    requires { i * entry_words + entry_words ≤ length cache.now }
    ensures { result ≡ logical_at i cache.now }
{
    cache[i * ENTRY_WORDS]
}

pub fn physical(i: usize, cache: &[u32]) -> u32
    requires { i * entry_words + entry_words ≤ length cache.now }
    ensures { result ≡ physical_at i cache.now }
{
    cache[i * ENTRY_WORDS + 1]
}

pub fn is_changed(i: usize, cache: &[u32]) -> bool
    requires { i * entry_words + entry_words ≤ length cache.now }
    ensures { result ≡ is_changed i cache.now }
{
    cache[i * ENTRY_WORDS + 2] == 1
}

// How many are protected after a hit at rank i, where n were. One in trial comes to them; where they are as many as may be, the last of them
// goes to the trial part, and their number stays.
fn protected_after(g: Geometry, i: usize, n: u32) -> u32
    ensures { result ≡ protected_after (geometry g) i n }
{
    if i < n as usize {
        return n;
    }
    if n < g.c / 2 {
        return n + 1;
    }
    n
}

// The entry at rank i moves to the front.
pub fn touch(work: &mut Work, g: Geometry, i: usize, cache: &mut [u32])
    requires { i * entry_words + entry_words ≤ length cache.old }
    ensures { DoesCache (touch (geometry g) i) cache.old work.old 0 cache.new work.new }
{
    to_front(cache, i);
    work.rec.protected = protected_after(g, i, work.rec.protected);
}

// An entry for logical page l, at the trial front and unchanged, in the place of the first unused one.
pub fn enter(
    work: &mut Work,
    l: u32,
    place: u32,
    cache: &mut [u32],
    filter: &mut [u64; FILTER_WORDS],
)
    requires used_in_cache { (work.old.rec.used * entry_words + entry_words ≤ length cache.old) × (work.old.rec.used < 4294967295)
        × (work.old.rec.protected ≤ work.old.rec.used) }
    requires filter { Filter cache.old work.old.rec.used filter.old }
    ensures does_cache { DoesCache (enter l place) cache.old work.old work.new.rec.protected cache.new work.new }
    ensures filter_after { Filter cache.new work.new.rec.used filter.new }
{
    let used = work.rec.used;
    bitmap::put(filter, bit_of(l));
    let before = work.rec.protected;
    let trial = before as usize * ENTRY_WORDS;
    let behind = (used - before) as usize;
    put_front(&mut cache[trial..], behind, l, place, 0);
    work.rec.used = used + 1;
}

// The entry at rank i, the last, is dropped.
pub fn forget(work: &mut Work, i: usize, cache: &mut [u32])
    requires { (i * entry_words + entry_words ≤ length cache.old) × (i + 1 ≡ work.old.rec.used) }
    ensures { DoesCache (forget i) cache.old work.old tt cache.new work.new }
{
    store_three(cache, i * ENTRY_WORDS, NONE, NONE, NONE);
    work.rec.used -= 1;
}

// The entry at rank i names a new place and is changed.
pub fn set_entry(i: usize, place: u32, cache: &mut [u32])
    requires { i * entry_words + entry_words ≤ length cache.old }
    ensures { (w : Work) → DoesCache (set_entry i place) cache.old w tt cache.new w }
{
    store_two(cache, i * ENTRY_WORDS + 1, place, 1);
}

// The rank of logical page l, sought from the last entries on, four a turn: an entry that a collection follows has mostly not been used for
// long.
pub fn rank_from_last(
    rec: Record,
    g: Geometry,
    l: u32,
    cache: &[u32],
    filter: &[u64; FILTER_WORDS],
) -> usize
    requires cache_lent { CacheLent (geometry g) cache.now rec.used }
    requires filter { Filter cache.now rec.used filter.now }
    requires different { Different cache.now rec.used }
    ensures { (result ≤ (geometry g).C) × (rank_of (geometry g) cache.now rec.used l ≡ result) }
{
    let n = g.c as usize;
    if !bitmap::has(filter, bit_of(l)) {
        return n;
    }
    let used = rec.used as usize;
    let rest = used % 4;
    for turn in (0..used / 4).rev() {
        let first = rest + turn * 4;
        let k = among_four(cache, first, l);
        if k < 4 {
            return first + k;
        }
    }
    for i in (0..rest).rev() {
        if cache[i * ENTRY_WORDS] == l {
            return i;
        }
    }
    n
}
