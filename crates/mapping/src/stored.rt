// What flash holds for a logical page, and rule 7: an unchanged cached entry equals it.
ghost use Rattle.std.specs.Prelude.{◌≡◌, [], ◌+◌, ◌*◌, ◌≤◌, length};
ghost use Rattle.scope.specs.Geometry.{Accepted};
ghost use Rattle.scope.specs.Laws.Decides.{Decides};
ghost use Rattle.scope.specs.Lent.{cache_size, entry_words};
ghost use Rattle.scope.specs.Sound.{stored, UnchangedAgree};
ghost use Rattle.lent.specs.Model.{geometry};
ghost use Rattle.mapping.specs.Stored.{parts, agrees};

use lent::{ENTRY_WORDS, Entry, Geometry, NONE};

// The directory and the chip with the pages that it names. Any words whatever stand in them, so the directory's word is bounded before
// it is followed.
#[derive(Clone, Copy)]
pub struct Stored<'a> {
    pub g: Geometry,
    pub chip: &'a [u32],
    pub directory: &'a [u32],
    pub ghost accepted: { Accepted (geometry g) },
}

impl Stored<'_> {
    // The word of l's translation page, or none where the page doesn't exist.
    pub fn stored(&self, l: u32) -> u32
        ensures { result ≡ stored (geometry self.now.g) self.now.chip.now self.now.directory.now l }
    {
        let w = self.g.w as usize;
        let page = l as usize;
        let word = self.directory.get(page / w).copied().unwrap_or(NONE);
        let Entry::Place(q) = lent::decode(word) else {
            return NONE;
        };
        let at = q as usize * w + page % w;
        self.chip.get(at).copied().unwrap_or(NONE)
    }
}

// The entry at rank i, where it is unchanged, has the place that flash holds.
fn agrees(held: &Stored, cache: &[u32], i: usize) -> bool
    requires { i * entry_words + entry_words ≤ length cache.now }
    ensures { result ≡ agrees (geometry held.now.g) held.now.chip.now held.now.directory.now cache.now i }
{
    cache[i * ENTRY_WORDS + 2] != 0
        || cache[i * ENTRY_WORDS + 1] == held.stored(cache[i * ENTRY_WORDS])
}

// Rule 7. At most C steps: the entries in use.
pub fn unchanged_agree(
    g: Geometry,
    chip: &[u32],
    directory: &[u32],
    cache: &[u32],
    used: u32,
) -> bool
    requires accepted { Accepted (geometry g) }
    requires cache_len { length cache.now ≡ cache_size (geometry g) }
    requires used_le_c { used ≤ g.c }
    ensures { Decides result (UnchangedAgree (geometry g) (parts chip.now [] directory.now cache.now used)) }
{
    let held = Stored { g, chip, directory };
    for i in 0..used as usize {
        if !agrees(&held, cache, i) {
            return false;
        }
    }
    true
}
