// Rule 6: the current place of each logical page is the valid data page that it owns, or none where there isn't one; words past L are
// none. Rule 2 of the data region comes with it. By counts, in one pass over the translation pages and two over the cache: nothing is kept
// for each logical page. What flash stores is counted for every logical page; then the words that cached entries hide are taken out of the
// counts, and the entries' places put in. specs/Places.antt says why the sums decide both rules.
ghost use Rattle.std.specs.Prelude.{◌≡◌, ◌≤◌, length};
ghost use Rattle.scope.specs.Geometry.{Accepted, most_pages};
ghost use Rattle.scope.specs.Lent.{cache_size};
ghost use Rattle.scope.specs.Laws.Decides.{Decides};
ghost use Rattle.scope.specs.Regions.{Data};
ghost use Rattle.scope.specs.Sound.{OwnersDiffer, DirectoryNames, EntriesFit, PlacesHold};
ghost use Rattle.flash.specs.Lengths.{LengthsFit};
ghost use Rattle.flash.specs.Owners.{OwnersFit, valid_in};
ghost use Rattle.lent.specs.Model.{geometry};
ghost use Rattle.mapping.specs.Places.{CurrentPlaces, sums_agree};
ghost use Rattle.mapping.specs.Stored.{parts};
ghost use Rattle.mapping.specs.Tally.{Counted};

use crate::held::Held;
use crate::tally::Tally;
use lent::Geometry;

// Whether the counts say that each of the `pages` current places is none or the valid page of its owner, and that these are all the valid
// ones. What the cache hides stands on the other side, so that nothing is subtracted.
fn sums_agree(held: Tally, has: Tally, hides: Tally, pages: usize, valid: usize) -> bool
    requires { (Counted held most_pages × Counted has most_pages × Counted hides most_pages) × (pages ≤ most_pages) × (valid ≤ most_pages) }
    ensures { result ≡ sums_agree held has hides pages valid }
{
    let good = held.good + has.good;
    held.nones + has.nones + good == pages + hides.nones + hides.good && good == valid + hides.good
}

// The first half of the rule, each current place, with rule 2.
fn current_places(held: &Held, cache: &[u32], used: u32, valid: usize) -> bool
    requires cache_len { length cache.now ≡ cache_size (geometry held.now.g) }
    requires owners_fit { OwnersFit (geometry held.now.g) Data held.now.spare.now }
    requires entries_fit { EntriesFit (geometry held.now.g) cache.now used }
    requires valid_value { valid ≡ valid_in (geometry held.now.g) Data held.now.spare.now }
    ensures { Decides result (CurrentPlaces (geometry held.now.g)
        (parts held.now.chip.now held.now.spare.now held.now.directory.now cache.now used)) }
{
    let n = used as usize;
    let stored = held.tally_stored();
    let has = held.tally_cached(cache, n);
    let hides = held.tally_hidden(cache, n);
    sums_agree(stored, has, hides, held.g.l as usize, valid)
}

// Rule 6 with rule 2 of the data region, where rules 1, 4 and 5 hold.
pub fn places_hold(
    g: Geometry,
    chip: &[u32],
    spare: &[u32],
    directory: &[u32],
    cache: &[u32],
    used: u32,
    valid: usize,
) -> bool
    requires accepted { Accepted (geometry g) }
    requires lengths_fit { LengthsFit (geometry g) chip.now spare.now directory.now cache.now }
    requires owners_fit { OwnersFit (geometry g) Data spare.now }
    requires directory_names { DirectoryNames (geometry g) spare.now directory.now }
    requires entries_fit { EntriesFit (geometry g) cache.now used }
    requires valid_value { valid ≡ valid_in (geometry g) Data spare.now }
    ensures { Decides result (OwnersDiffer (geometry g) Data spare.now × PlacesHold (geometry g)
        (parts chip.now spare.now directory.now cache.now used)) }
{
    let held = Held {
        g,
        chip,
        spare,
        directory,
    };
    current_places(&held, cache, used, valid) && held.none_past()
}
