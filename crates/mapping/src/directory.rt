// Rule 4: the directory names, for each translation page number, the valid page with that owner, and none where there isn't one. Rule 2
// of the translation region comes with it.
ghost use Rattle.std.specs.Prelude.{◌≡◌, ◌+◌, ◌*◌, ◌≤◌, length};
ghost use Rattle.scope.specs.Geometry.{Accepted, most_pages};
ghost use Rattle.scope.specs.Laws.Decides.{Decides};
ghost use Rattle.scope.specs.Lent.{spare_words, spare_size, directory_size};
ghost use Rattle.scope.specs.Regions.{Translation};
ghost use Rattle.scope.specs.Sound.{OwnersDiffer, DirectoryNames};
ghost use Rattle.flash.specs.Owners.{OwnersFit, valid_in};
ghost use Rattle.lent.specs.Model.{geometry};
ghost use Rattle.mapping.specs.Maps.{map_names};

use crate::owners::Owners;
use crate::part::Part;
use lent::Geometry;

// Whether the words of a map, one for each owner of the n pages from `first` on, are none or name a valid page of their own, and of these there
// are as many as valid pages. What rule 1 says of the owners makes that, for either region, the rule of the map and rule 2.
pub fn map_names<'a>(first: usize, n: usize, valid: usize, spare: &'a [u32], map: &'a [u32]) -> bool
    requires spare_words_in_bounds { ((first + n) * spare_words ≤ length spare.now) × (first + n ≤ most_pages) }
    requires map_len_bound { length map.now ≤ most_pages }
    ensures { result ≡ map_names first n valid spare.now map.now }
{
    let owners = Owners { spare, first, n };
    let part = Part {
        words: map,
        from: 0,
        owners,
    };
    let sum = part.tally();
    sum.nones + sum.good == map.len() && sum.good == valid
}

// Both rules.
pub fn directory_names(g: Geometry, spare: &[u32], directory: &[u32], valid: usize) -> bool
    requires accepted { Accepted (geometry g) }
    requires spare_len { length spare.now ≡ spare_size (geometry g) }
    requires directory_len { length directory.now ≡ directory_size (geometry g) }
    requires owners_fit { OwnersFit (geometry g) Translation spare.now }
    requires valid_value { valid ≡ valid_in (geometry g) Translation spare.now }
    ensures { Decides result (OwnersDiffer (geometry g) Translation spare.now
        × DirectoryNames (geometry g) spare.now directory.now) }
{
    let p = g.p as usize;
    map_names(g.d as usize * p, g.t as usize * p, valid, spare, directory)
}
