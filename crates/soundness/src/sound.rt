// The whole state: the seven rules, each with what the earlier ones give. The first that fails ends the test. They come in document 01's
// order but for rule 2, which rules 4 and 6 decide with their own.
ghost use Rattle.std.specs.Prelude.{◌≡◌, true, ◌≤◌, length};
ghost use Rattle.scope.specs.Decisions.{sound};
ghost use Rattle.scope.specs.Geometry.{Accepted, blocks};
ghost use Rattle.scope.specs.Lent.{chip_size, spare_size, directory_size, State, with_flash, with_directory, with_cache};
ghost use Rattle.scope.specs.Laws.Decides.{Decides};
ghost use Rattle.scope.specs.Regions.{Data};
ghost use Rattle.scope.specs.Sound.{DirectoryNames};
ghost use Rattle.flash.specs.Lengths.{LengthsFit};
ghost use Rattle.flash.specs.Owners.{OwnersFit, valid_in};
ghost use Rattle.lent.specs.Model.{geometry, with_rec, small};
ghost use Rattle.words.specs.Census.{Census};
ghost use Rattle.words.specs.Filter.{Filter};
ghost use Rattle.survey.specs.Survey.{Surveyed};
ghost use Rattle.soundness.specs.Whole.{FlashRules, CacheRules};

use lent::{FILTER_WORDS, Geometry, Record, Region};
use mapping::directory::directory_names;
use mapping::entries::{entries_fit, protected_fit};
use mapping::places::places_hold;
use mapping::stored::unchanged_agree;
use survey::blocks::region_fits;

// Rules 1 to 4, of chip, spare and directory: None where one is broken, else how many data pages are valid, and the census is taken.
fn flash_sound(
    g: Geometry,
    chip: &[u32],
    spare: &[u32],
    directory: &[u32],
    rec: Record,
    census: &mut [u32],
) -> Option<usize>
    requires accepted { Accepted (geometry g) }
    requires chip_len { length chip.now ≡ chip_size (geometry g) }
    requires spare_len { length spare.now ≡ spare_size (geometry g) }
    requires directory_len { length directory.now ≡ directory_size (geometry g) }
    requires g_in_bounds { blocks (geometry g) ≤ length census.old }
    ensures { Surveyed result (FlashRules (geometry g) chip.now spare.now directory.now (small rec))
        (valid_in (geometry g) Data spare.now)
        (Census (geometry g) spare.now census.new) }
{
    let valid = region_fits(g, Region::Data, chip, spare, rec, census)?;
    let translations = region_fits(g, Region::Translation, chip, spare, rec, census)?;
    directory_names(g, spare, directory, translations).then_some(valid)
}

// Rules 5 to 7, of the cache, its places and its entries' words; where they hold, the filter has the cached pages.
fn cache_sound(
    g: Geometry,
    chip: &[u32],
    spare: &[u32],
    directory: &[u32],
    cache: &[u32],
    rec: Record,
    valid: usize,
    filter: &mut [u64; FILTER_WORDS],
) -> bool
    requires accepted { Accepted (geometry g) }
    requires lengths_fit { LengthsFit (geometry g) chip.now spare.now directory.now cache.now }
    requires owners_fit { OwnersFit (geometry g) Data spare.now }
    requires directory_names { DirectoryNames (geometry g) spare.now directory.now }
    requires valid_value { valid ≡ valid_in (geometry g) Data spare.now }
    ensures decides { Decides result
        (CacheRules (geometry g) chip.now spare.now directory.now cache.now (small rec)) }
    ensures filter { result ≡ true → Filter cache.now rec.used filter.new }
{
    let used = rec.used;
    protected_fit(g, rec)
        && entries_fit(g, cache, used, filter)
        && places_hold(g, chip, spare, directory, cache, used, valid)
        && unchanged_agree(g, chip, directory, cache, used)
}

// Whether a state is sound, for any words in the slices, any numbers in the record and whatever else it holds. Where it is, the census
// is taken and the filter has the cached pages.
pub fn is_sound(
    g: Geometry,
    chip: &[u32],
    spare: &[u32],
    directory: &[u32],
    cache: &[u32],
    rec: Record,
    census: &mut [u32],
    filter: &mut [u64; FILTER_WORDS],
) -> bool
    requires accepted { Accepted (geometry g) }
    requires lengths_fit { LengthsFit (geometry g) chip.now spare.now directory.now cache.now }
    requires g_in_bounds { blocks (geometry g) ≤ length census.old }
    ensures value { (s : State) → result ≡ sound (geometry g) (with_flash chip.now spare.now
        (with_directory directory.now (with_cache cache.now (with_rec rec s)))) }
    ensures census { result ≡ true → Census (geometry g) spare.now census.new }
    ensures filter { result ≡ true → Filter cache.now rec.used filter.new }
{
    let Some(valid) = flash_sound(g, chip, spare, directory, rec, census) else {
        return false;
    };
    cache_sound(g, chip, spare, directory, cache, rec, valid, filter)
}
