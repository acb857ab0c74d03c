// A page's state, changed in the spare and in the census at once. Crate words says what the census's numbers stand for.
ghost use Rattle.std.specs.Prelude.{◌≡◌, ◌+◌, ◌-◌, ◌≤◌, ◌<◌, ◌*◌, length, get_or, set};
ghost use Rattle.scope.specs.Geometry.{blocks, pages};
ghost use Rattle.scope.specs.Lent.{invalid, with_state, with_claim, with_erased};
ghost use Rattle.scope.specs.Regions.{page_in};
ghost use Rattle.lent.specs.Model.{geometry};
ghost use Rattle.words.specs.Census.{Census, weight};
ghost use Rattle.steps.specs.Lies.{SpareLent};

use lent::{ERASED, Geometry, INVALID, VALID};
use words::census::ERASED_PAGE;
use words::spare::{claim, erase_pages, set_state, state_at};

// What a page in this state adds.
fn weight(state: u32) -> u32
    ensures { result ≡ weight state }
{
    if state == VALID {
        return 1;
    }
    if state == ERASED { ERASED_PAGE } else { 0 }
}

// A page of block b goes from one state to another.
fn restate(census: &mut [u32], b: usize, old: u32, new: u32)
    requires { (b < length census.old) × (weight old ≤ get_or census.old b 0) × (get_or census.old b 0 ≤ 16640) }
    ensures { census.new ≡ set census.old b (get_or census.old b 0 + weight new - weight old) }
{
    let number = census[b];
    census[b] = number + weight(new) - weight(old);
}

// Page p is marked invalid.
pub fn mark_page(g: Geometry, p: u32, spare: &mut [u32], census: &mut [u32])
    requires spare_lent { SpareLent (geometry g) spare.old × (p < pages (geometry g)) }
    requires counted { Census (geometry g) spare.old census.old }
    ensures spare_after { spare.new ≡ with_state p invalid spare.old }
    ensures counted_after { Census (geometry g) spare.new census.new }
{
    let at = p as usize;
    restate(census, (p / g.p) as usize, state_at(spare, at), INVALID);
    set_state(spare, at, INVALID);
}

// Page q, the one at an offset in block b, is claimed for an owner.
pub(crate) fn claim_page(
    g: Geometry,
    b: u32,
    offset: u32,
    q: u32,
    owner: u32,
    spare: &mut [u32],
    census: &mut [u32],
)
    requires spare_lent { SpareLent (geometry g) spare.old × (b < blocks (geometry g)) × (offset < g.p) }
    requires is_page { q ≡ page_in (geometry g) b offset }
    requires counted { Census (geometry g) spare.old census.old }
    ensures spare_after { spare.new ≡ with_claim q owner spare.old }
    ensures counted_after { Census (geometry g) spare.new census.new }
{
    let at = q as usize;
    restate(census, b as usize, state_at(spare, at), VALID);
    claim(spare, at, owner);
}

// All pages of block b are erased.
pub(crate) fn erase_block(g: Geometry, b: u32, spare: &mut [u32], census: &mut [u32])
    requires spare_lent { SpareLent (geometry g) spare.old × (b < blocks (geometry g)) }
    requires counted { Census (geometry g) spare.old census.old }
    ensures spare_after { spare.new ≡ with_erased (b * g.p) g.p spare.old }
    ensures counted_after { Census (geometry g) spare.new census.new }
{
    let p = g.p as usize;
    erase_pages(spare, b as usize * p, p);
    census[b as usize] = ERASED_PAGE * g.p;
}
