// Operations on chip or spare alone, with what they count: a page read, marked or claimed, and what an update begins with. Each asks for
// what it touches and no more, and of a geometry that it is bounded: so they serve a chip that is the data region alone.
ghost use Rattle.std.specs.Prelude.{◌≡◌, ℕ, ◌+◌, ◌*◌, ◌≤◌, ◌<◌, length, set};
ghost use Rattle.scope.specs.Geometry.{pages};
ghost use Rattle.scope.specs.Lent.{Place, is_valid, spare_words, translation_word};
ghost use Rattle.scope.specs.Room.{read_page};
ghost use Rattle.scope.specs.Steps.{word_for};
ghost use Rattle.flash.specs.Bounded.{Bounded};
ghost use Rattle.lent.specs.Model.{geometry, small, region, entry};
ghost use Rattle.lent.specs.Shapes.{DoesByChip, RoomToCount};
ghost use Rattle.words.specs.Census.{Census};
ghost use Rattle.steps.specs.Lies.{ChipLent, SpareLent, next_page, HasNext};
ghost use Rattle.steps.specs.Chip.{Claimed, Begun, marked};

use crate::blocks::{next_offset, open_block, set_open};
use crate::census::{claim_page, mark_page};
use lent::{Entry, Geometry, NONE, Record, Region, VALID, Work};
use words::runs::{copy_out, copy_within, fill_erased};
use words::spare::state_at;

// The open block's next page.
pub fn next_page(rec: Record, g: Geometry, r: Region) -> u32
    requires { Bounded (geometry g) × HasNext (geometry g) (region r) (small rec) }
    ensures { result ≡ next_page (geometry g) (region r) (small rec) }
{
    open_block(rec, r) * g.p + next_offset(rec, r)
}

// In the translation page at q, the word of logical page l.
pub fn set_word(g: Geometry, q: u32, l: u32, place: u32, chip: &mut [u32])
    requires { ChipLent (geometry g) chip.old × (q < pages (geometry g)) }
    ensures { chip.new ≡ set chip.old (q * (geometry g).W + translation_word (geometry g) l) place }
{
    let w = g.w as usize;
    chip[q as usize * w + l as usize % w] = place;
}

// Where a page has gone, and its owner.
#[derive(Clone, Copy)]
pub struct Moved {
    pub owner: u32,
    pub page: u32,
}

// Whether page p is valid.
pub fn is_valid(p: u32, spare: &[u32]) -> bool
    requires { (p + 1) * spare_words ≤ length spare.now }
    ensures { result ≡ is_valid p spare.now }
{
    state_at(spare, p as usize) == VALID
}

// The former page is marked invalid, if there is one.
pub fn mark_old(g: Geometry, old: Entry, spare: &mut [u32], census: &mut [u32])
    requires spare_lent { SpareLent (geometry g) spare.old × ((p : ℕ) → entry old ≡ Place p → p < pages (geometry g)) }
    requires counted { Census (geometry g) spare.old census.old }
    ensures spare_after { spare.new ≡ marked (entry old) spare.old }
    ensures counted_after { Census (geometry g) spare.new census.new }
{
    let Entry::Place(p) = old else {
        return;
    };
    mark_page(g, p, spare, census);
}

// The open block's next page is claimed for an owner; its words are the caller's to store.
pub fn claim_next(
    work: &mut Work,
    g: Geometry,
    r: Region,
    owner: u32,
    spare: &mut [u32],
    census: &mut [u32],
) -> u32
    requires spare_lent { SpareLent (geometry g) spare.old × HasNext (geometry g) (region r) (small work.old.rec)
        × RoomToCount 1 work.old.counts }
    requires counted { Census (geometry g) spare.old census.old }
    ensures claimed { Claimed (geometry g) (region r) owner spare.old work.old result spare.new work.new }
    ensures counted_after { Census (geometry g) spare.new census.new }
{
    let b = open_block(work.rec, r);
    let offset = next_offset(work.rec, r);
    let q = next_page(work.rec, g, r);
    claim_page(g, b, offset, q, owner, spare, census);
    set_open(&mut work.rec, r, b, offset + 1);
    work.counts.add_program();
    q
}

// Page p is read into a buffer.
pub fn read_page(work: &mut Work, g: Geometry, p: u32, chip: &[u32], buffer: &mut [u32])
    requires on_chip { ChipLent (geometry g) chip.now × (p < pages (geometry g)) }
    requires buffer_long { (length buffer.old ≡ (geometry g).W) × RoomToCount 1 work.old.counts }
    ensures { DoesByChip (read_page (geometry g) p) chip.now work.old buffer.new work.new }
{
    let w = g.w as usize;
    copy_out(buffer, chip, p as usize * w);
    work.counts.add_read();
}

// The word for logical page l, of the translation page that an entry names; none, with no read, where it names none.
pub fn word_for(work: &mut Work, g: Geometry, l: u32, page: Entry, chip: &[u32]) -> u32
    requires on_chip { ChipLent (geometry g) chip.now × ((q : ℕ) → entry page ≡ Place q → q < pages (geometry g)) }
    requires countable { RoomToCount 1 work.old.counts }
    ensures { DoesByChip (word_for (geometry g) l (entry page)) chip.now work.old result work.new }
{
    let Entry::Place(q) = page else {
        return NONE;
    };
    let w = g.w as usize;
    let word = chip[q as usize * w + l as usize % w];
    work.counts.add_read();
    word
}

// The words that an update of a translation page begins with are put into the open block's next page: those of the former page, which
// are read, or none throughout.
pub fn begin_next(work: &mut Work, g: Geometry, r: Region, former: Entry, chip: &mut [u32])
    requires on_chip { ChipLent (geometry g) chip.old × ((p : ℕ) → entry former ≡ Place p → p < pages (geometry g)) }
    requires has_next { HasNext (geometry g) (region r) (small work.old.rec) × RoomToCount 1 work.old.counts }
    ensures { Begun (geometry g) (region r) (entry former) chip.old work.old chip.new work.new }
{
    let w = g.w as usize;
    let q = next_page(work.rec, g, r) as usize;
    let Entry::Place(p) = former else {
        fill_erased(chip, q * w, w);
        return;
    };
    copy_within(chip, p as usize * w, q * w, w);
    work.counts.add_read();
}
