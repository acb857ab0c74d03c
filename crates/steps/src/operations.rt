// Flash as the steps work on it, and its operations: a page programmed or moved, a block erased, and those of crate::chip on its parts.
ghost use Rattle.std.specs.Prelude.{◌≡◌, ℕ, ◌≤◌, ◌<◌, length};
ghost use Rattle.scope.specs.Geometry.{blocks, pages};
ghost use Rattle.scope.specs.Lent.{invalid, Place, is_valid, owner_of, with_state};
ghost use Rattle.scope.specs.Operations.{Erase, perform};
ghost use Rattle.scope.specs.Room.{read_page, program_next};
ghost use Rattle.scope.specs.Steps.{word_for};
ghost use Rattle.lent.specs.Model.{geometry, small, region, entry};
ghost use Rattle.lent.specs.Shapes.{DoesByChip, RoomToCount};
ghost use Rattle.steps.specs.Lies.{HasNext};
ghost use Rattle.steps.specs.Chip.{Claimed, Begun, marked, relocate};
ghost use Rattle.steps.specs.Flash.{FlashDoes, SameFlash, OnlySpare, OnlyChip};

use crate::Flash;
use crate::census::{erase_block, mark_page};
use crate::chip::{
    Moved, begin_next, claim_next, is_valid, mark_old, next_page, read_page, word_for,
};
use lent::{Entry, Region, Work};
use words::runs::{copy_in, copy_within, fill_erased};
use words::spare::owner_at;

impl Flash<'_> {
    // Block b is erased.
    pub fn erase(&mut self, work: &mut Work, b: u32)
        requires { (b < blocks (geometry self.old.g)) × RoomToCount 1 work.old.counts }
        ensures { FlashDoes (perform (geometry self.old.g) (Erase b)) self.old work.old tt self.new work.new }
    {
        let p = self.g.p as usize;
        let w = self.g.w as usize;
        fill_erased(self.chip, b as usize * p * w, p * w);
        erase_block(self.g, b, self.spare, self.census);
        work.counts.add_erase();
    }

    // Whether page p is valid.
    pub fn is_valid(&self, p: u32) -> bool
        requires { p < pages (geometry self.now.g) }
        ensures { result ≡ is_valid p self.now.spare.now }
    {
        is_valid(p, self.spare)
    }

    // Page p's owner.
    fn owner(&self, p: u32) -> u32
        requires { p < pages (geometry self.now.g) }
        ensures { result ≡ owner_of p self.now.spare.now }
    {
        owner_at(self.spare, p as usize)
    }

    // Page p is marked invalid.
    pub fn mark(&mut self, p: u32)
        requires { p < pages (geometry self.old.g) }
        ensures spare_after { self.new.spare.now ≡ with_state p invalid self.old.spare.now }
        ensures only_spare { OnlySpare self.old self.new }
    {
        mark_page(self.g, p, self.spare, self.census);
    }

    // The former page is, if there is one.
    pub fn mark_old(&mut self, old: Entry)
        requires { (p : ℕ) → entry old ≡ Place p → p < pages (geometry self.old.g) }
        ensures spare_after { self.new.spare.now ≡ marked (entry old) self.old.spare.now }
        ensures only_spare { OnlySpare self.old self.new }
    {
        mark_old(self.g, old, self.spare, self.census);
    }

    // The open block's next page is claimed for an owner.
    pub fn claim_next(&mut self, work: &mut Work, r: Region, owner: u32) -> u32
        requires { HasNext (geometry self.old.g) (region r) (small work.old.rec) × RoomToCount 1 work.old.counts }
        ensures claimed { Claimed (geometry self.old.g) (region r) owner self.old.spare.now work.old result self.new.spare.now work.new }
        ensures only_spare { OnlySpare self.old self.new }
    {
        claim_next(work, self.g, r, owner, self.spare, self.census)
    }

    // It is programmed with an owner and a page's words.
    pub fn program_next(&mut self, work: &mut Work, r: Region, owner: u32, words: &[u32]) -> u32
        requires has_next { HasNext (geometry self.old.g) (region r) (small work.old.rec) × RoomToCount 1 work.old.counts }
        requires words_long { length words.now ≡ (geometry self.old.g).W }
        ensures { FlashDoes (program_next (geometry self.old.g) (region r) owner words.now) self.old work.old result self.new work.new }
    {
        let w = self.g.w as usize;
        let q = next_page(work.rec, self.g, r) as usize;
        copy_in(self.chip, q * w, words);
        self.claim_next(work, r, owner)
    }

    // Page p moves to the open block's next page, with its owner, and is marked invalid.
    pub fn relocate(&mut self, work: &mut Work, r: Region, p: u32) -> Moved
        requires on_chip { p < pages (geometry self.old.g) }
        requires has_next { HasNext (geometry self.old.g) (region r) (small work.old.rec) × RoomToCount 2 work.old.counts }
        ensures { FlashDoes (relocate (geometry self.old.g) (region r) p) self.old work.old
            (record { logical = result.owner; physical = result.page }) self.new work.new }
    {
        let w = self.g.w as usize;
        let from = p as usize;
        let q = next_page(work.rec, self.g, r) as usize;
        copy_within(self.chip, from * w, q * w, w);
        let owner = self.owner(p);
        work.counts.add_read();
        let page = self.claim_next(work, r, owner);
        self.mark(p);
        Moved { owner, page }
    }

    // Page p is read into a buffer.
    pub fn read_page(&self, work: &mut Work, p: u32, buffer: &mut [u32])
        requires on_chip { p < pages (geometry self.now.g) }
        requires buffer_long { (length buffer.old ≡ (geometry self.now.g).W) × RoomToCount 1 work.old.counts }
        ensures { DoesByChip (read_page (geometry self.now.g) p) self.now.chip.now work.old buffer.new work.new }
    {
        read_page(work, self.g, p, self.chip, buffer);
    }

    // The word for logical page l, of the translation page that an entry names.
    pub fn word_for(&self, work: &mut Work, l: u32, page: Entry) -> u32
        requires on_chip { (q : ℕ) → entry page ≡ Place q → q < pages (geometry self.now.g) }
        requires countable { RoomToCount 1 work.old.counts }
        ensures { DoesByChip (word_for (geometry self.now.g) l (entry page)) self.now.chip.now work.old result work.new }
    {
        word_for(work, self.g, l, page, self.chip)
    }

    // The words that an update of a translation page begins with are put into the open block's next page.
    pub fn begin_next(&mut self, work: &mut Work, r: Region, former: Entry)
        requires on_chip { (p : ℕ) → entry former ≡ Place p → p < pages (geometry self.old.g) }
        requires has_next { HasNext (geometry self.old.g) (region r) (small work.old.rec) × RoomToCount 1 work.old.counts }
        ensures begun { Begun (geometry self.old.g) (region r) (entry former) self.old.chip.now work.old self.new.chip.now work.new }
        ensures only_chip { OnlyChip self.old self.new }
    {
        begin_next(work, self.g, r, former, self.chip);
    }
}
