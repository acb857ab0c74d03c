// Rule 1, page by page: its state, its owner, and, where it is erased, its words. These are swept without leaving the loop at a word, so
// that a fresh chip is checked at the speed of reading it. A block that has no erased page is told by counts, without a branch.
ghost use Rattle.std.specs.Prelude.{◌≡◌, true, false, ◌&&◌, ◌+◌, ◌*◌, ◌≤◌, ◌<◌, length, MatchResult};
ghost use Rattle.scope.specs.Counting.{all, count};
ghost use Rattle.scope.specs.Lent.{is_valid, spare_words};
ghost use Rattle.survey.specs.Pages.{blank, rule_1, programmed_fits, programmed_at, Looked};

use crate::area::Area;
use lent::{ERASED, INVALID, SPARE_WORDS, VALID};
use words::census::ERASED_PAGE;
use words::erased::only_erased;
use words::spare::state_at;
use words::states::count_state;

// Whether a page with this state and owner is programmed as the rule asks, its owner below `limit`.
fn fits_programmed(state: u32, owner: u32, limit: u32) -> bool
    ensures { result ≡ programmed_fits limit state owner }
{
    owner < limit && (state == VALID || state == INVALID)
}

// Page p of w words has only erased words. Never inlined: where pages or blocks are small, a walk that keeps the places of this sweep for
// each block takes a quarter longer.
#[inline(never)]
fn is_blank(chip: &[u32], w: usize, p: usize) -> bool
    requires { p * w + w ≤ length chip.now }
    ensures { result ≡ blank w chip.now p }
{
    let at = p * w;
    only_erased(&chip[at..at + w])
}

// How many pages are programmed as the rule asks, and how many are valid. In 32 bits, as the words are, so that the compiler counts
// several pages at a time.
#[derive(Drop)]
struct Programmed {
    fit: u32,
    valid: u32,
}

// What is found of a block's pages, and other rules ask: how many are erased and valid.
#[derive(Drop)]
pub struct Block {
    pub erased: usize,
    pub valid: usize,
}

impl Area<'_> {
    // The rule for page `page`.
    fn page_fits(&self, page: usize) -> bool
        requires { page < (self.now.first + self.now.n) * self.now.p }
        ensures { result ≡ rule_1 self.now.w self.now.limit self.now.chip.now self.now.spare.now page }
    {
        let state = self.spare[page * SPARE_WORDS];
        let owner = self.spare[page * SPARE_WORDS + 1];
        if state == ERASED {
            return is_blank(self.spare, SPARE_WORDS, page) && is_blank(self.chip, self.w, page);
        }
        fits_programmed(state, owner, self.limit)
    }

    // The rule for each page of block b. Never inlined, for the same reason: only an open or a broken block comes here.
    #[inline(never)]
    fn pages_fit(&self, b: usize) -> bool
        requires { b < self.now.first + self.now.n }
        ensures { result ≡ all self.now.p (λ i. rule_1 self.now.w self.now.limit self.now.chip.now self.now.spare.now (b * self.now.p + i)) }
    {
        let first = b * self.p;
        for i in 0..self.p {
            if !self.page_fits(first + i) {
                return false;
            }
        }
        true
    }

    // The counts of block b.
    fn count_programmed(&self, b: usize) -> Programmed
        requires { b < self.now.first + self.now.n }
        ensures { (result.fit ≡ count self.now.p (λ i. programmed_at self.now.limit self.now.spare.now (b * self.now.p + i)))
            × (result.valid ≡ count self.now.p (λ i. is_valid (b * self.now.p + i) self.now.spare.now)) }
    {
        let first = b * self.p;
        let mut fit = 0;
        let mut valid = 0;
        for i in 0..self.p {
            let state = self.spare[(first + i) * SPARE_WORDS];
            let owner = self.spare[(first + i) * SPARE_WORDS + 1];
            fit += u32::from(fits_programmed(state, owner, self.limit));
            valid += u32::from(state == VALID);
        }
        Programmed { fit, valid }
    }

    // Block b is wholly erased, in the spare and on the chip. Of a block whose first page is not, no more is read.
    fn wholly_erased(&self, b: usize) -> bool
        requires { b < self.now.first + self.now.n }
        ensures { result ≡ (blank (self.now.p * spare_words) self.now.spare.now b && blank (self.now.p * self.now.w) self.now.chip.now b) }
    {
        state_at(self.spare, b * self.p) == ERASED
            && is_blank(self.spare, self.p * SPARE_WORDS, b)
            && is_blank(self.chip, self.p * self.w, b)
    }

    // Block b: Ok where the rule holds of each of its pages, else Err, with the same counts. Most blocks are wholly erased, and one sweep
    // tells, or have no erased page, and the counts tell; only where they are neither, as the open block, each page is looked at.
    pub fn look(&self, b: usize) -> Result<Block, Block>
        requires { b < self.now.first + self.now.n }
        ensures { MatchResult result
            (Looked self.now.w self.now.limit self.now.chip.now self.now.spare.now (b * self.now.p) self.now.p true)
            (Looked self.now.w self.now.limit self.now.chip.now self.now.spare.now (b * self.now.p) self.now.p false) }
    {
        if self.wholly_erased(b) {
            return Ok(Block {
                erased: self.p,
                valid: 0,
            });
        }
        let counts = self.count_programmed(b);
        let valid = counts.valid as usize;
        if counts.fit as usize == self.p {
            return Ok(Block { erased: 0, valid });
        }
        let erased = count_state(self.spare, b * self.p, self.p, ERASED);
        let found = Block { erased, valid };
        if !self.pages_fit(b) {
            return Err(found);
        }
        Ok(found)
    }
}

impl Block {
    // Its number in the census.
    pub(crate) fn number(&self) -> u32
        requires { (self.now.valid < 65536) × (self.now.erased < 65536) }
        ensures { result ≡ self.now.valid + 256 * self.now.erased }
    {
        self.valid as u32 + ERASED_PAGE * self.erased as u32
    }
}
