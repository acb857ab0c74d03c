// Rules 1 and 3, of a region with its open block and next offset, in one walk over the region's blocks: what is found of a block's pages
// tells all that the rules ask, and the block's number for the census. The valid pages, which rules 4 and 6 ask, are counted on the way.
// Any open block and offset may come: both are bounded before they lead anywhere.
ghost use Rattle.std.specs.Prelude.{◌≡◌, true, ◌&&◌, ◌+◌, ◌*◌, ◌≤◌, ◌<◌, leb, ltb, length};
ghost use Rattle.scope.specs.Lent.{spare_words};
ghost use Rattle.scope.specs.Counting.{all, count};
ghost use Rattle.scope.specs.Geometry.{Accepted, most_pages_in_block};
ghost use Rattle.flash.specs.Owners.{valid_in};
ghost use Rattle.lent.specs.Model.{geometry, region, small as small-record};
ghost use Rattle.survey.specs.Blocks.{open_fits, rule_3};
ghost use Rattle.survey.specs.Census.{Taken, TakenIn};
ghost use Rattle.survey.specs.Survey.{Surveyed, Reaches, PagesAndBlocks, rules, row_fits, row_valid};

use crate::area::Area;
use geometry::translation_pages;
use lent::{ERASED, Geometry, Record, Region};
use words::states::count_state;

impl Area<'_> {
    // The open block's pages before the next offset are programmed, the others erased.
    fn open_fits(&self, opened: usize, offset: usize) -> bool
        requires opened_inside { opened < self.now.first + self.now.n }
        requires offset_inside { offset ≤ self.now.p }
        ensures { result ≡ open_fits self.now.p self.now.spare.now opened offset }
    {
        let first = opened * self.p;
        let rest = self.p - offset;
        count_state(self.spare, first, offset, ERASED) == 0
            && count_state(self.spare, first + offset, rest, ERASED) == rest
    }

    // The same of any numbers: the open block is one of these, and the offset no more than its pages.
    fn opens_at(&self, opened: usize, offset: usize) -> bool
        ensures { result ≡ (leb self.now.first opened && ltb opened (self.now.first + self.now.n) && leb offset self.now.p
            && open_fits self.now.p self.now.spare.now opened offset) }
    {
        (self.first..self.first + self.n).contains(&opened)
            && offset <= self.p
            && self.open_fits(opened, offset)
    }

    // The walk over the blocks. Every block but the open one is wholly erased or has no erased page, and there is one of the first kind:
    // the erased pages of these blocks number more than 0. Every page fits. A block's pages are few, so that its number is in range.
    fn walk(&self, opened: usize, census: &mut [u32]) -> Option<usize>
        requires few_pages { self.now.p ≤ most_pages_in_block }
        requires in_census { self.now.first + self.now.n ≤ length census.old }
        ensures { Surveyed result (rules self.now.w self.now.limit self.now.p self.now.first self.now.chip.now self.now.spare.now opened self.now.n ≡ true)
            (count (self.now.n * self.now.p) (row_valid self.now.p self.now.first self.now.spare.now))
            (Taken self.now.p self.now.first self.now.n self.now.spare.now census.old census.new) }
    {
        let mut total = 0;
        let mut valid = 0;
        for i in 0..self.n {
            let b = self.first + i;
            let Ok(block) = self.look(b) else {
                return None;
            };
            let erased = if b == opened { 0 } else { block.erased };
            if erased != self.p && erased != 0 {
                return None;
            }
            total += erased;
            valid += block.valid;
            census[b] = block.number();
        }
        if total == 0 {
            return None;
        }
        Some(valid)
    }

    // Both rules.
    fn survey(&self, opened: usize, offset: usize, census: &mut [u32]) -> Option<usize>
        requires few_pages { self.now.p ≤ most_pages_in_block }
        requires in_census { self.now.first + self.now.n ≤ length census.old }
        ensures { Surveyed result
            (rule_3 self.now.p self.now.first self.now.n self.now.spare.now opened offset
            && all (self.now.n * self.now.p) (row_fits self.now.w self.now.limit self.now.p self.now.first self.now.chip.now self.now.spare.now) ≡ true)
            (count (self.now.n * self.now.p) (row_valid self.now.p self.now.first self.now.spare.now))
            (Taken self.now.p self.now.first self.now.n self.now.spare.now census.old census.new) }
    {
        if !self.opens_at(opened, offset) {
            return None;
        }
        self.walk(opened, census)
    }
}

// Both rules for a region: None where one is broken, else how many of its pages are valid.
pub fn region_fits(
    g: Geometry,
    r: Region,
    chip: &[u32],
    spare: &[u32],
    small: Record,
    census: &mut [u32],
) -> Option<usize>
    requires accepted { Accepted (geometry g) }
    requires reaches { Reaches (geometry g) (region r) chip.now spare.now census.old }
    ensures { Surveyed result (PagesAndBlocks (geometry g) (region r) chip.now spare.now (small-record small))
        (valid_in (geometry g) (region r) spare.now)
        (TakenIn (geometry g) (region r) spare.now census.old census.new) }
{
    let (first, n, limit, opened, offset) = match r {
        Region::Data => (0, g.d, g.l, small.open_data, small.data_offset),
        Region::Translation => (
            g.d,
            g.t,
            translation_pages(g) as u32,
            small.open_translation,
            small.translation_offset,
        ),
    };
    let area = Area {
        chip,
        spare,
        w: g.w as usize,
        limit,
        p: g.p as usize,
        first: first as usize,
        n: n as usize,
    };
    area.survey(opened as usize, offset as usize, census)
}
