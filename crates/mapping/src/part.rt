// A part of a map and the counts of its words, by runs of those that name pages and of those that don't.
ghost use Rattle.std.specs.Prelude.{◌+◌, ◌≤◌, length};
ghost use Rattle.scope.specs.Geometry.{most_pages};

use crate::owners::Owners;
use crate::tally::Tally;
use lent::NONE;
use words::erased::erased_run;
use words::states::bit;

// Words of a map for the owners from `from` on, each of which should name its owner's page. Neither are more than a chip has pages.
#[derive(Clone, Copy)]
pub struct Part<'a> {
    pub words: &'a [u32],
    pub from: usize,
    pub owners: Owners<'a>,
    pub ghost few: { from + length words.now ≤ most_pages },
}

// How far a run of words reaches, and how many of them count: of words that name pages those that name the page of their owner, of others
// those that are none.
#[derive(Drop)]
pub(crate) struct Run {
    pub at: usize,
    pub found: usize,
}

impl Part<'_> {
    ghost use Rattle.std.specs.Prelude.{◌≡◌, true, cond, ◌<◌, get_or};
    ghost use Rattle.scope.specs.Counting.{count};
    ghost use Rattle.scope.specs.Lent.{none};
    ghost use Rattle.mapping.specs.Tally.{nothing, Tallied, RunCounted, NonesRun, Places, word_none};
    ghost use Rattle.mapping.specs.Part.{past, good};

    // 1 where word `at`, which names a page, names that of its owner, else 0.
    fn good_at(&self, at: usize) -> usize
        requires { (at < length self.now.words.now) × (get_or self.now.words.now at none < past self.now) }
        ensures { result ≡ cond (good self.now at) 1 0 }
    {
        self.owners
            .owned((self.from + at) as u32, self.words[at] as usize)
    }

    // Whether the four words from `at` on all name pages.
    fn four_places(&self, at: usize) -> bool
        requires { at + 4 ≤ length self.now.words.now }
        ensures { result ≡ true → Places self.now.words.now at 4 (past self.now) }
    {
        let end = self.owners.first + self.owners.n;
        (self.words[at] as usize) < end
            && (self.words[at + 1] as usize) < end
            && (self.words[at + 2] as usize) < end
            && (self.words[at + 3] as usize) < end
    }

    // How many of these name the page of their owner.
    fn four_good(&self, at: usize) -> usize
        requires { (at + 4 ≤ length self.now.words.now) × Places self.now.words.now at 4 (past self.now) }
        ensures { result ≡ count 4 (λ j. good self.now (at + j)) }
    {
        let a = self.good_at(at);
        let b = self.good_at(at + 1);
        let c = self.good_at(at + 2);
        let d = self.good_at(at + 3);
        a + b + c + d
    }

    // As far from word i on as four words at a time name pages. Four a turn, so that the loop's own work is paid once for four, and more
    // pages are asked for before the first has come.
    fn run_of_fours(&self, i: usize) -> Run
        requires { i ≤ length self.now.words.now }
        ensures { RunCounted i result.at (length self.now.words.now) (word_none self.now.words.now) 0 (good self.now) result.found }
    {
        let mut found = 0;
        let mut at = i;
        // Kept: (d) a turn takes four words or ends the run, and their place tells the owners: an iterator would need the place beside it.
        while at + 4 <= self.words.len() && self.four_places(at) {
            found += self.four_good(at);
            at += 4;
        }
        Run { at, found }
    }

    // The run from word i on of words that all name pages.
    fn run_of_places(&self, i: usize) -> Run
        requires { i ≤ length self.now.words.now }
        ensures counted { RunCounted i result.at (length self.now.words.now) (word_none self.now.words.now) 0 (good self.now) result.found }
        ensures stops { result.at < length self.now.words.now → past self.now ≤ get_or self.now.words.now result.at none }
    {
        let end = self.owners.first + self.owners.n;
        let fours = self.run_of_fours(i);
        let mut found = fours.found;
        for at in fours.at..self.words.len() {
            if end <= self.words[at] as usize {
                return Run { at, found };
            }
            found += self.good_at(at);
        }
        Run {
            at: self.words.len(),
            found,
        }
    }

    // The run from word i on of words that name none: word i itself, whatever it is, and those behind it that are none. They are swept,
    // not looked at: a fresh chip's directory has nothing else.
    fn run_of_nones(&self, i: usize) -> Run
        requires { i < length self.now.words.now }
        ensures { NonesRun self.now.words.now i result }
    {
        let nowhere = bit(self.words[i], NONE);
        let behind = i + 1;
        let at = erased_run(self.words, behind);
        Run {
            at,
            found: nowhere + (at - behind),
        }
    }

    // The counts of all its words. The words of a full chip name pages, one after the other: a run of them is counted apart from those that
    // name none, so that its loops hold little and the compiler keeps all of it in registers; of a copy, whose fields no loop reads anew.
    // Always inlined: of pages of two or three words a call for each costs a quarter of a check.
    #[inline(always)]
    pub fn tally(&self) -> Tally
        ensures { Tallied nothing result (length self.now.words.now) (word_none self.now.words.now) (good self.now) }
    {
        let part = *self;
        let mut sum = Tally::default();
        let mut i = 0;
        // Kept: (d) a turn goes as far as its runs do: no range steps so.
        while i < part.words.len() {
            let run = part.run_of_places(i);
            sum.good += run.found;
            i = run.at;
            if i < part.words.len() {
                let rest = part.run_of_nones(i);
                sum.nones += rest.found;
                i = rest.at;
            }
        }
        sum
    }
}
