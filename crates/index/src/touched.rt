// What waits, by translation pages: all that is of one of them taken out and set, and the lowest of those that are left. What waits is lent,
// three words to a mapping: the logical page, the physical page, and the translation page, which is reckoned once and looked at many times.
ghost use Rattle.std.specs.Prelude.{◌≡◌, ◌*◌, ◌<◌, ◌≤◌, ◌⊎◌, length};
ghost use Rattle.std.proofs.lemmas.List.Edits.{sets};
ghost use Rattle.scope.specs.Geometry.{most_pages_in_block, pages};
ghost use Rattle.scope.specs.Lent.{words_of, translation_page};
ghost use Rattle.scope.specs.Steps.{of_page, set_words};
ghost use Rattle.lent.specs.Model.{geometry};
ghost use Rattle.steps.specs.Lies.{ChipLent};
ghost use Rattle.copying.specs.Moves.{moves_words, first_moves};
ghost use Rattle.index.specs.Moves.{WaitsIn, waits_too};
ghost use Rattle.index.specs.Taking.{Lowest, LeftAfter, TakenOut, Stays};

use copying::copies::{MOVE_WORDS, MOVES_WORDS};
use lent::Geometry;
use steps::chip::set_word;

// What is left to settle: how many mappings, and the lowest of their translation pages.
#[derive(Drop)]
pub struct Left {
    pub n: usize,
    pub lowest: u32,
}

// One more waits, behind n others.
pub fn put_behind(
    n: usize,
    logical: u32,
    physical: u32,
    page: u32,
    waiting: &mut [u32; MOVES_WORDS],
)
    requires { (n < most_pages_in_block) × (length waiting.old ≡ moves_words) }
    ensures { waiting.new ≡ waits_too n logical physical page waiting.old }
{
    waiting[n * MOVE_WORDS] = logical;
    waiting[n * MOVE_WORDS + 1] = physical;
    waiting[n * MOVE_WORDS + 2] = page;
}

impl Left {
    // A mapping of translation page t: its word is set in the page at q. One of another page is left, behind those that are.
    fn take(
        &mut self,
        g: Geometry,
        q: u32,
        t: u32,
        logical: u32,
        physical: u32,
        page: u32,
        waiting: &mut [u32; MOVES_WORDS],
        chip: &mut [u32],
    )
        requires chip_lent { ChipLent (geometry g) chip.old × (q < pages (geometry g)) × (page ≡ translation_page (geometry g) logical) }
        requires n_lt_most_pages_in_block { (self.old.n < most_pages_in_block) × (length waiting.old ≡ moves_words) }
        ensures { TakenOut (geometry g) q t record { logical = logical; physical = physical } self.old.n self.old.lowest
            waiting.old chip.old self.new.n self.new.lowest waiting.new chip.new
            ⊎ Stays (geometry g) t record { logical = logical; physical = physical } self.old.n self.old.lowest
            waiting.old chip.old self.new.n self.new.lowest waiting.new chip.new }
    {
        if page == t {
            set_word(g, q, logical, physical, chip);
            return;
        }
        put_behind(self.n, logical, physical, page, waiting);
        self.n += 1;
        self.lowest = self.lowest.min(page);
    }
}

// There, the words of all that waits for translation page t, which is taken out: the others are left, in their order.
pub(crate) fn take_words(
    g: Geometry,
    q: u32,
    t: u32,
    n: usize,
    m: u32,
    waiting: &mut [u32; MOVES_WORDS],
    chip: &mut [u32],
) -> Left
    requires { ChipLent (geometry g) chip.old × (q < pages (geometry g)) × WaitsIn (geometry g) n waiting.old }
    ensures chip_after { chip.new ≡ sets chip.old (q * g.w)
        (set_words (geometry g) (of_page (geometry g) t (first_moves n waiting.old)) (words_of (geometry g) q chip.old)) }
    ensures left_after { LeftAfter (geometry g) t m n waiting.old result.n result.lowest waiting.new }
{
    let mut left = Left { n: 0, lowest: m };
    for i in 0..n {
        let logical = waiting[i * MOVE_WORDS];
        let physical = waiting[i * MOVE_WORDS + 1];
        let page = waiting[i * MOVE_WORDS + 2];
        left.take(g, q, t, logical, physical, page, waiting, chip);
    }
    left
}

// The lowest translation page for which something waits; m where there is none below m.
pub(crate) fn lowest(n: usize, waiting: &[u32; MOVES_WORDS], m: u32) -> u32
    requires { n ≤ most_pages_in_block }
    ensures { (g : Geometry) → WaitsIn (geometry g) n waiting.now
        → Lowest (geometry g) (first_moves n waiting.now) m result }
{
    let mut best = m;
    for i in 0..n {
        best = best.min(waiting[i * MOVE_WORDS + 2]);
    }
    best
}
