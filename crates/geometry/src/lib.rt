// Which geometries are accepted, what one derives, and whether the lent slices have its sizes. Any six numbers may come: each factor is
// bounded before it is multiplied, and sums and products are taken in 64 bits, so that none wraps.
#![tactic(auto)]

ghost use Rattle.std.specs.Prelude.{◌≡◌, ◌&&◌, ◌+◌, ◌-◌, ◌*◌, ◌/◌, ◌≤◌, ◌<◌, leb};
ghost use Rattle.scope.specs.Geometry.{Accepted, accepted, within, most_blocks, most_pages_in_block, most_pages, M, pages};
ghost use Rattle.scope.specs.Replies.{right_sizes};
ghost use Rattle.lent.specs.Model.{geometry};
ghost use Rattle.geometry.specs.Sizes.{sizes};

use lent::{ENTRY_WORDS, Geometry, SPARE_WORDS};

// The table's upper bounds.
pub const MOST_PAGES_IN_BLOCK: usize = 64;

pub const MOST_WORDS_IN_PAGE: usize = 512;

pub const MOST_BLOCKS: usize = 1024;

pub const MOST_ENTRIES: usize = 4096;

// The row of D and T, which are 32-bit numbers.
fn blocks_within(d: usize, t: usize) -> bool
    requires { (d < 4294967296) × (t < 4294967296) }
    ensures { result ≡ (leb 2 d && leb 2 t && leb (d + t) most_blocks) }
{
    2 <= d && 2 <= t && d + t <= MOST_BLOCKS
}

// The most owners that a region of so many blocks of p pages has room for.
fn most_owners(blocks: usize, p: usize) -> usize
    requires { (2 ≤ blocks) × (blocks ≤ most_blocks) × (1 ≤ p) × (p ≤ most_pages_in_block) }
    ensures { (result ≡ (blocks - 1) * p - 1) × (result < most_pages) }
{
    (blocks - 1) * p - 1
}

// The row of M, without a division: that many pages of w words have a word for each of l logical pages.
fn words_within(most: usize, w: usize, l: usize) -> bool
    requires { (most < most_pages) × (1 ≤ w) × (w ≤ 512) × (1 ≤ l) }
    ensures { result ≡ within 1 ((l + (w - 1)) / w) most }
{
    l <= most * w
}

// M, the number of translation pages.
pub fn translation_pages(g: Geometry) -> usize
    requires { 1 ≤ g.w }
    ensures { result ≡ M (geometry g) }
{
    (g.l as usize).div_ceil(g.w as usize)
}

// Whether the geometry is accepted, row by row.
#[tactic(auto, unfolding(scope::specs::Geometry::accepted))]
pub fn accepts(g: Geometry) -> bool
    ensures { result ≡ accepted (geometry g) }
{
    let p = g.p as usize;
    let w = g.w as usize;
    let d = g.d as usize;
    let t = g.t as usize;
    let l = g.l as usize;
    (1..=MOST_PAGES_IN_BLOCK).contains(&p)
        && (1..=MOST_WORDS_IN_PAGE).contains(&w)
        && blocks_within(d, t)
        && (1..=most_owners(d, p)).contains(&l)
        && words_within(most_owners(t, p), w, l)
        && (1..=MOST_ENTRIES).contains(&(g.c as usize))
}

// The pages of the whole chip.
pub fn chip_pages(g: Geometry) -> usize
    requires { Accepted (geometry g) }
    ensures { result ≡ pages (geometry g) }
{
    (g.d as usize + g.t as usize) * g.p as usize
}

// Whether four lengths are those that the state's slices are to have.
#[tactic(auto, unfolding(scope::specs::Replies::right_sizes))]
pub fn sizes_right(g: Geometry, chip: usize, spare: usize, directory: usize, cache: usize) -> bool
    requires { Accepted (geometry g) }
    ensures { result ≡ right_sizes (sizes (geometry g) chip spare directory cache) }
{
    let pages = chip_pages(g);
    chip == pages * g.w as usize
        && spare == pages * SPARE_WORDS
        && directory == translation_pages(g)
        && cache == g.c as usize * ENTRY_WORDS
}
