// What a walk looks at. Its bounds are told once, here, for all that read a page of it.
ghost use Rattle.std.specs.Prelude.{◌+◌, ◌*◌, ◌≤◌, ◌<◌, length};
ghost use Rattle.scope.specs.Lent.{spare_words};

// The n blocks of p pages from block `first` on, whose words the chip has, w a page, and whose states and owners the spare. The owners are
// to be below `limit`. A block's pages are counted in 32 bits.
#[derive(Clone, Copy)]
pub struct Area<'a> {
    pub chip: &'a [u32],
    pub spare: &'a [u32],
    pub w: usize,
    pub limit: u32,
    pub p: usize,
    pub first: usize,
    pub n: usize,
    ghost some_pages: { 1 ≤ p },
    ghost few_pages: { p < 4294967296 },
    ghost in_chip: { (first + n) * p * w ≤ length chip.now },
    ghost in_spare: { (first + n) * p * spare_words ≤ length spare.now },
}
