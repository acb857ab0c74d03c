// The start of a collection: the erased block is opened, and the victim's valid pages move there, in their order. Their moves, as many as a
// block has pages at most, are noted in words that are lent: the owner, where the page has gone, and one that is the caller's to use.
ghost use Rattle.std.specs.Prelude.{◌≡◌, length};
ghost use Rattle.scope.specs.Room.{move_if_valid, move_pages};
ghost use Rattle.region.specs.Apart.{waits_all};
ghost use Rattle.lent.specs.Model.{geometry, region};
ghost use Rattle.steps.specs.Flash.{FlashDoes, SameFlash};
ghost use Rattle.copying.specs.Moves.{moves_words, first_moves};
ghost use Rattle.copying.specs.Choice.{start_collect};
ghost use Rattle.copying.specs.Copies.{PageToCopy, DoesNoting, CopyReady};
ghost use Rattle.copying.specs.Starting.{CollectReady, Started};

use lent::{Region, Work};
use steps::Flash;

// The words of a move, and of as many as a block has pages at most.
pub const MOVE_WORDS: usize = 3;

pub const MOVES_WORDS: usize = 64 * MOVE_WORDS;

// A page moves, if it is valid, and its move is noted behind the n others. Handed back is how many are noted.
fn copy_if_valid(
    flash: &mut Flash,
    work: &mut Work,
    r: Region,
    page: u32,
    n: usize,
    moves: &mut [u32; MOVES_WORDS],
) -> usize
    requires page_to_copy { PageToCopy (geometry flash.old.g) (region r) page flash.old.chip.now flash.old.spare.now work.old n }
    requires moves_len { length moves.old ≡ moves_words }
    ensures does_noting { DoesNoting (move_if_valid (geometry flash.old.g) (region r) waits_all page)
        flash.old.chip.now flash.old.spare.now work.old (first_moves n moves.old)
        (first_moves result moves.new) flash.new.chip.now flash.new.spare.now work.new }
    ensures same { SameFlash flash.old flash.new }
    ensures moves_len_kept { length moves.new ≡ moves_words }
{
    if !flash.is_valid(page) {
        return n;
    }
    let moved = flash.relocate(work, r, page);
    moves[n * MOVE_WORDS] = moved.owner;
    moves[n * MOVE_WORDS + 1] = moved.page;
    n + 1
}

// So do the pages of block v, in their order.
fn copy_pages(
    flash: &mut Flash,
    work: &mut Work,
    r: Region,
    v: u32,
    moves: &mut [u32; MOVES_WORDS],
) -> usize
    requires copy_ready { CopyReady (geometry flash.old.g) (region r) v flash.old.chip.now flash.old.spare.now work.old }
    requires moves_len { length moves.old ≡ moves_words }
    ensures does_flash { FlashDoes (move_pages (geometry flash.old.g) (region r) waits_all v flash.old.g.p) flash.old work.old
        (first_moves result moves.new) flash.new work.new }
    ensures moves_len_kept { length moves.new ≡ moves_words }
{
    let first = v * flash.g.p;
    let mut n = 0;
    for i in 0..flash.g.p {
        n = copy_if_valid(flash, work, r, first + i, n, moves);
    }
    n
}

// A collection of block v starts. Handed back is how many moves are noted.
pub fn start(
    flash: &mut Flash,
    work: &mut Work,
    r: Region,
    v: u32,
    moves: &mut [u32; MOVES_WORDS],
) -> usize
    requires collect_ready { CollectReady (geometry flash.old.g) (region r) v flash.old.chip.now flash.old.spare.now work.old }
    requires moves_len { length moves.old ≡ moves_words }
    ensures does_flash { FlashDoes (start_collect (geometry flash.old.g) (region r) waits_all v) flash.old work.old
        (first_moves result moves.new) flash.new work.new }
    ensures started { Started (geometry flash.old.g) (region r) v result moves.new flash.new.chip.now flash.new.spare.now work.old work.new }
    ensures moves_len_kept { length moves.new ≡ moves_words }
{
    flash.blocks().open_lowest(work, r);
    copy_pages(flash, work, r, v, moves)
}
