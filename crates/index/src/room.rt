// Room in the translation region: where a block is to be collected, its valid pages are copied, and the directory follows their moves.
ghost use Rattle.std.specs.Prelude.{◌≡◌, ℕ, ◌*◌, ◌<◌, ◌≤◌, [], length, slice_index};
ghost use Rattle.scope.specs.Geometry.{most_pages_in_block};
ghost use Rattle.scope.specs.Regions.{Translation};
ghost use Rattle.scope.specs.Room.{make_room};
ghost use Rattle.scope.specs.Steps.{directory_follows};
ghost use Rattle.region.specs.Apart.{follow_each};
ghost use Rattle.lent.specs.declared.Work.{Work};
ghost use Rattle.lent.specs.Model.{geometry};
ghost use Rattle.lent.specs.Shapes.{DoesDirectory};
ghost use Rattle.copying.specs.Moves.{move_words, moves_words, first_moves};
ghost use Rattle.copying.specs.Choice.{ToCollect};
ghost use Rattle.index.specs.Index.{indexed, IndexDoes, RoomReady};

use copying::choice::choose;
use copying::copies::{MOVE_WORDS, MOVES_WORDS, start};
use lent::{Region, Work};
use steps::Flash;
use steps::directory::names_it;

// The directory names the pages of the first n moves.
fn names_moved(n: usize, moves: &[u32; MOVES_WORDS], directory: &mut [u32])
    requires n_le_most_pages_in_block { (n ≤ most_pages_in_block) × (length moves.now ≡ moves_words) }
    requires by_index { (i : ℕ) → i < n → slice_index moves.now (i * move_words) < length directory.old }
    ensures { (w : Work) → DoesDirectory (follow_each directory_follows (first_moves n moves.now))
        directory.old w [] directory.new w }
{
    for i in 0..n {
        names_it(moves[i * MOVE_WORDS], moves[i * MOVE_WORDS + 1], directory);
    }
}

// Block v is emptied into the one erased block, and erased.
fn collect(flash: &mut Flash, work: &mut Work, directory: &mut [u32], v: u32)
    requires { RoomReady (geometry flash.old.g) (indexed flash.old directory.old) work.old
        × ToCollect (geometry flash.old.g) Translation flash.old.spare.now work.old v }
    ensures { IndexDoes (make_room (geometry flash.old.g) Translation directory_follows)
        flash.old directory.old work.old tt flash.new directory.new work.new }
{
    let mut moves = [0u32; MOVES_WORDS];
    let n = start(flash, work, Region::Translation, v, &mut moves);
    names_moved(n, &moves, directory);
    flash.erase(work, v);
}

// Make room: afterwards the open block has a page to program.
pub fn room(flash: &mut Flash, work: &mut Work, directory: &mut [u32])
    requires { RoomReady (geometry flash.old.g) (indexed flash.old directory.old) work.old }
    ensures { IndexDoes (make_room (geometry flash.old.g) Translation directory_follows)
        flash.old directory.old work.old tt flash.new directory.new work.new }
{
    if let Some(v) = choose(&flash.blocks(), work, Region::Translation) {
        collect(flash, work, directory, v);
    }
}
