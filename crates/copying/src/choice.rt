// How room comes to a region's open block.
ghost use Rattle.lent.specs.Model.{geometry, region};
ghost use Rattle.copying.specs.Choice.{Chosen};

use lent::{Region, Work};
use steps::blocks::{Blocks, next_offset};

// "If the open block's offset is below P, nothing. Else, if two or more blocks are wholly erased, open the lowest. Else collect": the block
// to collect, if it comes to that.
pub fn choose(blocks: &Blocks, work: &mut Work, r: Region) -> Option<u32>
    ensures { Chosen (geometry blocks.now.g) (region r) blocks.now.spare.now work.old result work.new }
{
    if next_offset(work.rec, r) < blocks.g.p {
        return None;
    }
    if 2 <= blocks.erased_blocks(r) {
        blocks.open_lowest(work, r);
        return None;
    }
    Some(blocks.victim(r))
}
