// A translation page updated, in the parts that its changed entries and all that waits have in common: what comes before the words are set in
// the new page, and what comes after.
ghost use Rattle.std.specs.Prelude.{◌≡◌};
ghost use Rattle.scope.specs.Regions.{Translation};
ghost use Rattle.lent.specs.Model.{geometry, small};
ghost use Rattle.steps.specs.Flash.{SameFlash, OnlySpare};
ghost use Rattle.steps.specs.Lies.{next_page};
ghost use Rattle.index.specs.Index.{indexed};
ghost use Rattle.index.specs.Writing.{PageReady, Begins, FinishReady, Written};

use crate::room::room;
use lent::{Region, Work};
use steps::Flash;
use steps::chip::next_page;
use steps::directory::{named, names_it};

// Room is made, and the open block's next page, which is handed back, has the words of translation page t, or none throughout.
pub(crate) fn begin(flash: &mut Flash, work: &mut Work, directory: &mut [u32], t: u32) -> u32
    requires { PageReady (geometry flash.old.g) (indexed flash.old directory.old) work.old t }
    ensures begins { Begins (geometry flash.old.g) t (indexed flash.old directory.old) work.old
        (indexed flash.new directory.new) work.new }
    ensures next { result ≡ next_page (geometry flash.old.g) Translation (small work.new.rec) }
    ensures same { SameFlash flash.old flash.new }
{
    room(flash, work, directory);
    let former = named(t, directory);
    flash.begin_next(work, Region::Translation, former);
    next_page(work.rec, flash.g, Region::Translation)
}

// The next page becomes that of translation page t, in the place of the former one, and the directory names it.
pub(crate) fn finish(flash: &mut Flash, work: &mut Work, directory: &mut [u32], t: u32)
    requires { FinishReady (geometry flash.old.g) flash.old.spare.now directory.old work.old t }
    ensures written { Written (geometry flash.old.g) t flash.old.spare.now directory.old work.old flash.new.spare.now directory.new work.new }
    ensures only_spare { OnlySpare flash.old flash.new }
{
    let former = named(t, directory);
    let q = flash.claim_next(work, Region::Translation, t);
    flash.mark_old(former);
    names_it(t, q, directory);
}
