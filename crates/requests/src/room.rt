// Room in the data region: where a block is to be collected, its valid pages are copied, their moves followed by the cache or left to
// wait, and what waits is settled in the translation pages.
ghost use Rattle.std.specs.Prelude.{◌≡◌};
ghost use Rattle.scope.specs.Regions.{Data};
ghost use Rattle.scope.specs.Room.{make_room};
ghost use Rattle.scope.specs.Steps.{cache_follows};
ghost use Rattle.copying.specs.Choice.{ToCollect};
ghost use Rattle.requests.specs.Collecting.{RoomReady};
ghost use Rattle.requests.specs.Node.{under, held, NodeDoes};

use crate::node::Node;
use copying::choice::choose;
use copying::copies::{MOVES_WORDS, start};
use index::settle;
use lent::Region;

impl Node<'_, '_, '_, '_, '_, '_> {
    // Block v is emptied into the one erased block, and erased. No other page is cached then than before, so that the filter stays.
    fn collect(&mut self, v: u32)
        requires { RoomReady (under self.old) (held self.old) self.old.work.now.counts
            × ToCollect (under self.old) Data self.old.flash.now.spare.now self.old.work.now v }
        ensures filter_kept { self.new.filter.now ≡ self.old.filter.now }
        ensures does { NodeDoes (make_room (under self.old) Data (cache_follows (under self.old))) self.old tt self.new }
    {
        let mut moves = [0u32; MOVES_WORDS];
        let n = start(self.flash, self.work, Region::Data, v, &mut moves);
        let waiting = self.follow_moves(n, &mut moves);
        settle(self.flash, self.work, self.directory, waiting, &mut moves);
        self.flash.erase(self.work, v);
    }

    // Room for the next data page.
    pub fn make_room(&mut self)
        requires { RoomReady (under self.old) (held self.old) self.old.work.now.counts }
        ensures filter_kept { self.new.filter.now ≡ self.old.filter.now }
        ensures does { NodeDoes (make_room (under self.old) Data (cache_follows (under self.old))) self.old tt self.new }
    {
        if let Some(v) = choose(&self.flash.blocks(), self.work, Region::Data) {
            self.collect(v);
        }
    }
}
