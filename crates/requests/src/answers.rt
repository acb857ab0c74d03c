// Read and write: what a call does once its tests have passed. The reply is handed back. Both say of each slice that it is the caller's
// own, by its name: who lends them learns by that what they hold afterwards.
ghost use Rattle.std.specs.Prelude.{◌≡◌, length};
ghost use Rattle.scope.specs.Requests.{replied, read_place, read_steps, write_steps};
ghost use Rattle.lent.specs.Model.{entry};
ghost use Rattle.lent.specs.Reply.{reply};
ghost use Rattle.promises.specs.Bounds.{read_bound, write_bound};
ghost use Rattle.promises.specs.Write.{placing};
ghost use Rattle.lent.specs.Ready.{ReadyFor};
ghost use Rattle.requests.specs.Answering.{PlaceReady, WritingReady};
ghost use Rattle.requests.specs.Node.{under, held, NodeDoes, SameNode};

use crate::node::Node;
use entries::set_entry;
use lent::reply::Reply;
use lent::{Entry, Region, decode};

impl Node<'_, '_, '_, '_, '_, '_> {
    // The page at a place is read into the buffer; nowhere, nothing.
    fn read_place(&mut self, place: Entry, buffer: &mut [u32]) -> Reply
        requires { PlaceReady (under self.old) (entry place) self.old.flash.now.chip.now buffer.old self.old.work.now.counts }
        ensures { NodeDoes (read_place (under self.old) buffer.old (entry place)) self.old (replied buffer.new (reply result)) self.new }
    {
        let Entry::Place(p) = place else {
            return Reply::Unwritten;
        };
        self.flash.read_page(self.work, p, buffer);
        Reply::Done
    }

    // Read logical page l.
    pub fn read(&mut self, l: u32, buffer: &mut [u32]) -> Reply
        requires { ReadyFor l (under self.old) (held self.old) (read_bound (under self.old)) self.old.work.now.counts
            × (length buffer.old ≡ self.old.flash.now.g.w) }
        ensures does { NodeDoes (read_steps (under self.old) l buffer.old) self.old (replied buffer.new (reply result)) self.new }
        ensures work_kept { self.new.work.ghost_name ≡ self.old.work.ghost_name }
        ensures flash_kept { self.new.flash.ghost_name ≡ self.old.flash.ghost_name }
        ensures chip_kept { self.new.flash.now.chip.ghost_name ≡ self.old.flash.now.chip.ghost_name }
        ensures spare_kept { self.new.flash.now.spare.ghost_name ≡ self.old.flash.now.spare.ghost_name }
        ensures census_kept { self.new.flash.now.census.ghost_name ≡ self.old.flash.now.census.ghost_name }
        ensures directory_kept { self.new.directory.ghost_name ≡ self.old.directory.ghost_name }
        ensures cache_kept { self.new.cache.ghost_name ≡ self.old.cache.ghost_name }
        ensures filter_kept { self.new.filter.ghost_name ≡ self.old.filter.ghost_name }
    {
        let i = self.translate(l);
        let place = decode(self.physical(i));
        self.read_place(place, buffer)
    }

    // With room in the open block: the next page is programmed with l's new words, the old one marked, and the entry at rank i set.
    // No other page is cached then than before, so that what was a filter of the cache still is one.
    fn place(&mut self, l: u32, i: usize, buffer: &[u32])
        requires { WritingReady (under self.old) i self.old.flash.now.chip.now self.old.flash.now.spare.now self.old.cache.now buffer.now self.old.work.now }
        ensures { NodeDoes (placing (under self.old) l i buffer.now) self.old (replied buffer.now 0) self.new }
    {
        let q = self.flash.program_next(self.work, Region::Data, l, buffer);
        let old = decode(self.physical(i));
        self.flash.mark_old(old);
        set_entry(i, q, self.cache);
    }

    // Write logical page l.
    pub fn write(&mut self, l: u32, buffer: &[u32]) -> Reply
        requires { ReadyFor l (under self.old) (held self.old) (write_bound (under self.old)) self.old.work.now.counts
            × (length buffer.now ≡ self.old.flash.now.g.w) }
        ensures does { NodeDoes (write_steps (under self.old) l buffer.now) self.old (replied buffer.now (reply result)) self.new }
        ensures work_kept { self.new.work.ghost_name ≡ self.old.work.ghost_name }
        ensures flash_kept { self.new.flash.ghost_name ≡ self.old.flash.ghost_name }
        ensures chip_kept { self.new.flash.now.chip.ghost_name ≡ self.old.flash.now.chip.ghost_name }
        ensures spare_kept { self.new.flash.now.spare.ghost_name ≡ self.old.flash.now.spare.ghost_name }
        ensures census_kept { self.new.flash.now.census.ghost_name ≡ self.old.flash.now.census.ghost_name }
        ensures directory_kept { self.new.directory.ghost_name ≡ self.old.directory.ghost_name }
        ensures cache_kept { self.new.cache.ghost_name ≡ self.old.cache.ghost_name }
        ensures filter_kept { self.new.filter.ghost_name ≡ self.old.filter.ghost_name }
    {
        let i = self.translate(l);
        self.make_room();
        self.place(l, i, buffer);
        Reply::Done
    }
}
