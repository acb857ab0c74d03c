// Translate: l's entry comes to its place in the cache, from its rank or from l's translation page; the last one makes room for it.
ghost use Rattle.std.specs.Prelude.{cond, ◌<◌, ◌≤◌};
ghost use Rattle.scope.specs.Operations.{nothing};
ghost use Rattle.scope.specs.Cache.{is_changed};
ghost use Rattle.scope.specs.Steps.{write_back, drop_entry, drop_if_full, fetch, translate};
ghost use Rattle.promises.specs.Update.{update_bound};
ghost use Rattle.promises.specs.Translate.{translate_bound};
ghost use Rattle.lent.specs.Ready.{Ready, ReadyFor};
ghost use Rattle.requests.specs.Translating.{Fetches};
ghost use Rattle.requests.specs.Node.{under, held, NodeDoes};

use crate::node::Node;
use entries::{enter, forget, touch};
use index::update_changed;

impl Node<'_, '_, '_, '_, '_, '_> {
    // The entry at rank i is written back, if it is changed, with all changed ones of its translation page.
    fn write_back_if_changed(&mut self, i: usize)
        requires { Ready (under self.old) (held self.old) (update_bound (under self.old)) self.old.work.now.counts
            × (i < self.old.work.now.rec.used) }
        ensures { NodeDoes (cond (is_changed i self.old.cache.now) (write_back (under self.old) i) nothing) self.old tt self.new }
    {
        if self.is_changed(i) {
            let t = self.logical(i) / self.flash.g.w;
            update_changed(self.flash, self.work, self.directory, self.cache, t);
        }
    }

    // The last entry is dropped.
    fn drop_entry(&mut self)
        requires { Ready (under self.old) (held self.old) (update_bound (under self.old)) self.old.work.now.counts
            × (1 ≤ self.old.work.now.rec.used) }
        ensures { NodeDoes (drop_entry (under self.old)) self.old tt self.new }
    {
        let i = (self.work.rec.used - 1) as usize;
        self.write_back_if_changed(i);
        forget(self.work, i, self.cache);
    }

    // It is, where all are used.
    fn drop_if_full(&mut self)
        requires { Ready (under self.old) (held self.old) (update_bound (under self.old)) self.old.work.now.counts }
        ensures { NodeDoes (drop_if_full (under self.old)) self.old tt self.new }
    {
        if self.work.rec.used < self.flash.g.c {
            return;
        }
        self.drop_entry();
    }

    // What l's translation page holds for l enters the cache.
    fn fetch(&mut self, l: u32)
        requires { Fetches (under self.old) l self.old.flash.now.chip.now self.old.directory.now self.old.cache.now self.old.work.now }
        ensures { NodeDoes (fetch (under self.old) l) self.old self.new.work.now.rec.protected self.new }
    {
        let t = l / self.flash.g.w;
        let page = self.named(t);
        let word = self.flash.word_for(self.work, l, page);
        enter(self.work, l, word, self.cache, self.filter);
    }

    // The rank that l's entry then has is handed back.
    pub fn translate(&mut self, l: u32) -> usize
        requires { ReadyFor l (under self.old) (held self.old) (translate_bound (under self.old)) self.old.work.now.counts }
        ensures { NodeDoes (translate (under self.old) l) self.old result self.new }
    {
        let i = self.rank_of(l);
        if i < self.flash.g.c as usize {
            touch(self.work, self.flash.g, i, self.cache);
            return 0;
        }
        self.drop_if_full();
        self.fetch(l);
        self.work.rec.protected as usize
    }
}
