// Format: every lent word becomes the erased word, which is also *none*, whatever stood there.
#![tactic(auto)]

ghost use Rattle.std.specs.Prelude.{◌≡◌, length, replicate};
ghost use Rattle.lent.specs.declared.Record.{Record};
ghost use Rattle.lent.specs.Model.{geometry, state, counts};
ghost use Rattle.lent.specs.Does.{Does};
ghost use Rattle.scope.specs.Operations.{no_counts};
ghost use Rattle.scope.specs.Replies.{DONE};
ghost use Rattle.scope.specs.Requests.{format_steps};
ghost use Rattle.formatting.specs.Fresh.{Sized};

use lent::{Counts, Geometry, Record, Work};
use words::runs::fill_erased;

// All words of a slice.
fn erase_words(s: &mut [u32])
    ensures { s.new ≡ replicate (length s.old) 4294967295 }
{
    let n = s.len();
    fill_erased(s, 0, n);
}

// The small record before is any: nothing of the old state is looked at.
pub fn format(
    g: Geometry,
    chip: &mut [u32],
    spare: &mut [u32],
    directory: &mut [u32],
    cache: &mut [u32],
) -> Work
    requires { Sized (geometry g) chip.old spare.old directory.old cache.old }
    ensures { (old : Record) → Does (format_steps (geometry g))
        (state chip.old spare.old directory.old cache.old old) no_counts DONE
        (state chip.new spare.new directory.new cache.new result.rec) (counts result.counts) }
{
    erase_words(chip);
    erase_words(spare);
    erase_words(directory);
    erase_words(cache);
    Work {
        rec: Record {
            open_data: 0,
            data_offset: 0,
            open_translation: g.d,
            translation_offset: 0,
            used: 0,
            protected: 0,
        },
        counts: Counts {
            reads: 0,
            programs: 0,
            erases: g.d + g.t,
        },
    }
}
