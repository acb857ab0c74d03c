// The counts that a call hands to its caller: three words, written wherever there are three to write.
ghost use Rattle.std.specs.Prelude.{◌≡◌};
ghost use Rattle.lent.specs.Model.{counts as numbers};
ghost use Rattle.scope.specs.Boundary.{put_counts};
ghost use Rattle.scope.specs.Operations.{no_counts};

use lent::Counts;

pub const COUNTS_WORDS: usize = 3;

// What a refusal counts, and what a call begins with.
pub const NO_COUNTS: Counts = Counts {
    reads: 0,
    programs: 0,
    erases: 0,
};

pub fn put_counts(counts: &mut [u32], c: Counts)
    ensures { counts.new ≡ put_counts counts.old (numbers c) }
{
    if counts.len() != COUNTS_WORDS {
        return;
    }
    counts[0] = c.reads;
    counts[1] = c.programs;
    counts[2] = c.erases;
}

// Those of a refusal, and of a check.
pub fn put_none(counts: &mut [u32])
    ensures { counts.new ≡ put_counts counts.old no_counts }
{
    put_counts(counts, NO_COUNTS);
}
