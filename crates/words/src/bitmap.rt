// A set of the numbers below FILTER_BITS, a bit for each, on the stack: the cached logical pages.
ghost use Rattle.std.specs.Prelude.{◌≡◌, ◌<◌};
ghost use Rattle.lent.specs.Notes.{filter_bits};
ghost use Rattle.words.specs.Bitmap.{has, put, empty};

use lent::FILTER_WORDS;

// The set with nothing in it, whatever it was.
pub fn clear(map: &mut [u64; FILTER_WORDS])
    ensures { map.new ≡ empty }
{
    *map = [0u64; FILTER_WORDS];
}

// Whether i is in the set.
pub fn has(map: &[u64; FILTER_WORDS], i: usize) -> bool
    requires { i < filter_bits }
    ensures { result ≡ has map.now i }
{
    let word = map[i / 64];
    (word >> (i % 64)) % 2 == 1
}

// The set with i.
pub fn put(map: &mut [u64; FILTER_WORDS], i: usize)
    requires { i < filter_bits }
    ensures { map.new ≡ put map.old i }
{
    let word = map[i / 64];
    map[i / 64] = word | (1u64 << (i % 64));
}
