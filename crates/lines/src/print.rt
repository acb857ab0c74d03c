// What is printed of an answer: numbers put into lent bytes.
// Kept: lent bytes and a place in them, of which `Prints` and the program's `Serves` speak (docs/PROMISES.md); `write!` may fail, by its
// contract, and these don't.
ghost use Rattle.std.specs.Prelude.{◌++◌, ◌∷◌, [], ◌+◌, ◌*◌, ◌≤◌, ◌<◌, length};
ghost use Rattle.lines.specs.Digits.{digits, separator, numbers, Puts, Prints};

// A write, a refusal or an unwritten read: the answer and its counts.
pub fn put_answer(out: &mut [u8; 64], reply: u32, counts: [u32; 3]) -> usize
    ensures { Prints out.old (numbers reply counts []) out.new result }
{
    let [reads, programs, erases] = counts;
    put_line(out, &[reply, reads, programs, erases])
}

// A read that is DONE: the first word too.
pub fn put_word(out: &mut [u8; 64], reply: u32, counts: [u32; 3], word: u32) -> usize
    ensures { Prints out.old (numbers reply counts (word ∷ [])) out.new result }
{
    let [reads, programs, erases] = counts;
    put_line(out, &[reply, reads, programs, erases, word])
}

// Puts the numbers, a space between any two, and a newline; answers how many bytes that is.
pub fn put_line(out: &mut [u8], numbers: &[u32]) -> usize
    requires { length numbers.now * 11 < length out.old }
    ensures { Prints out.old numbers.now out.new result }
{
    let mut at = 0;
    for (i, n) in numbers.iter().enumerate() {
        at = put_next(out, at, i, *n);
    }
    put_byte(out, at, b'\n')
}

// Puts the i-th number of a line: a space before it, unless it is the first.
#[tactic(auto, using(crate::specs::Spelled::ten_digits, crate::specs::Put::puts_later))]
fn put_next(out: &mut [u8], at: usize, i: usize, n: u32) -> usize
    requires { at + 11 ≤ length out.old }
    ensures { Puts out.old at (separator i ++ digits n) out.new result }
{
    if i == 0 {
        return put_number(out, at, n);
    }
    let next = put_byte(out, at, b' ');
    put_number(out, next, n)
}

// Puts n's digits.
#[tactic(auto, using(crate::specs::Spelled::one_digit, crate::specs::Spelled::length_more))]
fn put_number(out: &mut [u8], at: usize, n: u32) -> usize
    requires { at + length (digits n) ≤ length out.old }
    ensures { Puts out.old at (digits n) out.new result }
{
    let digit = b'0' + (n % 10) as u8;
    if n < 10 {
        return put_byte(out, at, digit);
    }
    let last = put_number(out, at, n / 10);
    put_byte(out, last, digit)
}

// Puts one byte, and answers the place after it.
fn put_byte(out: &mut [u8], at: usize, byte: u8) -> usize
    requires { at < length out.old }
    ensures { Puts out.old at (byte ∷ []) out.new result }
{
    out[at] = byte;
    at + 1
}
