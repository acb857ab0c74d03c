// The lines of a session, read byte by byte, and the numbers that answer them, printed. What a line means and what a number's digits
// are stands in specs/; a program over this crate only reads, calls and writes.
#![tactic(auto)]

ghost use Rattle.std.specs.Prelude.{◌≡◌};
ghost use Rattle.lines.specs.Feeding.{digit_fed, fed, finished};

pub mod print;

// What a line's letter asks for: W a write, R a read.
#[derive(Clone, Copy)]
pub enum Kind {
    Write,
    Read,
}

// A line as far as it has been read: its letter; then its page, as far as it has digits; then its value; or a line that asks nothing.
#[derive(Clone, Copy)]
pub enum Line {
    Start,
    Letter(Kind),
    Page(Kind, Option<u32>),
    Value(u32, Option<u32>),
    Other,
}

// What a whole line asks for.
#[derive(Clone, Copy)]
pub enum Request {
    Write(u32, u32),
    Read(u32),
}

// The line with one byte more, which is no newline.
pub fn feed(line: Line, byte: u8) -> Line
    ensures { result ≡ fed line byte }
{
    match (line, byte) {
        (Line::Start, b'W') => Line::Letter(Kind::Write),
        (Line::Start, b'R') => Line::Letter(Kind::Read),
        (Line::Letter(kind), b' ') => Line::Page(kind, None),
        (Line::Page(Kind::Write, Some(page)), b' ') => Line::Value(page, None),
        (Line::Page(kind, number), _) => {
            add_digit(number, byte).map_or(Line::Other, |n| Line::Page(kind, Some(n)))
        }
        (Line::Value(page, number), _) => {
            add_digit(number, byte).map_or(Line::Other, |n| Line::Value(page, Some(n)))
        }
        _ => Line::Other,
    }
}

// What the line asks for, at its newline or where the input ends.
pub fn finish(line: Line) -> Option<Request>
    ensures { result ≡ finished line }
{
    match line {
        Line::Page(Kind::Read, Some(page)) => Some(Request::Read(page)),
        Line::Value(page, Some(value)) => Some(Request::Write(page, value)),
        _ => None,
    }
}

// The number with one digit more, where the byte is one and 32 bits hold it.
fn add_digit(number: Option<u32>, byte: u8) -> Option<u32>
    ensures { result ≡ digit_fed number byte }
{
    let b'0'..=b'9' = byte else {
        return None;
    };
    let digit = u32::from(byte - b'0');
    number.unwrap_or(0).checked_mul(10)?.checked_add(digit)
}
