// What the program prints of an answer: a word that says what was asked, and the numbers in the form of document 01's session.
use lent::reply::Reply;
use std::io;

// An answer and its counts.
pub fn tell(to: &impl Print, asked: &str, answer: Reply, counts: [u32; 3]) -> io::Result<()> {
    let [reads, programs, erases] = counts;
    println!(to; "{asked} {} {reads} {programs} {erases}", u32::from(answer))
}

// Those of a read that is DONE, and the first word.
pub fn tell_word(
    to: &impl Print,
    asked: &str,
    answer: Reply,
    counts: [u32; 3],
    word: u32,
) -> io::Result<()> {
    let [reads, programs, erases] = counts;
    println!(to;
        "{asked} {} {reads} {programs} {erases} {word}",
        u32::from(answer)
    )
}

// Any numbers.
pub fn tell_numbers(to: &impl Print, what: &str, numbers: &[u32]) -> io::Result<()> {
    print!(to; "{what}")?;
    for n in numbers {
        print!(to; " {n}")?;
    }
    println!(to)
}
