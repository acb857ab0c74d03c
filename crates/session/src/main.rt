// Document 01's session program: formats G, reads lines from standard input and prints what each is answered.
//
// What a line means is proved in crate `lines`; that the bytes printed for it, and the state after it, are those of 01's definitions is
// proved in serve.rt. No contract can say what is read and written: the functions here, which feed the input to the one and write what
// the other gives, are proved safe and ending, and the program is run on 01's session (stdin, stdout) and by tests/session. A read or a
// write that fails ends the program with its error.
#![tactic(auto)]

mod serve;

use crate::serve::Node;
use lines::Line;
use std::io;
use std::io::Read;

// Prints what the line asks for, which ends here.
fn answer(to: &impl Print, node: &mut Node, line: Line) -> io::Result<()> {
    let mut out = [0u8; 64];
    let n = node.serve(lines::finish(line), &mut out);
    to.write_all(&out[..n])
}

// One byte: a newline ends the line.
fn step(to: &impl Print, node: &mut Node, line: Line, byte: u8) -> io::Result<Line> {
    if byte != b'\n' {
        return Ok(lines::feed(line, byte));
    }
    answer(to, node, line)?;
    Ok(Line::Start)
}

// Reads to the end of the input; the last line may lack its newline.
fn run(from: &mut impl Read, to: &impl Print, node: &mut Node) -> io::Result<()> {
    let mut line = Line::Start;
    let mut buffer = [0u8; 65536];
    // Kept: a count that no input reaches, since every loop is proved to end.
    for _ in 0..u64::MAX {
        let n = from.read(&mut buffer)?;
        if n == 0 {
            break;
        }
        for byte in &buffer[..n] {
            line = step(to, node, line, *byte)?;
        }
    }
    answer(to, node, line)
}

fn main(rt: HostRuntime) -> io::Result<()> {
    run(&mut rt.stdin(), &rt, &mut Node::formatted())
}
