// A line served: the call that it asks for is made, and what the program prints for it is put into lent bytes. The contracts say that
// these bytes, and the state after, are those of document 01's definitions (specs/Serves.antt).
ghost use Rattle.std.specs.Prelude.{◌≡◌};
ghost use Rattle.scope.specs.Tables.Play.{Line, formatted};
ghost use Rattle.scope.specs.Tables.Session.{G};
ghost use Rattle.session.specs.Serves.{answered, shown, Serves};

use lines::Request;
use lines::print::{put_answer, put_word};
use std::marker::Model;
use trianglefire::{ENTRY_WORDS, RECORD_WORDS, SPARE_WORDS, tf_format, tf_read, tf_write};

// G: P = 2, W = 2, D = 3, T = 3, L = 3, C = 1.
// Kept: six constants, as the calls for C take six numbers; of a struct each call would name the fields again.
const P: u32 = 2;

const W: u32 = 2;

const D: u32 = 3;

const T: u32 = 3;

const L: u32 = 3;

const C: u32 = 1;

// The words of its 12 pages, of their spare, of its two translation pages' directory, of its one entry, and of the small record.
#[derive(Drop)]
pub struct Node {
    chip: [u32; 24],
    spare: [u32; 12 * SPARE_WORDS],
    directory: [u32; 2],
    cache: [u32; ENTRY_WORDS],
    record: [u32; RECORD_WORDS],
}

// A node is seen as its state.
impl Model for Node {
    ghost use Rattle.scope.specs.Lent.{State};
    ghost use Rattle.session.specs.Serves.{held};

    ghost Value = { State };

    ghost view = { λ n. held n.chip n.spare n.directory n.cache n.«record» };
}

impl Node {
    // A node that is formatted.
    pub fn formatted() -> Node
        ensures { result ≡ formatted G }
    {
        let mut node = Node {
            chip: [0; 24],
            spare: [0; 12 * SPARE_WORDS],
            directory: [0; 2],
            cache: [0; ENTRY_WORDS],
            record: [0; RECORD_WORDS],
        };
        let mut counts = [0u32; 3];
        tf_format(
            P,
            W,
            D,
            T,
            L,
            C,
            &mut node.chip,
            &mut node.spare,
            &mut node.directory,
            &mut node.cache,
            &mut node.record,
            &mut counts,
        );
        node
    }

    // Puts what is printed for a line; answers how many bytes that is, 0 for another line. Five numbers take at most 55 bytes.
    pub fn serve(&mut self, asked: Option<Request>, out: &mut [u8; 64]) -> usize
        ensures { Serves (shown asked self.old) self.new out.old out.new result }
    {
        match asked {
            Some(Request::Write(page, value)) => self.write_page(page, value, out),
            Some(Request::Read(page)) => self.read_page(page, out),
            None => 0,
        }
    }

    fn write_page(&mut self, page: u32, value: u32, out: &mut [u8; 64]) -> usize
        ensures { Serves (answered (Line.W page value) self.old) self.new out.old out.new result }
    {
        let buffer = [value; 2];
        let mut counts = [0u32; 3];
        let reply = tf_write(
            P,
            W,
            D,
            T,
            L,
            C,
            page,
            &mut self.chip,
            &mut self.spare,
            &mut self.directory,
            &mut self.cache,
            &mut self.record,
            &buffer,
            &mut counts,
        );
        put_answer(out, reply, counts)
    }

    fn read_page(&mut self, page: u32, out: &mut [u8; 64]) -> usize
        ensures { Serves (answered (Line.R page) self.old) self.new out.old out.new result }
    {
        let mut buffer = [0u32; 2];
        let mut counts = [0u32; 3];
        let reply = tf_read(
            P,
            W,
            D,
            T,
            L,
            C,
            page,
            &mut self.chip,
            &mut self.spare,
            &mut self.directory,
            &mut self.cache,
            &mut self.record,
            &mut buffer,
            &mut counts,
        );
        if reply == 0 {
            put_word(out, reply, counts, buffer[0])
        } else {
            put_answer(out, reply, counts)
        }
    }
}
