// A recorder in Rattle: document 01's session through the five calls for Rattle, so that their form, a small record that is lent and changed
// in place and a lent slice of requests, is run and not only proved. The session is made twice on 01's geometry G, each time on a node that
// is formatted first and checked at the end: by a call for each request, and as one run. The node has the record by value, which
// lending.rt lends. It is proved safe and ending; what is printed, a word and the numbers of 01's session, is held to the file stdout.
#![tactic(auto)]

mod lending;
mod printing;

use crate::lending::REQUESTS;
use crate::printing::{tell, tell_numbers, tell_word};
use lent::reply::Reply;
use lent::{ENTRY_WORDS, Geometry, NONE, Record, SPARE_WORDS};
use lines::Request as Asked;
use lines::Request::{Read, Write};
use replies::{Kind, Request};
use std::io;

const G: Geometry = Geometry {
    p: 2,
    w: 2,
    d: 3,
    t: 3,
    l: 3,
    c: 1,
};

// 01's session, each line as what it asks for.
const SESSION: [Asked; REQUESTS] = [
    Write(0, 10),
    Write(1, 11),
    Write(0, 12),
    Write(2, 13),
    Write(1, 14),
    Read(0),
    Read(0),
    Write(0, 15),
];

// As a request of a run.
fn request(asked: Asked) -> Request {
    let (kind, page) = match asked {
        Write(page, _) => (Kind::Write, page),
        Read(page) => (Kind::Read, page),
    };
    Request {
        kind: kind.into(),
        page,
    }
}

// Its page of two words, which a run has beside the requests: what a write writes, and where the run puts what it read.
fn page_words(asked: Asked) -> [u32; 2] {
    match asked {
        Write(_, value) => [value; 2],
        Read(_) => [0; 2],
    }
}

// A node on G: the words of its 12 pages, of their spare, of its two translation pages' directory, of its one entry, and the small record.
#[derive(Drop)]
struct Node {
    chip: [u32; 24],
    spare: [u32; 12 * SPARE_WORDS],
    directory: [u32; 2],
    cache: [u32; ENTRY_WORDS],
    rec: Record,
}

impl Node {
    // A node as it comes: format asks nothing of the state before, nor of the record.
    fn unformatted() -> Node {
        Node {
            chip: [0; 24],
            spare: [0; 12 * SPARE_WORDS],
            directory: [0; 2],
            cache: [0; ENTRY_WORDS],
            // Kept: no plainer by a Default of Record, which would stand in lent for this place alone.
            rec: Record {
                open_data: 0,
                data_offset: 0,
                open_translation: 0,
                translation_offset: 0,
                used: 0,
                protected: 0,
            },
        }
    }

    fn format(&mut self, to: &impl Print) -> io::Result<()> {
        let mut counts = [NONE; 3];
        let out = lending::format(
            self.rec,
            G,
            &mut self.chip,
            &mut self.spare,
            &mut self.directory,
            &mut self.cache,
            &mut counts,
        );
        self.rec = out.rec;
        tell(to, "format", out.answer, counts)
    }

    // Says too what the record is, which has been lent to every call.
    fn check(&self, to: &impl Print) -> io::Result<()> {
        let mut counts = [NONE; 3];
        let answer = lending::check(
            self.rec,
            G,
            &self.chip,
            &self.spare,
            &self.directory,
            &self.cache,
            &mut counts,
        );
        tell(to, "check", answer, counts)?;
        let Record {
            open_data,
            data_offset,
            open_translation,
            translation_offset,
            used,
            protected,
        } = self.rec;
        println!(to;
            "record {open_data} {data_offset} {open_translation} {translation_offset} {used} {protected}"
        )
    }

    fn read_page(&mut self, to: &impl Print, page: u32) -> io::Result<()> {
        let mut buffer = [0u32; 2];
        let mut counts = [NONE; 3];
        let out = lending::read(
            self.rec,
            G,
            page,
            &mut self.chip,
            &mut self.spare,
            &mut self.directory,
            &mut self.cache,
            &mut buffer,
            &mut counts,
        );
        self.rec = out.rec;
        if out.answer == Reply::Done {
            tell_word(to, "read", out.answer, counts, buffer[0])
        } else {
            tell(to, "read", out.answer, counts)
        }
    }

    fn write_page(&mut self, to: &impl Print, page: u32, value: u32) -> io::Result<()> {
        let buffer = [value; 2];
        let mut counts = [NONE; 3];
        let out = lending::write(
            self.rec,
            G,
            page,
            &mut self.chip,
            &mut self.spare,
            &mut self.directory,
            &mut self.cache,
            &buffer,
            &mut counts,
        );
        self.rec = out.rec;
        tell(to, "write", out.answer, counts)
    }

    fn serve(&mut self, to: &impl Print, asked: Asked) -> io::Result<()> {
        match asked {
            Write(page, value) => self.write_page(to, page, value),
            Read(page) => self.read_page(to, page),
        }
    }

    fn one_by_one(&mut self, to: &impl Print) -> io::Result<()> {
        for asked in SESSION {
            self.serve(to, asked)?;
        }
        Ok(())
    }

    fn in_one_run(&mut self, to: &impl Print) -> io::Result<()> {
        let mut pages = SESSION.map(page_words);
        let mut answers = [NONE; REQUESTS];
        let mut counts = [NONE; 3];
        let out = lending::run(
            self.rec,
            G,
            SESSION.map(request),
            &mut self.chip,
            &mut self.spare,
            &mut self.directory,
            &mut self.cache,
            pages.as_flattened_mut(),
            &mut answers,
            &mut counts,
        );
        self.rec = out.rec;
        tell(to, "run", out.answer, counts)?;
        tell_numbers(to, "answers", &answers)?;
        tell_numbers(to, "pages", pages.as_flattened())
    }
}

fn main(rt: HostRuntime) -> io::Result<()> {
    let mut node = Node::unformatted();
    node.format(&rt)?;
    node.one_by_one(&rt)?;
    node.check(&rt)?;
    node.format(&rt)?;
    node.in_one_run(&rt)?;
    node.check(&rt)
}
