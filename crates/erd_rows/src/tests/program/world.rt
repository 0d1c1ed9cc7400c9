//! A world in memory, whose calls fail when they are told to.
use erd_canon::{FileName, Free, Log, ReadFrom, WriteTo};
use erd_program::{Files, World, WorldFault, run_program};
use std::alloc::{AllocError, Global};
use std::io;
use std::io::{ErrorKind, Read, Write};

/// A report in canonical form.
pub const REPORT: &str = concat!(
    r#"{"@type":"ElectionResults.ElectionReport","Election":[{"@type":"ElectionResults.Election","ElectionScopeId":"gp1","#,
    r#""EndDate":"2026-11-03","Name":"Test","StartDate":"2026-11-03","Type":"general"}],"Format":"summary-contest","#,
    r#""GeneratedDate":"2000-01-01T00:00:00Z","GpUnit":[{"@id":"gp1","@type":"ElectionResults.ReportingUnit","#,
    r#""ExternalIdentifier":[{"@type":"ElectionResults.ExternalIdentifier","Type":"local-level","Value":"U1"}],"Type":"county"}],"#,
    r#""Issuer":"canonical","IssuerAbbreviation":"canonical","SequenceEnd":1,"SequenceStart":1,"Status":"pre-election","#,
    r#""VendorApplicationId":"canonical"}"#,
);

/// The same report with another type of the unit.
pub const OTHER: &str = concat!(
    r#"{"@type":"ElectionResults.ElectionReport","Election":[{"@type":"ElectionResults.Election","ElectionScopeId":"gp1","#,
    r#""EndDate":"2026-11-03","Name":"Test","StartDate":"2026-11-03","Type":"general"}],"Format":"summary-contest","#,
    r#""GeneratedDate":"2000-01-01T00:00:00Z","GpUnit":[{"@id":"gp1","@type":"ElectionResults.ReportingUnit","#,
    r#""ExternalIdentifier":[{"@type":"ElectionResults.ExternalIdentifier","Type":"local-level","Value":"U1"}],"Type":"city"}],"#,
    r#""Issuer":"canonical","IssuerAbbreviation":"canonical","SequenceEnd":1,"SequenceStart":1,"Status":"pre-election","#,
    r#""VendorApplicationId":"canonical"}"#,
);

// The files of the world, each with its name.
const FILES: [(&str, &str); 4] = [
    ("one", REPORT),
    ("other", OTHER),
    ("empty", "{}"),
    ("text", "no JSON"),
];

/// The number of calls of each kind that are good, before one fails.
#[derive(Clone, Copy)]
pub struct Good {
    /// Openings.
    pub opens: usize,
    /// Reads of each file and of standard input.
    pub reads: usize,
    /// Writes and flushes of standard output.
    pub out: usize,
    /// Writes and flushes of standard error.
    pub err: usize,
}

/// No call fails.
pub const GOOD: Good = Good {
    opens: 9,
    reads: 9,
    out: 90,
    err: 90,
};

/// A reader of a text.
#[derive(Drop)]
pub struct TextReader {
    rest: &'static [u8],
    good: usize,
}

impl Read for TextReader {
    fn read(&mut self, buffer: &mut [u8]) -> io::Result<usize> {
        if self.good == 0 {
            return Err(io::Error::from(ErrorKind::Other));
        }
        self.good -= 1;
        let count = self.rest.len().min(buffer.len());
        buffer[..count].copy_from_slice(&self.rest[..count]);
        self.rest = &self.rest[count..];
        Ok(count)
    }
}

const PAGE: usize = 4096;

// The most bytes that a page takes at once.
const LINE: usize = 64;

/// A writer that keeps what it takes.
#[derive(Drop)]
pub struct Page {
    page: [u8; PAGE],
    len: usize,
    good: usize,
}

impl Page {
    // A page that has taken nothing yet.
    fn empty(good: usize) -> Page {
        Page {
            page: [0; PAGE],
            len: 0,
            good,
        }
    }

    /// Returns the bytes that it has taken.
    pub fn text(&self) -> &[u8] {
        self.page.get(..self.len).unwrap_or(&[])
    }
}

impl Write for Page {
    fn write(&mut self, bytes: &[u8]) -> io::Result<usize> {
        if self.good == 0 {
            return Err(io::Error::from(ErrorKind::Other));
        }
        self.good -= 1;
        let count = bytes.len().min(LINE).min(PAGE.saturating_sub(self.len));
        if count > 0 {
            self.page[self.len..self.len + count].copy_from_slice(&bytes[..count]);
            self.len += count;
        }
        Ok(count)
    }

    fn flush(&mut self) -> io::Result<()> {
        if self.good == 0 {
            return Err(io::Error::from(ErrorKind::Other));
        }
        self.good -= 1;
        Ok(())
    }
}

/// The files of the world.
#[derive(Drop)]
struct Shelf {
    good: Good,
    opened: Log<FileName, Result<ReadFrom<TextReader>, WorldFault>>,
    beside: Log<FileName, Result<ReadFrom<TextReader>, WorldFault>>,
    closed: Log<FileName, ReadFrom<TextReader>>,
}

impl Shelf {
    // The text of the file with this name, or none if it cannot be opened.
    fn text(&self, name: &str) -> Option<&'static str> {
        if self.good.opens == 0 {
            return None;
        }
        for (known, text) in FILES {
            if known == name {
                return Some(text);
            }
        }
        None
    }
}

impl Files for Shelf {
    type File = ReadFrom<TextReader>;

    ghost opened = { λ s. s.opened.items };

    ghost beside = { λ s. s.beside.items };

    ghost closed = { λ s. s.closed.items };

    fn open(&mut self, name: &FileName) -> Result<ReadFrom<TextReader>, WorldFault> {
        let given = match self.text(name.as_str()) {
            Some(text) => Ok(ReadFrom::of(reader(text, self.good))),
            None => Err(WorldFault::Refused),
        };
        self.good.opens = self.good.opens.saturating_sub(1);
        self.opened = self.opened.and(name, &given);
        given
    }

    fn open_beside(
        &mut self,
        name: &FileName,
        other: &Result<ReadFrom<TextReader>, WorldFault>,
    ) -> Result<ReadFrom<TextReader>, WorldFault> {
        self.beside = self.beside.and(name, other);
        self.open(name)
    }

    fn close(&mut self, name: &FileName, file: ReadFrom<TextReader>) {
        self.closed = self.closed.and(name, &file);
    }
}

// A reader of the text.
fn reader(text: &'static str, good: Good) -> TextReader {
    TextReader {
        rest: text.as_bytes(),
        good: good.reads,
    }
}

/// How a run has ended.
#[derive(Drop)]
pub struct Ended {
    /// The exit status.
    pub status: u8,
    /// Standard output.
    pub out: Page,
    /// Standard error.
    pub err: Page,
}

impl Ended {
    /// Returns whether the run has ended with this status and these texts.
    pub fn is(&self, status: u8, out: &[u8], err: &[u8]) -> bool {
        self.status == status && self.out.text() == out && self.err.text() == err
    }
}

/// Runs the program on the words of a line, in a world with a report on standard input.
pub fn run(alloc: Global, line: Result<&str, WorldFault>, good: Good) -> Ended {
    let words = match line {
        Ok(line) => words_of(alloc, line).map_err(WorldFault::from),
        Err(fault) => Err(fault),
    };
    let mut world = World {
        files: Shelf {
            good,
            opened: Log::new(),
            beside: Log::new(),
            closed: Log::new(),
        },
        input: ReadFrom::of(reader(REPORT, good)),
        out: WriteTo::of(Page::empty(good.out)),
        err: WriteTo::of(Page::empty(good.err)),
    };
    let status = run_program(alloc, words, &mut world, &Free);
    Ended {
        status,
        out: world.out.writer,
        err: world.err.writer,
    }
}

// The words of the line.
fn words_of(alloc: Global, line: &str) -> Result<Vec<String>, AllocError> {
    let mut words = Vec::new(alloc);
    for word in line.split(' ') {
        words.push(String::from_str(alloc, word)?)?;
    }
    Ok(words)
}
