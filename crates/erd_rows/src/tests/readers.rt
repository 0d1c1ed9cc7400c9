//! Readers for tests.
use std::io;
use std::io::{ErrorKind, Read};

/// A reader that gives one byte per read and fails once, at the read after `good_reads` reads. It counts its reads, so a
/// test sees whether a read is tried again.
#[derive(Drop)]
pub struct FailingReader<'a> {
    rest: &'a [u8],
    good_reads: usize,
    /// The number of reads so far.
    pub reads: usize,
}

impl<'a> FailingReader<'a> {
    /// Returns a reader of these bytes that fails at the read after `good_reads` reads.
    pub fn after(bytes: &'a [u8], good_reads: usize) -> FailingReader<'a> {
        FailingReader {
            rest: bytes,
            good_reads,
            reads: 0,
        }
    }
}

impl Read for FailingReader<'_> {
    fn read(&mut self, buffer: &mut [u8]) -> io::Result<usize> {
        let fails = self.reads == self.good_reads;
        self.reads = self.reads.saturating_add(1);
        if fails {
            return Err(io::Error::from(ErrorKind::Interrupted));
        }
        let Some((first, others)) = self.rest.split_first() else {
            return Ok(0);
        };
        let Some(slot) = buffer.first_mut() else {
            return Ok(0);
        };
        *slot = *first;
        self.rest = others;
        Ok(1)
    }
}

/// A reader that gives a text, and then spaces.
#[derive(Drop)]
pub struct PaddedReader<'a> {
    /// The rest of the text.
    pub text: &'a [u8],
    /// The number of spaces that are left.
    pub blanks: usize,
}

impl Read for PaddedReader<'_> {
    fn read(&mut self, buffer: &mut [u8]) -> io::Result<usize> {
        if !self.text.is_empty() {
            let count = self.text.len().min(buffer.len());
            buffer[..count].copy_from_slice(&self.text[..count]);
            self.text = &self.text[count..];
            return Ok(count);
        }
        let count = self.blanks.min(buffer.len());
        buffer[..count].fill(b' ');
        self.blanks -= count;
        Ok(count)
    }
}
