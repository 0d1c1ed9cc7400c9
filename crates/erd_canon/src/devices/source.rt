ghost use Rattle.std.specs.Prelude.{◌≡◌, ◌≢◌, ◌↔◌, ℕ, ◌+◌, ◌<◌, ◌≤◌, List, [], length, true, false, IfOk, OnOk, OnErr, MatchResult, IsErrOf, Err, vec_len};
ghost use Rattle.erd_canon.specs.Words.{ReadsAtMost, ReadConsumes, Consumes, IsAtEnd, Reader, most_bytes, most_reads, Exceeds};
ghost use Rattle.erd_canon.specs.code.Chunks.{TakesChunk};

use crate::engines::outcome::RunFault;
use std::alloc::{AllocError, Global};

/// The error of a device: a read, a write or a flush failed.
#[derive(Clone, Copy, Debug, PartialEq, Eq)]
pub struct Failed;

/// A reader that remembers whether it has failed. After a failure it must not be read again.
pub trait Source {
    // What contracts know of it.
    ghost reader: { Reader Self };

    /// Reads into the front of the buffer and returns how many bytes it read. It returns 0 only at the end of the input, or
    /// if the buffer is empty.
    ///
    /// # Errors
    ///
    /// `Failed` if the read failed.
    ///
    /// ```
    /// let mut source = ReadFrom::of("abc".as_bytes());
    /// let mut buffer = [0; 2];
    /// assert_eq!(rt; source.read(&mut buffer).ok(), Some(2));
    /// ```
    fn read(&mut self, buffer: &mut [u8]) -> Result<usize, Failed>
        requires { reader.has_failed self.old ≡ false }
        ensures bound { ReadsAtMost result buffer.new }
        ensures bytes { ReadConsumes (reader.remaining self.old) (reader.remaining self.new) result buffer.new }
        ensures ok { OnOk result (reader.has_failed self.new ≡ reader.has_failed self.old) }
        ensures err { OnErr result (reader.has_failed self.new ≡ true) }
        ensures counted { reader.reads self.new ≡ reader.reads self.old + 1 }
        ensures gave { MatchResult result (λ count. reader.given self.new ≡ reader.given self.old + count)
            (λ _. reader.given self.new ≡ reader.given self.old) };

    /// Returns whether a read has failed.
    ///
    /// ```
    /// assert!(rt; !reader.failed() && !out.failed());
    /// ```
    fn failed(&self) -> bool
        ensures { result ≡ reader.has_failed self.now };
}

/// The most bytes that a run accepts from one reader: 64 MiB. This is a limit of the profile (docs/PROFILE.md).
pub const MOST_BYTES: usize = 67_108_864;

// The size of the buffer for one read.
const CHUNK: usize = 65_536;

/// Reads all bytes of a reader, one chunk at a time, if there are at most `MOST_BYTES`. Each chunk is copied once, to the
/// end of the bytes before it.
pub(crate) fn read_all<S: Source>(alloc: Global, source: &mut S) -> Result<Vec<u8>, RunFault>
    requires { S.reader.has_failed source.old ≡ false }
    ensures all { IfOk result (λ v. Consumes (S.reader.remaining source.old) (S.reader.remaining source.new) v.items
        × IsAtEnd (S.reader.remaining source.new)) }
    ensures limit { IfOk result (λ v. vec_len v ≤ most_bytes) }
    ensures read { IsErrOf result RunFault.Read ↔ (S.reader.has_failed source.new ≡ true) }
    ensures too_long { result ≡ Err RunFault.TooLong →
        Exceeds most_bytes (S.reader.remaining source.old) (S.reader.remaining source.new) }
    ensures too_many { result ≡ Err RunFault.TooLong →
        S.reader.given source.old + most_bytes < S.reader.given source.new }
    ensures calls { S.reader.reads source.new ≤ S.reader.reads source.old + most_reads }
    ensures no_write { result ≢ Err RunFault.Write }
{
    let mut chunk = zeros(alloc, CHUNK)?;
    let mut bytes = Vec::new(alloc);
    fill(source, chunk.as_mut_slice(), &mut bytes)?;
    Ok(bytes)
}

fn zeros(alloc: Global, count: usize) -> Result<Vec<u8>, AllocError>
    ensures { IfOk result (λ v. vec_len v ≡ count) }
{
    vec![in alloc; 0u8; count]
}

// Reads to the end, one chunk at a time. Each read except the last gives at least one byte.
fn fill<S: Source>(source: &mut S, chunk: &mut [u8], bytes: &mut Vec<u8>) -> Result<(), RunFault>
    requires works { S.reader.has_failed source.old ≡ false }
    requires room { 0 < length chunk.old }
    requires empty { bytes.old.items ≡ [] }
    ensures all { OnOk result (Consumes (S.reader.remaining source.old) (S.reader.remaining source.new) bytes.new.items
        × IsAtEnd (S.reader.remaining source.new)) }
    ensures limit { OnOk result (vec_len bytes.new ≤ MOST_BYTES) }
    ensures read { IsErrOf result RunFault.Read ↔ (S.reader.has_failed source.new ≡ true) }
    ensures too_long { result ≡ Err RunFault.TooLong →
        Exceeds MOST_BYTES (S.reader.remaining source.old) (S.reader.remaining source.new) }
    ensures too_many { result ≡ Err RunFault.TooLong →
        S.reader.given source.old + MOST_BYTES < S.reader.given source.new }
    ensures calls { S.reader.reads source.new ≤ S.reader.reads source.old + MOST_BYTES + 1 }
    ensures no_write { result ≢ Err RunFault.Write }
{
    'reads: loop {
        match read_chunk(source, chunk, bytes) {
            Ok(true) => return Ok(()),
            Ok(false) => {}
            Err(fault) => return Err(fault),
        }
    }
}

// Reads once and adds the chunk to `bytes`. Returns whether that was the end.
fn read_chunk<S: Source>(
    source: &mut S,
    chunk: &mut [u8],
    bytes: &mut Vec<u8>,
) -> Result<bool, RunFault>
    requires works { S.reader.has_failed source.old ≡ false }
    requires room { 0 < length chunk.old }
    requires limit { vec_len bytes.old ≤ MOST_BYTES }
    ensures chunk { IfOk result (λ end. TakesChunk bytes.old.items (S.reader.remaining source.old) end
        bytes.new.items (S.reader.remaining source.new)) }
    ensures limit { OnOk result (vec_len bytes.new ≤ MOST_BYTES) }
    ensures read { IsErrOf result RunFault.Read ↔ (S.reader.has_failed source.new ≡ true) }
    ensures too_long { result ≡ Err RunFault.TooLong → ((more : List ℕ)
        × Consumes (S.reader.remaining source.old) (S.reader.remaining source.new) more
        × (MOST_BYTES < length bytes.old.items + length more)) }
    ensures too_many { result ≡ Err RunFault.TooLong →
        S.reader.given source.old + MOST_BYTES < S.reader.given source.new + vec_len bytes.old }
    ensures gave { OnOk result (S.reader.given source.new + vec_len bytes.old ≡ S.reader.given source.old + vec_len bytes.new) }
    ensures calls { S.reader.reads source.new ≡ S.reader.reads source.old + 1 }
    ensures no_write { result ≢ Err RunFault.Write }
{
    let count = source.read(chunk).map_err(|_| RunFault::Read)?;
    if count == 0 {
        return Ok(true);
    }
    if count > MOST_BYTES - bytes.len() {
        return Err(RunFault::TooLong);
    }
    bytes.extend_from_slice(&chunk[..count])?;
    Ok(false)
}
