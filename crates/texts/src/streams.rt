//! Streams of bytes: a line or so many bytes taken from any reader, a text written whole to any
//! writer. A read or a write that is interrupted is tried again, up to 100 times.

ghost use Rattle.std.specs.Prelude.{◌≡◌, ◌≢◌, ◌==◌, ◌≤◌, ◌<◌, ◌-◌, ℕ, length, take, All};
ghost use Rattle.std.specs.Prelude.{OnOk, OnErr, IfOk, IsErrOf, IfNone, IfSome, option_to_list};
ghost use Rattle.std.specs.Io.KnownBytes.{Appends, Consumes, IsAtEnd, Keeps};
ghost use Rattle.texts.specs.Lines.{IsLineOf};
ghost use Rattle.texts.specs.Parts.{IsPartOf, TakesPiece};
ghost use Rattle.texts.specs.declared.streams.StreamFault.TheVariants.{Memory};

use std::alloc::{AllocError, AllocFailed, Global};
use std::io::{BufRead, ErrorKind, Read, Write};
use thiserror::Error;

/// How often a read or a write is tried that is interrupted each time.
pub const MAX_ATTEMPTS: u32 = 100;

/// Why a stream wasn't read or written.
#[derive(Clone, Copy, Debug, Drop, Error, PartialEq, Eq)]
pub enum StreamFault {
    /// A growth was refused.
    #[error("out of memory")]
    Memory,
    /// The reader answered an error.
    #[error("the reader failed")]
    Read,
    /// The writer answered an error, or took nothing.
    #[error("the writer failed")]
    Write,
}

impl From<AllocError> for StreamFault {
    ghost from_gives = { λ _ fault. fault ≡ Memory };

    fn from(_error: AllocError) -> StreamFault {
        StreamFault::Memory
    }
}

impl<T: Drop> From<AllocFailed<T>> for StreamFault {
    ghost from_gives = { λ _ fault. fault ≡ Memory };

    fn from(_error: AllocFailed<T>) -> StreamFault {
        StreamFault::Memory
    }
}

/// The next byte, or none at the end.
///
/// # Errors
/// `Read` where the reader failed, or was interrupted 100 times. Then no byte is taken.
pub fn next_byte<R: Read>(reader: &mut R) -> Result<Option<u8>, StreamFault>
    ensures taken { IfOk result
        (λ byte. Consumes (R.remaining reader.old) (R.remaining reader.new) (option_to_list byte)) }
    ensures end { IfOk result (λ byte. IfNone byte (IsAtEnd (R.remaining reader.new))) }
    ensures err { OnErr result (Keeps (R.remaining reader.old) (R.remaining reader.new)) }
    ensures fault { OnErr result (result ≡ Err StreamFault.Read) }
{
    let mut one = [0u8; 1];
    for _attempt in 0..MAX_ATTEMPTS {
        match reader.read(&mut one) {
            Ok(0) => return Ok(None),
            Ok(_) => return Ok(Some(one[0])),
            Err(error) if error.kind() == ErrorKind::Interrupted => {}
            Err(_) => return Err(StreamFault::Read),
        }
    }
    Err(StreamFault::Read)
}

/// How many of the bytes that are shown to take: those up to and with the first one that stops, at
/// most so many.
fn count_taken(shown: &[u8], stop: Option<u8>, most: usize) -> usize
    ensures within { result ≤ length shown.now }
    ensures most { result ≤ most }
    ensures some { 0 < length shown.now → 0 < most → 0 < result }
    ensures before { IfSome stop (λ byte. All (λ b. b ≢ byte) (take (result - 1) shown.now)) }
{
    let most = most.min(shown.len());
    match stop {
        None => most,
        Some(byte) => count_through(shown, byte, most),
    }
}

/// How many bytes there are up to and with the first such one, at most so many.
fn count_through(shown: &[u8], byte: u8, most: usize) -> usize
    requires { most ≤ length shown.now }
    ensures most { result ≤ most }
    ensures some { 0 < most → 0 < result }
    ensures before { All (λ b. b ≢ byte) (take (result - 1) shown.now) }
{
    for at in 0..most {
        if shown[at] == byte {
            return at + 1;
        }
    }
    most
}

/// Adds bytes of a stream's buffer to a part, and answers how many; 0 at the end, None where the
/// reader was interrupted.
fn take_shown<R: BufRead>(
    reader: &mut R,
    part: &mut Vec<u8>,
    stop: Option<u8>,
    most: usize,
) -> Result<Option<usize>, StreamFault>
    requires { 0 < most }
    ensures taken { IfOk result (λ taken. IfSome taken
        (TakesPiece stop most part.old.items part.new.items (R.remaining reader.old)
        (R.remaining reader.new))) }
    ensures interrupted { IfOk result (λ taken. IfNone taken
        ((part.new.items ≡ part.old.items)
        × Keeps (R.remaining reader.old) (R.remaining reader.new))) }
    ensures fault { IsErrOf result StreamFault.Write → ⊥ }
{
    let shown = match reader.fill_buf() {
        Ok(shown) => shown,
        Err(error) if error.kind() == ErrorKind::Interrupted => return Ok(None),
        Err(_) => return Err(StreamFault::Read),
    };
    let count = count_taken(shown, stop, most);
    part.extend_from_slice(&shown[..count])?;
    reader.consume(count);
    Ok(Some(count))
}

/// Adds the next bytes of a stream to a part, and answers how many: those that its buffer shows, up
/// to and with the first one that stops, and at most so many. 0 at the end.
///
/// # Errors
/// `Memory` where a growth was refused, `Read` where the reader failed, or was interrupted 100
/// times.
pub fn take_piece<R: BufRead>(
    reader: &mut R,
    part: &mut Vec<u8>,
    stop: Option<u8>,
    most: usize,
) -> Result<usize, StreamFault>
    requires { 0 < most }
    ensures taken { IfOk result (TakesPiece stop most part.old.items part.new.items
        (R.remaining reader.old) (R.remaining reader.new)) }
    ensures fault { IsErrOf result StreamFault.Write → ⊥ }
{
    for _attempt in 0..MAX_ATTEMPTS {
        if let Some(count) = take_shown(reader, part, stop, most)? {
            return Ok(count);
        }
    }
    Err(StreamFault::Read)
}

/// The next so many bytes, or none where the stream has fewer.
///
/// # Errors
/// `Memory` where a growth was refused, `Read` where the reader failed.
// rule: lines, http-body
pub fn next_bytes<R: BufRead>(
    alloc: Global,
    reader: &mut R,
    count: usize,
) -> Result<Option<Vec<u8>>, StreamFault>
    ensures part { IfOk result (λ part. IfSome (R.remaining reader.old)
        (λ stream. IsPartOf count stream part (R.remaining reader.new))) }
    ensures fault { IsErrOf result StreamFault.Write → ⊥ }
{
    let mut part = Vec::with_capacity(alloc, count)?;
    for _turn in 0..count {
        let left = count - part.len();
        if left == 0 {
            break;
        }
        if take_piece(reader, &mut part, None, left)? == 0 {
            return Ok(None);
        }
    }
    Ok(Some(part))
}

/// Whether a byte ends a line: it is a line feed.
fn ends_line(byte: u8) -> bool
    ensures { result ≡ (byte == 10) }
{
    byte == b'\n'
}

/// The next line: the bytes before the next line feed, which is taken too, or before the end of the
/// stream. None where the stream is at its end.
///
/// # Errors
/// `Memory` where a growth was refused, `Read` where the reader failed, or was interrupted 100
/// times.
// rule: lines
pub fn next_line<R: Read>(alloc: Global, reader: &mut R) -> Result<Option<Vec<u8>>, StreamFault>
    ensures line { IfOk result (λ line. IfSome (R.remaining reader.old)
        (λ stream. IsLineOf stream line (R.remaining reader.new))) }
    ensures fault { IsErrOf result StreamFault.Write → ⊥ }
{
    let mut line = Vec::new(alloc);
    for _taken in 0..u64::MAX {
        let Some(byte) = next_byte(reader)? else {
            return Ok(if line.is_empty() { None } else { Some(line) });
        };
        if ends_line(byte) {
            return Ok(Some(line));
        }
        line.push(byte)?;
    }
    // So many bytes fit into no vector.
    unreachable!()
}

/// Writes some of a text that isn't empty, and answers how much.
fn write_some<W: Write>(writer: &mut W, text: &[u8]) -> Result<usize, StreamFault>
    ensures some { IfOk result (λ n. 0 < n) }
    ensures within { IfOk result (λ n. n ≤ length text.now) }
    ensures ok { IfOk result
        (λ n. Appends (W.contents writer.old) (W.contents writer.new) (take n text.now)) }
    ensures err { OnErr result (Keeps (W.contents writer.old) (W.contents writer.new)) }
    ensures fault { OnErr result (result ≡ Err StreamFault.Write) }
{
    for _attempt in 0..MAX_ATTEMPTS {
        match writer.write(text) {
            Ok(0) => return Err(StreamFault::Write),
            Ok(n) => return Ok(n),
            Err(error) if error.kind() == ErrorKind::Interrupted => {}
            Err(_) => return Err(StreamFault::Write),
        }
    }
    Err(StreamFault::Write)
}

/// Writes all of a text.
///
/// # Errors
/// `Write` where the writer failed, took nothing, or was interrupted 100 times. Then a beginning of
/// the text is written.
pub fn write_whole<W: Write>(writer: &mut W, text: &[u8]) -> Result<(), StreamFault>
    ensures ok { OnOk result (Appends (W.contents writer.old) (W.contents writer.new) text.now) }
    ensures err { OnErr result
        ((n : ℕ) × Appends (W.contents writer.old) (W.contents writer.new) (take n text.now)) }
    ensures fault { OnErr result (result ≡ Err StreamFault.Write) }
{
    let mut at = 0;
    for _turn in 0..text.len() {
        if at >= text.len() {
            break;
        }
        let written = write_some(writer, &text[at..])?;
        at += written;
    }
    Ok(())
}
