//! The bytes of a head, taken off a stream.

ghost use Rattle.std.specs.Prelude.{◌≡◌, ◌≢◌, ◌≤◌, List, ℕ, length, take, drop, true, false, Some};
ghost use Rattle.std.specs.Prelude.{IfOk, IsErrOf, IfSome, IfNone};
ghost use Rattle.std.specs.Io.KnownBytes.{Keeps, IsAtEnd};
ghost use Rattle.http_messages.specs.Parts.{first_part, whole, IsHeadPart, IsShortHead, TakesHead};

use memchr::memmem;
use std::io::{BufRead, ErrorKind};
use texts::{MAX_ATTEMPTS, StreamFault, take_piece};

/// The longest head part, in bytes, with the empty line that ends it.
pub const MAX_HEAD_PART: usize = 8192;

/// How a head part ends: its last line, and then the empty one.
const END_OF_HEAD: &[u8] = b"\r\n\r\n";

/// What a stream begins with.
#[derive(Drop)]
pub enum HeadPart {
    /// A head part: all bytes up to and with the first empty line.
    Whole(Vec<u8>),
    /// No empty line within 8,192 bytes.
    TooLong,
    /// The stream ends before.
    Ended,
}

/// How many bytes the head part has that these bytes begin with, if they begin with a whole one.
fn shown_length(shown: &[u8]) -> Option<usize>
    ensures within { IfSome result (λ n. n ≤ length shown.now) }
    ensures some { IfSome result
        (λ n. first_part shown.now ≡ whole (take n shown.now) (drop n shown.now)) }
    ensures none { IfNone result ((part rest : List ℕ) → first_part shown.now ≢ whole part rest) }
{
    let most = shown.len().min(MAX_HEAD_PART);
    let at = memmem::find(&shown[..most], END_OF_HEAD)?;
    Some(at + END_OF_HEAD.len())
}

/// What a stream's buffer shows.
enum Shown {
    /// A whole head part, which was taken.
    Whole,
    /// Some bytes, and no whole head part. Nothing was taken.
    Short,
    /// The stream's end.
    End,
}

/// Adds the head part that a stream's buffer shows to these bytes, if it shows a whole one; None
/// where the reader was interrupted.
fn take_shown<R: BufRead>(reader: &mut R, part: &mut Vec<u8>) -> Result<Option<Shown>, StreamFault>
    ensures taken { IfOk result (λ shown. shown ≡ Some Shown.Whole → TakesHead part.old.items
        part.new.items (R.remaining reader.old) (R.remaining reader.new)) }
    ensures kept { IfOk result (λ shown. shown ≢ Some Shown.Whole →
        (part.new.items ≡ part.old.items)
        × Keeps (R.remaining reader.old) (R.remaining reader.new)) }
    ensures end { IfOk result (λ shown. shown ≡ Some Shown.End → IsAtEnd (R.remaining reader.old)) }
    ensures fault { IsErrOf result StreamFault.Write → ⊥ }
{
    let shown = match reader.fill_buf() {
        Ok(shown) => shown,
        Err(error) if error.kind() == ErrorKind::Interrupted => return Ok(None),
        Err(_) => return Err(StreamFault::Read),
    };
    if shown.is_empty() {
        return Ok(Some(Shown::End));
    }
    let Some(length) = shown_length(shown) else {
        return Ok(Some(Shown::Short));
    };
    part.extend_from_slice(&shown[..length])?;
    reader.consume(length);
    Ok(Some(Shown::Whole))
}

/// The same, tried again where the reader was interrupted.
///
/// # Errors
/// `Memory` where the growth was refused, `Read` where the reader failed, or was interrupted 100
/// times.
fn take_whole<R: BufRead>(reader: &mut R, part: &mut Vec<u8>) -> Result<Shown, StreamFault>
    ensures taken { IfOk result (λ shown. shown ≡ Shown.Whole → TakesHead part.old.items
        part.new.items (R.remaining reader.old) (R.remaining reader.new)) }
    ensures kept { IfOk result (λ shown. shown ≢ Shown.Whole →
        (part.new.items ≡ part.old.items)
        × Keeps (R.remaining reader.old) (R.remaining reader.new)) }
    ensures end { IfOk result (λ shown. shown ≡ Shown.End → IsAtEnd (R.remaining reader.old)) }
    ensures fault { IsErrOf result StreamFault.Write → ⊥ }
{
    for _attempt in 0..MAX_ATTEMPTS {
        if let Some(shown) = take_shown(reader, part)? {
            return Ok(shown);
        }
    }
    Err(StreamFault::Read)
}

/// Takes the next head part off a stream (RFC 9112 section 2.1; its greatest length: profile), into
/// the memory of these bytes, which are dropped.
///
/// # Errors
/// `Memory` where a growth was refused, `Read` where the reader failed, or was interrupted 100
/// times.
// rule: http-head
pub fn next_head_part<R: BufRead>(reader: &mut R, room: Vec<u8>) -> Result<HeadPart, StreamFault>
    ensures part { IfOk result (λ part. IfSome (R.remaining reader.old)
        (λ stream. IsHeadPart (first_part stream) part (R.remaining reader.new))) }
    ensures short { IfOk result IsShortHead }
    ensures fault { IsErrOf result StreamFault.Write → ⊥ }
{
    let mut part = room;
    part.clear();
    match take_whole(reader, &mut part)? {
        Shown::Whole => return Ok(HeadPart::Whole(part)),
        Shown::End => return Ok(HeadPart::Ended),
        Shown::Short => {}
    }
    for _turn in 0..MAX_HEAD_PART {
        let left = MAX_HEAD_PART - part.len();
        if left == 0 {
            break;
        }
        if take_piece(reader, &mut part, Some(b'\n'), left)? == 0 {
            return Ok(HeadPart::Ended);
        }
        if part.as_slice().ends_with(b"\r\n\r\n".as_slice()) {
            return Ok(HeadPart::Whole(part));
        }
    }
    Ok(HeadPart::TooLong)
}
