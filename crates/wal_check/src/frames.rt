//! The frames of a log, one after another.

ghost use Rattle.std.specs.Prelude.{◌≡◌, ◌≢◌, ◌↔◌, ◌+◌, ◌<◌, ◌≤◌, length, slice_index, IsTrue, IfOk, IsSome, MatchOption};
ghost use Rattle.sqlite_disk.specs.Disk.{CountsFault};
ghost use Rattle.sqlite_wal.specs.Format.{part};
ghost use Rattle.sqlite_wal.specs.Outcome.{FailsFor, Never};
ghost use Rattle.sqlite_wal.specs.Reads.{IsClean, OnlyReads};
ghost use Rattle.sqlite_wal.specs.Recovery.{frame_at, frame, Passes};
ghost use Rattle.wal_check.specs.Frames.{PassesOpened, IsShutAt};
ghost use Rattle.wal_check.specs.Walks.{IsShapeOf, IsFramePlace, IsFrameOf, AreRead};

use crate::format::{FRAME_HEADER_LEN, HEADER_LEN, Sum, get_be32, get_sum, is_frame};
use sqlite_disk::Disk;
use sqlite_wal::Error;
use std::alloc::Global;
use std::io;

/// Where a frame has its gate, the first byte of its salt.
const GATE: usize = 8;

/// Where the header has what opens a gate, the first byte of its salt.
const SALT: usize = 16;

/// A log's length and header, and the size of its pages.
#[derive(Clone, Copy)]
pub struct Shape {
    pub len: usize,
    pub head: [u8; 32],
    pub page_size: usize,
}

/// A frame's number, from 0, where it begins, and the checksum that it goes on from.
#[derive(Clone, Copy)]
pub struct Place {
    pub frame: usize,
    pub at: usize,
    pub sum: Sum,
}

/// What a frame says of itself: the page that it is for, the pages of the database after it if it
/// commits, else 0, and its checksum.
#[derive(Clone, Copy)]
pub struct Frame {
    pub page: u32,
    pub size: u32,
    pub sum: Sum,
}

/// The frames that pass: their pages, the place behind them, and whether the last one commits or
/// there is none.
#[derive(Drop)]
pub struct Frames {
    pub numbers: Vec<u32>,
    pub end: Place,
    pub commits: bool,
}

/// Reads all frames that pass, one after another.
pub(crate) fn read_frames<D: Disk>(
    alloc: Global,
    log: &mut D,
    shape: &Shape,
    buf: &mut [u8],
) -> Result<Frames, Error>
    requires usable { IsTrue (D.Disk.is_usable log.old) }
    requires shape { IsClean D.Disk log.old → IsShapeOf shape.now (D.Disk.seen log.old) }
    requires buf { length buf.old ≡ 24 + shape.now.page_size }
    ensures place { IfOk result (λ frames. (frames.end.frame ≡ length frames.numbers.items) × (frames.end.frame ≤ frames.end.at)
        × (frames.end.at ≡ frame_at shape.now.page_size frames.end.frame)) }
    ensures read { IfOk result (λ frames. IsClean D.Disk log.new → AreRead shape.now.page_size (D.Disk.seen log.old) frames) }
    ensures cause { FailsFor result (IsClean D.Disk log.new) (D.Disk.faults log.old) (D.Disk.faults log.new) Never }
    ensures same { OnlyReads D.Disk log.old log.new }
{
    let mut numbers = Vec::new(alloc);
    let mut place = Place {
        frame: 0,
        at: HEADER_LEN,
        sum: get_sum(&shape.head, 24),
    };
    let mut commits = true;
    while let Some(frame) = read_frame(log, shape, place, buf)? {
        numbers.push(frame.page)?;
        commits = has_size(frame);
        place = behind(shape, place, frame);
    }
    Ok(Frames {
        numbers,
        end: place,
        commits,
    })
}

/// The place behind a frame that was read.
pub(crate) fn behind(shape: &Shape, place: Place, frame: Frame) -> Place
    requires within { place.at + (24 + shape.now.page_size) ≤ shape.now.len }
    requires few { place.frame ≤ place.at }
    ensures frame { result.frame ≡ place.frame + 1 }
    ensures at { result.at ≡ place.at + (24 + shape.now.page_size) }
    ensures sum { result.sum ≡ frame.sum }
{
    Place {
        frame: place.frame + 1,
        at: place.at + (FRAME_HEADER_LEN + shape.page_size),
        sum: frame.sum,
    }
}

/// The frame at a place, if it passes.
pub(crate) fn read_frame<D: Disk>(
    log: &mut D,
    shape: &Shape,
    place: Place,
    buf: &mut [u8],
) -> io::Result<Option<Frame>>
    requires usable { IsTrue (D.Disk.is_usable log.old) }
    requires shape { IsClean D.Disk log.old → IsShapeOf shape.now (D.Disk.seen log.old) }
    requires place { IsClean D.Disk log.old →
        IsFramePlace shape.now.page_size (D.Disk.seen log.old) place }
    requires buf { length buf.old ≡ 24 + shape.now.page_size }
    ensures within { IfOk result (λ found. IsSome found → place.at + (24 + shape.now.page_size) ≤ shape.now.len) }
    ensures passes { IfOk result (λ found. IsClean D.Disk log.new → MatchOption found
        (¬ Passes shape.now.page_size (D.Disk.seen log.old) place.frame)
        (λ read. Passes shape.now.page_size (D.Disk.seen log.old) place.frame × IsFrameOf read (frame shape.now.page_size (D.Disk.seen log.old) place.frame))) }
    ensures faults { CountsFault result (D.Disk.faults log.old) (D.Disk.faults log.new) }
    ensures same { OnlyReads D.Disk log.old log.new }
{
    if !read_bytes(log, shape.len, place.at, buf)? {
        return Ok(None);
    }
    if !is_frame(&shape.head, place.sum, buf) {
        return Ok(None);
    }
    Ok(Some(frame_of(buf)))
}

/// The frame at a place, if it passes with its gate taken as open.
pub(crate) fn read_opened<D: Disk>(
    log: &mut D,
    shape: &Shape,
    place: Place,
    buf: &mut [u8],
) -> io::Result<Option<Frame>>
    requires usable { IsTrue (D.Disk.is_usable log.old) }
    requires shape { IsClean D.Disk log.old → IsShapeOf shape.now (D.Disk.seen log.old) }
    requires place { IsClean D.Disk log.old →
        IsFramePlace shape.now.page_size (D.Disk.seen log.old) place }
    requires buf { length buf.old ≡ 24 + shape.now.page_size }
    ensures within { IfOk result (λ found. IsSome found → place.at + (24 + shape.now.page_size) ≤ shape.now.len) }
    ensures passes { IfOk result (λ found. IsClean D.Disk log.new → MatchOption found
        (¬ PassesOpened shape.now.page_size (D.Disk.seen log.old) place.frame)
        (λ read. PassesOpened shape.now.page_size (D.Disk.seen log.old) place.frame × IsFrameOf read (frame shape.now.page_size (D.Disk.seen log.old) place.frame))) }
    ensures faults { CountsFault result (D.Disk.faults log.old) (D.Disk.faults log.new) }
    ensures same { OnlyReads D.Disk log.old log.new }
{
    if !read_bytes(log, shape.len, place.at, buf)? {
        return Ok(None);
    }
    let frame = frame_of(buf);
    buf[GATE] = shape.head[SALT];
    if !is_frame(&shape.head, place.sum, buf) {
        return Ok(None);
    }
    Ok(Some(frame))
}

/// Whether the gate of the frame at a place is there, and shut.
pub(crate) fn is_shut<D: Disk>(log: &mut D, shape: &Shape, place: Place) -> io::Result<bool>
    requires usable { IsTrue (D.Disk.is_usable log.old) }
    requires shape { IsClean D.Disk log.old → IsShapeOf shape.now (D.Disk.seen log.old) }
    requires place { IsClean D.Disk log.old →
        IsFramePlace shape.now.page_size (D.Disk.seen log.old) place }
    ensures shut { IfOk result (λ b. IsClean D.Disk log.new → (IsTrue b ↔ IsShutAt shape.now.page_size (D.Disk.seen log.old) place.frame)) }
    ensures faults { CountsFault result (D.Disk.faults log.old) (D.Disk.faults log.new) }
    ensures same { OnlyReads D.Disk log.old log.new }
{
    if place.at >= shape.len || shape.len - place.at <= GATE {
        return Ok(false);
    }
    let mut gate = [0];
    log.read_at(place.at + GATE, &mut gate)?;
    Ok(gate[0] != shape.head[SALT])
}

/// Reads as many bytes as there is room for, where the log has them.
fn read_bytes<D: Disk>(log: &mut D, len: usize, at: usize, buf: &mut [u8]) -> io::Result<bool>
    requires usable { IsTrue (D.Disk.is_usable log.old) }
    requires len { IsClean D.Disk log.old → len ≡ length (D.Disk.seen log.old) }
    requires some { 0 < length buf.old }
    ensures within { IfOk result (λ b. IsTrue b ↔ at + length buf.old ≤ len) }
    ensures read { IfOk result (λ b. IsClean D.Disk log.new → IsTrue b → part (D.Disk.seen log.old) at (length buf.old) ≡ buf.new) }
    ensures faults { CountsFault result (D.Disk.faults log.old) (D.Disk.faults log.new) }
    ensures same { OnlyReads D.Disk log.old log.new }
{
    if at > len || len - at < buf.len() {
        return Ok(false);
    }
    log.read_at(at, buf)?;
    Ok(true)
}

/// Whether a frame commits.
pub(crate) fn has_size(frame: Frame) -> bool
    ensures { IsTrue result ↔ frame.size ≢ 0 }
{
    frame.size != 0
}

/// What the bytes of a frame say.
fn frame_of(bytes: &[u8]) -> Frame
    requires { 24 ≤ length bytes.now }
    ensures { IsFrameOf result bytes.now }
{
    Frame {
        page: get_be32(bytes, 0),
        size: get_be32(bytes, 4),
        sum: get_sum(bytes, 16),
    }
}
