//! A whole commit behind a gate that looks shut.

ghost use Rattle.std.specs.Prelude.{◌≡◌, ◌↔◌, ◌+◌, ◌≤◌, length, IsTrue, IfOk};
ghost use Rattle.sqlite_disk.specs.Disk.{CountsFault};
ghost use Rattle.sqlite_wal.specs.Reads.{IsClean, OnlyReads};
ghost use Rattle.wal_check.specs.Frames.{HidesCommit};
ghost use Rattle.wal_check.specs.Walks.{IsShapeOf, IsFramePlace};

use crate::frames::{Place, Shape, behind, has_size, read_frame, read_opened};
use sqlite_disk::Disk;
use std::io;

/// How many frames the engine gathers before it writes some of a transaction that goes on. Pieces of
/// one that was given up may stand behind a shut gate, and each has as many at least.
const SPILL_PAGES: usize = 2000;

/// Whether a commit stands whole behind the gate of the frame at a place, and another frame behind
/// it: then that gate was open, and its byte is damaged.
pub(crate) fn hides_commit<D: Disk>(
    log: &mut D,
    shape: &Shape,
    place: Place,
    buf: &mut [u8],
) -> io::Result<bool>
    requires usable { IsTrue (D.Disk.is_usable log.old) }
    requires shape { IsClean D.Disk log.old → IsShapeOf shape.now (D.Disk.seen log.old) }
    requires place { IsClean D.Disk log.old →
        IsFramePlace shape.now.page_size (D.Disk.seen log.old) place }
    requires few { place.frame ≤ place.at }
    requires buf { length buf.old ≡ 24 + shape.now.page_size }
    ensures hidden { IfOk result (λ b. IsClean D.Disk log.new → (IsTrue b ↔ HidesCommit shape.now.page_size (D.Disk.seen log.old) place.frame)) }
    ensures faults { CountsFault result (D.Disk.faults log.old) (D.Disk.faults log.new) }
    ensures same { OnlyReads D.Disk log.old log.new }
{
    let Some(mut frame) = read_opened(log, shape, place, buf)? else {
        return Ok(false);
    };
    let mut next = behind(shape, place, frame);
    for _step in 1..SPILL_PAGES {
        let commits = has_size(frame);
        let Some(found) = read_frame(log, shape, next, buf)? else {
            return Ok(false);
        };
        if commits {
            return Ok(true);
        }
        frame = found;
        next = behind(shape, next, frame);
    }
    Ok(false)
}
