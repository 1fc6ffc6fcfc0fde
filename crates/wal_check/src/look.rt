//! The look at a log before its database is opened.

ghost use Rattle.std.specs.Prelude.{◌≡◌, ◌≢◌, ◌↔◌, ◌+◌, ◌<◌, ◌≤◌, ℕ, length, slice_index, IsTrue, IfOk, MatchOption};
ghost use Rattle.sqlite_wal.specs.Format.{be32, IsHeader};
ghost use Rattle.sqlite_wal.specs.Files.{seen_image};
ghost use Rattle.sqlite_wal.specs.Outcome.{FailsFor, Never};
ghost use Rattle.sqlite_wal.specs.PageSize.{IsPageSize};
ghost use Rattle.sqlite_wal.specs.Reads.{IsClean, AreClean, OnlyReads};
ghost use Rattle.wal_check.specs.Sound.{IsSoundImage, IsWritten, IsWrittenBack, EndsSound};
ghost use Rattle.wal_check.specs.Frames.{ArePassingFrames, AreInFile};
ghost use Rattle.wal_check.specs.Walks.{IsShapeOf};

use crate::format::{FRAME_HEADER_LEN, HEADER_LEN, MAGIC, VERSION, get_be32, is_signed};
use crate::frames::{Shape, is_shut, read_frames};
use crate::hidden::hides_commit;
use crate::written_back::are_in_file;
use sqlite_disk::{Disk, Files};
use sqlite_wal::{Error, PageSize};
use std::alloc::Global;

/// Whether a stop of the machine can have left the two files so. If not, the log is damaged, or
/// another program wrote it. Nothing is written.
///
/// # Errors
/// `Io`, a call of a file failed; `OutOfMemory`.
// rule: stop-log
pub fn is_sound<D: Disk>(alloc: Global, files: &mut Files<D>) -> Result<bool, Error>
    requires log_usable { IsTrue (D.Disk.is_usable files.old.log) }
    requires db_usable { IsTrue (D.Disk.is_usable files.old.db) }
    ensures sound { IfOk result (λ b. AreClean D.Disk files.new.log files.new.db → (IsTrue b ↔ IsSoundImage (seen_image D.Disk files.old.log files.old.db))) }
    ensures cause { FailsFor result (AreClean D.Disk files.new.log files.new.db)
        (D.Disk.faults files.old.log + D.Disk.faults files.old.db) (D.Disk.faults files.new.log + D.Disk.faults files.new.db) Never }
    ensures log { OnlyReads D.Disk files.old.log files.new.log }
    ensures db { OnlyReads D.Disk files.old.db files.new.db }
{
    let len = files.log.len()?;
    if files.db.len()? == 0 || len < 2 {
        return Ok(true);
    }
    let mut first = [0];
    files.log.read_at(0, &mut first)?;
    if first[0] == MAGIC {
        let written = is_written(alloc, &mut files.log, len)?;
        return Ok(written);
    }
    let back = is_written_back(alloc, files, len)?;
    Ok(back)
}

/// Whether the log has a header that passes and frames that end sound.
fn is_written<D: Disk>(alloc: Global, log: &mut D, len: usize) -> Result<bool, Error>
    requires usable { IsTrue (D.Disk.is_usable log.old) }
    requires len { IsClean D.Disk log.old → len ≡ length (D.Disk.seen log.old) }
    ensures written { IfOk result (λ b. IsClean D.Disk log.new → (IsTrue b ↔ IsWritten (D.Disk.seen log.old))) }
    ensures cause { FailsFor result (IsClean D.Disk log.new) (D.Disk.faults log.old) (D.Disk.faults log.new) Never }
    ensures same { OnlyReads D.Disk log.old log.new }
{
    if len < HEADER_LEN {
        return Ok(false);
    }
    let mut head = [0; 32];
    log.read_at(0, &mut head)?;
    let Some(page_size) = page_size_in(&head) else {
        return Ok(false);
    };
    let shape = Shape {
        len,
        head,
        page_size,
    };
    let ends = ends_sound(alloc, log, &shape)?;
    Ok(ends)
}

/// Whether the frames that pass end in one that commits, behind a shut gate that hides no commit.
fn ends_sound<D: Disk>(alloc: Global, log: &mut D, shape: &Shape) -> Result<bool, Error>
    requires usable { IsTrue (D.Disk.is_usable log.old) }
    requires shape { IsClean D.Disk log.old → IsShapeOf shape.now (D.Disk.seen log.old) }
    requires size { shape.now.page_size ≤ 65536 }
    ensures ends { IfOk result (λ b. IsClean D.Disk log.new → (IsTrue b ↔ ((n : ℕ) × EndsSound shape.now.page_size (D.Disk.seen log.old) n))) }
    ensures cause { FailsFor result (IsClean D.Disk log.new) (D.Disk.faults log.old) (D.Disk.faults log.new) Never }
    ensures same { OnlyReads D.Disk log.old log.new }
{
    let mut buf = vec![in alloc; 0; FRAME_HEADER_LEN + shape.page_size]?;
    let frames = read_frames(alloc, log, shape, &mut buf)?;
    if !frames.commits || !is_shut(log, shape, frames.end)? {
        return Ok(false);
    }
    let hides = hides_commit(log, shape, frames.end, &mut buf)?;
    Ok(!hides)
}

/// Whether the file has the pages of the log's frames, if the header passes but for its first byte.
fn is_written_back<D: Disk>(alloc: Global, files: &mut Files<D>, len: usize) -> Result<bool, Error>
    requires log_usable { IsTrue (D.Disk.is_usable files.old.log) }
    requires db_usable { IsTrue (D.Disk.is_usable files.old.db) }
    requires len { IsClean D.Disk files.old.log → len ≡ length (D.Disk.seen files.old.log) }
    ensures back { IfOk result (λ b. AreClean D.Disk files.new.log files.new.db → (IsTrue b ↔ IsWrittenBack (D.Disk.seen files.old.log) (D.Disk.seen files.old.db))) }
    ensures cause { FailsFor result (AreClean D.Disk files.new.log files.new.db)
        (D.Disk.faults files.old.log + D.Disk.faults files.old.db) (D.Disk.faults files.new.log + D.Disk.faults files.new.db) Never }
    ensures log { OnlyReads D.Disk files.old.log files.new.log }
    ensures db { OnlyReads D.Disk files.old.db files.new.db }
{
    if len < HEADER_LEN {
        return Ok(true);
    }
    let mut head = [0; 32];
    files.log.read_at(0, &mut head)?;
    let mut opened = head;
    opened[0] = MAGIC;
    let Some(page_size) = page_size_in(&opened) else {
        return Ok(true);
    };
    let shape = Shape {
        len,
        head,
        page_size,
    };
    let have = have_pages(alloc, files, &shape)?;
    Ok(have)
}

/// Whether the file has each page as the newest of the log's frames has it.
fn have_pages<D: Disk>(alloc: Global, files: &mut Files<D>, shape: &Shape) -> Result<bool, Error>
    requires log_usable { IsTrue (D.Disk.is_usable files.old.log) }
    requires db_usable { IsTrue (D.Disk.is_usable files.old.db) }
    requires shape { IsClean D.Disk files.old.log → IsShapeOf shape.now (D.Disk.seen files.old.log) }
    requires size { (0 < shape.now.page_size) × (shape.now.page_size ≤ 65536) }
    ensures have { IfOk result (λ b. AreClean D.Disk files.new.log files.new.db
        → (IsTrue b ↔ ((n : ℕ) → ArePassingFrames shape.now.page_size (D.Disk.seen files.old.log) n → AreInFile shape.now.page_size (D.Disk.seen files.old.log) (D.Disk.seen files.old.db) n))) }
    ensures cause { FailsFor result (AreClean D.Disk files.new.log files.new.db)
        (D.Disk.faults files.old.log + D.Disk.faults files.old.db) (D.Disk.faults files.new.log + D.Disk.faults files.new.db) Never }
    ensures log { OnlyReads D.Disk files.old.log files.new.log }
    ensures db { OnlyReads D.Disk files.old.db files.new.db }
{
    let mut buf = vec![in alloc; 0; FRAME_HEADER_LEN + shape.page_size]?;
    let mut page = vec![in alloc; 0; shape.page_size]?;
    let mut copy = vec![in alloc; 0; shape.page_size]?;
    let frames = read_frames(alloc, &mut files.log, shape, &mut buf)?;
    Ok(are_in_file(files, &frames.numbers, &mut page, &mut copy)?)
}

/// The size of a page that a header names, if the header passes and SQLite has pages of that size.
fn page_size_in(head: &[u8; 32]) -> Option<usize>
    ensures { MatchOption result
        (IsPageSize (be32 head.now 8) → ¬ IsHeader (be32 head.now 8) head.now)
        (λ size. (size ≡ be32 head.now 8) × IsPageSize size × IsHeader size head.now) }
{
    if !is_signed(head) || get_be32(head, 4) != VERSION {
        return None;
    }
    PageSize::new(get_be32(head, 8) as usize).map(PageSize::bytes)
}
