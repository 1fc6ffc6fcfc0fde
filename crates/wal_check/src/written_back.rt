//! Whether the file has what an emptied log had.

ghost use Rattle.std.specs.Prelude.{◌≡◌, ◌↔◌, ◌+◌, ◌^◌, ◌<◌, ◌≤◌, ℕ, ◌≢◌, slice_index, length, IsTrue, IfOk, OnOk};
ghost use Rattle.sqlite_disk.specs.Disk.{CountsFault, CountsFaultIf};
ghost use Rattle.sqlite_wal.specs.Format.{part};
ghost use Rattle.sqlite_wal.specs.Reads.{IsClean, AreClean, OnlyReads};
ghost use Rattle.sqlite_wal.specs.Recovery.{frame_at, file_page};
ghost use Rattle.wal_check.specs.Frames.{AreInFile, IsPageInFile};
ghost use Rattle.wal_check.specs.Walks.{AreNumbers};

use crate::format::{FRAME_HEADER_LEN, HEADER_LEN};
use sqlite_disk::{Disk, Files};
use std::io;

/// Whether the file has each page as the newest of the log's frames has it. `numbers` are the pages
/// of all frames that pass; `page` and `copy` each have room for one.
pub(crate) fn are_in_file<D: Disk>(
    files: &mut Files<D>,
    numbers: &[u32],
    page: &mut [u8],
    copy: &mut [u8],
) -> io::Result<bool>
    requires log_usable { IsTrue (D.Disk.is_usable files.old.log) }
    requires db_usable { IsTrue (D.Disk.is_usable files.old.db) }
    requires numbers { IsClean D.Disk files.old.log → AreNumbers (length page.old) (D.Disk.seen files.old.log) numbers.now }
    requires size { (0 < length page.old) × (length page.old ≤ 65536) × (length copy.old ≡ length page.old) }
    requires fits { frame_at (length page.old) (length numbers.now) < 2 ^ 64 }
    ensures in_file { IfOk result (λ b. AreClean D.Disk files.new.log files.new.db → (IsTrue b ↔ AreInFile (length page.old) (D.Disk.seen files.old.log) (D.Disk.seen files.old.db) (length numbers.now))) }
    ensures faults { CountsFaultIf (AreClean D.Disk files.new.log files.new.db × ((i : ℕ) → i < length numbers.now → frame_at (length page.old) i + (24 + length page.old) ≤ length (D.Disk.seen files.old.log))) result
        (D.Disk.faults files.old.log + D.Disk.faults files.old.db) (D.Disk.faults files.new.log + D.Disk.faults files.new.db) }
    ensures log { OnlyReads D.Disk files.old.log files.new.log }
    ensures db { OnlyReads D.Disk files.old.db files.new.db }
{
    let len = files.db.len()?;
    let mut at = HEADER_LEN;
    for i in 0..numbers.len() {
        if !is_kept(files, len, at, numbers, i, page, copy)? {
            return Ok(false);
        }
        at += FRAME_HEADER_LEN + page.len();
    }
    Ok(true)
}

/// Whether the file has the page of a frame, if no later frame is for that page.
fn is_kept<D: Disk>(
    files: &mut Files<D>,
    len: usize,
    at: usize,
    numbers: &[u32],
    i: usize,
    page: &mut [u8],
    copy: &mut [u8],
) -> io::Result<bool>
    requires log_usable { IsTrue (D.Disk.is_usable files.old.log) }
    requires db_usable { IsTrue (D.Disk.is_usable files.old.db) }
    requires len { IsClean D.Disk files.old.db → len ≡ length (D.Disk.seen files.old.db) }
    requires at { (at ≡ frame_at (length page.old) i) × (at + 24 < 2 ^ 64) }
    requires numbers { (i < length numbers.now) × (IsClean D.Disk files.old.log → AreNumbers (length page.old) (D.Disk.seen files.old.log) numbers.now) }
    requires size { (0 < length page.old) × (length page.old ≤ 65536) × (length copy.old ≡ length page.old) }
    ensures kept { IfOk result (λ b. AreClean D.Disk files.new.log files.new.db
        → (IsTrue b ↔ IsPageInFile (length page.old) (D.Disk.seen files.old.log) (D.Disk.seen files.old.db) (length numbers.now) i)) }
    ensures faults { CountsFaultIf (AreClean D.Disk files.new.log files.new.db × (at + (24 + length page.old) ≤ length (D.Disk.seen files.old.log))) result
        (D.Disk.faults files.old.log + D.Disk.faults files.old.db) (D.Disk.faults files.new.log + D.Disk.faults files.new.db) }
    ensures log { OnlyReads D.Disk files.old.log files.new.log }
    ensures db { OnlyReads D.Disk files.old.db files.new.db }
{
    if !is_newest(numbers, i, numbers[i]) {
        return Ok(true);
    }
    let has = is_in_file(files, len, at, numbers[i], page, copy)?;
    Ok(has)
}

/// Whether no number behind a place is this one.
fn is_newest(numbers: &[u32], place: usize, number: u32) -> bool
    requires { place < length numbers.now }
    ensures { IsTrue result ↔ ((j : ℕ) → place < j → j < length numbers.now → slice_index numbers.now j ≢ number) }
{
    for j in place + 1..numbers.len() {
        if numbers[j] == number {
            return false;
        }
    }
    true
}

/// Whether the file has a page as the frame that begins at a place.
fn is_in_file<D: Disk>(
    files: &mut Files<D>,
    len: usize,
    at: usize,
    number: u32,
    page: &mut [u8],
    copy: &mut [u8],
) -> io::Result<bool>
    requires log_usable { IsTrue (D.Disk.is_usable files.old.log) }
    requires db_usable { IsTrue (D.Disk.is_usable files.old.db) }
    requires len { IsClean D.Disk files.old.db → len ≡ length (D.Disk.seen files.old.db) }
    requires fits { at + 24 < 2 ^ 64 }
    requires size { (0 < length page.old) × (length page.old ≤ 65536) × (length copy.old ≡ length page.old) }
    ensures in_file { IfOk result (λ b. AreClean D.Disk files.new.log files.new.db
        → (IsTrue b ↔ file_page (length page.old) (D.Disk.seen files.old.db) number ≡ part (D.Disk.seen files.old.log) (at + 24) (length page.old))) }
    ensures faults { CountsFaultIf (AreClean D.Disk files.new.log files.new.db × (at + (24 + length page.old) ≤ length (D.Disk.seen files.old.log))) result
        (D.Disk.faults files.old.log + D.Disk.faults files.old.db) (D.Disk.faults files.new.log + D.Disk.faults files.new.db) }
    ensures log { OnlyReads D.Disk files.old.log files.new.log }
    ensures db { OnlyReads D.Disk files.old.db files.new.db }
{
    read_page(&mut files.log, at + FRAME_HEADER_LEN, page)?;
    has_page(&mut files.db, len, number, page, copy)
}

/// Reads a page of the log.
fn read_page<D: Disk>(log: &mut D, at: usize, page: &mut [u8]) -> io::Result<()>
    requires usable { IsTrue (D.Disk.is_usable log.old) }
    requires some { 0 < length page.old }
    ensures read { OnOk result (IsClean D.Disk log.new → part (D.Disk.seen log.old) at (length page.old) ≡ page.new) }
    ensures faults { CountsFaultIf (IsClean D.Disk log.old → at + length page.old ≤ length (D.Disk.seen log.old)) result (D.Disk.faults log.old) (D.Disk.faults log.new) }
    ensures same { OnlyReads D.Disk log.old log.new }
{
    log.read_at(at, page)
}

/// Whether the file has these bytes as a page.
fn has_page<D: Disk>(
    db: &mut D,
    len: usize,
    number: u32,
    page: &[u8],
    copy: &mut [u8],
) -> io::Result<bool>
    requires usable { IsTrue (D.Disk.is_usable db.old) }
    requires len { IsClean D.Disk db.old → len ≡ length (D.Disk.seen db.old) }
    requires size { (0 < length page.now) × (length page.now ≤ 65536) × (length copy.old ≡ length page.now) }
    ensures has { IfOk result (λ b. IsClean D.Disk db.new → (IsTrue b ↔ file_page (length page.now) (D.Disk.seen db.old) number ≡ page.now)) }
    ensures faults { CountsFault result (D.Disk.faults db.old) (D.Disk.faults db.new) }
    ensures same { OnlyReads D.Disk db.old db.new }
{
    let from = number.saturating_sub(1) as usize * page.len();
    if from > len || len - from < page.len() {
        return Ok(false);
    }
    db.read_at(from, copy)?;
    Ok(&*copy == page)
}
