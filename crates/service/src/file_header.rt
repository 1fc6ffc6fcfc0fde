//! A file that is none of a database, known before anything is made beside it.

use std::fs;
use std::io::{self, Read};

/// What the file of a database begins with.
pub(crate) const FILE_HEADER: &[u8; 16] = b"SQLite format 3\0";

/// Whether there is a file at the path that isn't a database's: it has more than one byte, begins
/// otherwise, and has no log beside it, which one that is half made has. Nothing is written.
///
/// # Errors
/// Memory is refused.
pub(crate) fn is_other_file(rt: &HostRuntime, path: &str) -> io::Result<bool> {
    let Ok(real) = fs::canonicalize(rt, path) else {
        return Ok(false);
    };
    if file_len(rt, real.as_str()) < 2 || begins_as_database(rt, real.as_str()).unwrap_or(false) {
        return Ok(false);
    }
    let log = format!(in rt.alloc(); "{}-wal", real.as_str())?;
    Ok(file_len(rt, log.as_str()) == 0)
}

/// The bytes of the file at a path, 0 where there is no file.
fn file_len(rt: &HostRuntime, path: &str) -> u64 {
    match fs::metadata(rt, path) {
        Ok(found) if found.is_file() => found.len(),
        _ => 0,
    }
}

/// Whether a file begins as that of a database.
fn begins_as_database(rt: &HostRuntime, path: &str) -> io::Result<bool> {
    let mut head = [0; 16];
    fs::open(rt, path)?.read_exact(&mut head)?;
    Ok(&head == FILE_HEADER)
}
