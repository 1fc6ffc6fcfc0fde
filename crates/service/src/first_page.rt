//! The first page of a new database, which says how large all of its pages are. `database_files`
//! writes it into the file that it makes; a file that is there keeps the size that it has.

use crate::file_header::FILE_HEADER;

/// Bytes of a page of a new database. A commit writes each page that it changes whole, first to the
/// log, so a debit over smaller pages writes less; still smaller ones waste room, and make an
/// opening slower. `bench/pages` measures them.
const PAGE_SIZE: usize = 2048;

/// That the changes of a file are in a log, for those who write and those who read.
const LOG: u8 = 2;

/// A page of a table's rows.
const LEAF: u8 = 13;

/// The page of a database that has no table: the header of its file, and no row of the schema.
pub(crate) fn first_page() -> [u8; PAGE_SIZE] {
    let [high, low] = (PAGE_SIZE as u16).to_be_bytes();
    let mut page = [0; PAGE_SIZE];
    page[..16].copy_from_slice(FILE_HEADER);
    page[16..24].copy_from_slice(&[high, low, LOG, LOG, 0, 64, 32, 32]);
    // One page; the fourth format of schemas; UTF-8.
    page[31] = 1;
    page[47] = 4;
    page[59] = 1;
    // The version of SQLite whose format this is, 3.45.0.
    page[96..100].copy_from_slice(&3_045_000u32.to_be_bytes());
    page[100] = LEAF;
    page[105..107].copy_from_slice(&[high, low]);
    page
}
