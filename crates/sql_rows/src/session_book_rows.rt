//! The books of the reservations of an account: rows of a part of a selection.

ghost use Rattle.std.specs.Prelude.{◌≡◌, map, IfOk};
ghost use Rattle.sql_rows.specs.Lists.{Ascends, session_book_before, session_book_cells};
ghost use Rattle.sql_rows.specs.Texts.{session_book_at};

use crate::ascending::{InOrder, do_ascend};
use crate::decoding::{is_of_part, session_at};
use crate::grant_book_rows::GrantBook;
use identifiers::SessionId;
use sql_tables::{ReadFault, has_columns, null_at, small_at};
use sqlite::Row;
use std::alloc::Global;

/// The book of a session's reservation.
pub struct SessionBook {
    /// Session-Id (RFC 6733 section 8.8).
    pub session: SessionId,
    /// The number of the book of its reservation in a rating group.
    pub columns: GrantBook,
}

// It is written out, so that a caller doesn't prove again how each part is dropped.
impl Drop for SessionBook {
    fn drop(self) {
        let SessionBook {
            session: _,
            columns: _,
        } = self;
    }
}

impl InOrder for SessionBook {
    ghost before = { λ x y. session_book_before (session_book_at x) (session_book_at y) };

    fn is_before(&self, other: &SessionBook) -> bool {
        self.session
            .cmp(&other.session)
            .then(self.columns.group.cmp(&other.columns.group))
            .is_lt()
    }
}

/// What the rows of the part of the books say, in the order of the sessions and of each one's
/// rating groups.
pub(crate) fn session_books_from(alloc: Global, rows: &[Row]) -> Result<Vec<SessionBook>, ReadFault>
    ensures cells { IfOk result
        (λ xs. map session_book_cells (map session_book_at xs.items) ≡ rows.now) }
    ensures order { IfOk result (λ xs. Ascends session_book_before (map session_book_at xs.items)) }
{
    let mut books = Vec::new(alloc);
    'rows: for row in rows {
        let book = session_book_from(alloc, row)?;
        let Ok(()) = books.push(book) else {
            return Err(ReadFault::Memory);
        };
    }
    if !do_ascend(&books) {
        return Err(ReadFault::Rules);
    }
    Ok(books)
}

fn session_book_from(alloc: Global, row: &Row) -> Result<SessionBook, ReadFault>
    ensures { IfOk result (λ x. row.now ≡ session_book_cells (session_book_at x)) }
{
    has_columns(row, 7)?;
    is_of_part(row, 2)?;
    let session = session_at(alloc, row, 1)?;
    let group = small_at(row, 2)?;
    let book = small_at(row, 3)?;
    null_at(row, 4)?;
    null_at(row, 5)?;
    null_at(row, 6)?;
    Ok(SessionBook {
        session,
        columns: GrantBook { group, book },
    })
}
