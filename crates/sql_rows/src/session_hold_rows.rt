//! What is held for the sessions of an account: rows of a part of a selection.

ghost use Rattle.std.specs.Prelude.{◌≡◌, map, IfOk};
ghost use Rattle.sql_rows.specs.Lists.{Ascends, session_hold_before, session_hold_cells};
ghost use Rattle.sql_rows.specs.Texts.{session_hold_at};

use crate::ascending::{InOrder, do_ascend};
use crate::decoding::{is_of_part, session_at};
use crate::hold_rows::HeldColumns;
use identifiers::SessionId;
use sql_tables::{ReadFault, has_columns, null_at, number_at, small_at};
use sqlite::Row;
use std::alloc::Global;

/// What is held for a session.
pub struct SessionHold {
    /// Session-Id (RFC 6733 section 8.8).
    pub session: SessionId,
    /// What its reservation in a rating group holds of a bucket.
    pub columns: HeldColumns,
}

// It is written out, so that a caller doesn't prove again how each part is dropped.
impl Drop for SessionHold {
    fn drop(self) {
        let SessionHold {
            session: _,
            columns: _,
        } = self;
    }
}

impl InOrder for SessionHold {
    ghost before = { λ x y. session_hold_before (session_hold_at x) (session_hold_at y) };

    fn is_before(&self, other: &SessionHold) -> bool {
        self.session
            .cmp(&other.session)
            .then(self.columns.group.cmp(&other.columns.group))
            .then(self.columns.bucket.cmp(&other.columns.bucket))
            .is_lt()
    }
}

/// What the rows of the part of the holds say, in the order of the sessions, of each one's rating
/// groups, and of each one's buckets.
pub(crate) fn session_holds_from(alloc: Global, rows: &[Row]) -> Result<Vec<SessionHold>, ReadFault>
    ensures cells { IfOk result
        (λ xs. map session_hold_cells (map session_hold_at xs.items) ≡ rows.now) }
    ensures order { IfOk result (λ xs. Ascends session_hold_before (map session_hold_at xs.items)) }
{
    let mut holds = Vec::new(alloc);
    'rows: for row in rows {
        let hold = session_hold_from(alloc, row)?;
        let Ok(()) = holds.push(hold) else {
            return Err(ReadFault::Memory);
        };
    }
    if !do_ascend(&holds) {
        return Err(ReadFault::Rules);
    }
    Ok(holds)
}

fn session_hold_from(alloc: Global, row: &Row) -> Result<SessionHold, ReadFault>
    ensures { IfOk result (λ x. row.now ≡ session_hold_cells (session_hold_at x)) }
{
    has_columns(row, 7)?;
    is_of_part(row, 1)?;
    let session = session_at(alloc, row, 1)?;
    let group = small_at(row, 2)?;
    let bucket = small_at(row, 3)?;
    let amount = number_at(row, 4)?;
    null_at(row, 5)?;
    null_at(row, 6)?;
    Ok(SessionHold {
        session,
        columns: HeldColumns {
            group,
            bucket,
            amount,
        },
    })
}
