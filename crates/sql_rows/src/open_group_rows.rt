//! What open sessions have of rating groups: rows of a part of a selection.

ghost use Rattle.std.specs.Prelude.{◌≡◌, map, IfOk};
ghost use Rattle.sql_rows.specs.Lists.{Ascends, open_group_before, open_group_cells};
ghost use Rattle.sql_rows.specs.Texts.{open_group_at};

use crate::ascending::{InOrder, do_ascend};
use crate::decoding::{flag_at, is_of_part, session_at};
use crate::group_rows::{GroupColumns, periods_from};
use identifiers::SessionId;
use sql_tables::{ReadFault, has_columns, number_at, small_at};
use sqlite::Row;
use std::alloc::Global;

/// What an open session has of a rating group.
pub struct OpenGroup {
    /// Session-Id (RFC 6733 section 8.8).
    pub session: SessionId,
    /// What it has of the rating group.
    pub columns: GroupColumns,
}

// It is written out, so that a caller doesn't prove again how each part is dropped.
impl Drop for OpenGroup {
    fn drop(self) {
        let OpenGroup {
            session: _,
            columns: _,
        } = self;
    }
}

impl InOrder for OpenGroup {
    ghost before = { λ x y. open_group_before (open_group_at x) (open_group_at y) };

    fn is_before(&self, other: &OpenGroup) -> bool {
        self.session
            .cmp(&other.session)
            .then(self.columns.group.cmp(&other.columns.group))
            .is_lt()
    }
}

/// What the rows of the part of the groups say, in the order of the sessions and of each one's
/// groups.
pub(crate) fn open_groups_from(alloc: Global, rows: &[Row]) -> Result<Vec<OpenGroup>, ReadFault>
    ensures cells { IfOk result
        (λ xs. map open_group_cells (map open_group_at xs.items) ≡ rows.now) }
    ensures order { IfOk result (λ xs. Ascends open_group_before (map open_group_at xs.items)) }
{
    let mut groups = Vec::new(alloc);
    'rows: for row in rows {
        let group = open_group_from(alloc, row)?;
        let Ok(()) = groups.push(group) else {
            return Err(ReadFault::Memory);
        };
    }
    if !do_ascend(&groups) {
        return Err(ReadFault::Rules);
    }
    Ok(groups)
}

fn open_group_from(alloc: Global, row: &Row) -> Result<OpenGroup, ReadFault>
    ensures { IfOk result (λ x. row.now ≡ open_group_cells (open_group_at x)) }
{
    has_columns(row, 7)?;
    is_of_part(row, 0)?;
    let session = session_at(alloc, row, 1)?;
    let group = small_at(row, 2)?;
    let used = number_at(row, 5)?;
    let reserved = flag_at(row, 6)?;
    let periods = periods_from(row, reserved)?;
    Ok(OpenGroup {
        session,
        columns: GroupColumns {
            group,
            used,
            periods,
        },
    })
}
