//! Lists of rows in the order of their keys, each key once.

ghost use Rattle.std.specs.Prelude.{◌≡◌, Bool, IsTrue};
ghost use Rattle.sql_rows.specs.Lists.{Ascends};

/// A row that is before others by its key.
pub(crate) trait InOrder {
    /// Whether the first is before the second.
    ghost before: { Self → Self → Bool };

    /// Whether it is before the other.
    fn is_before(&self, other: &Self) -> bool
        ensures { result ≡ before self.now other.now };
}

/// Whether each row is before the next.
pub(crate) fn do_ascend<T: InOrder>(rows: &[T]) -> bool
    ensures ascend { IsTrue result → Ascends T.before rows.now }
    ensures fall { Ascends T.before rows.now → IsTrue result }
{
    let mut last: Option<&T> = None;
    'rows: for row in rows {
        if let Some(before) = last {
            if !before.is_before(row) {
                return false;
            }
        }
        last = Some(row);
    }
    true
}
