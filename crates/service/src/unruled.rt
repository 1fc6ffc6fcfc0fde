//! Files that the engine reads and refuses for their rows. `database_files` asks it of files that
//! aren't opened, to tell such rows from a file that is damaged or isn't of this system.

ghost use Rattle.std.specs.Prelude.{IfOk, IsTrue};
ghost use Rattle.service.specs.Unruled.{ListsOurs};

use sql_tables::has_ours;
use sqlite::Leftover;
use sqlite_catalog::load::load;
use sqlite_disk::Disk;
use sqlite_trees::store::Store;
use std::alloc::{AllocError, Global};

/// Whether what is left of files that weren't opened lists tables of ours. The engine then read
/// their pages and their schema: a row or an index doesn't obey it.
pub(crate) fn lists_ours<D: Disk>(alloc: Global, left: &Leftover<D>) -> Result<bool, AllocError>
    ensures { IfOk result (λ is_ours. IsTrue is_ours → ListsOurs left.now) }
{
    let Leftover::Store(store) = left else {
        return Ok(false);
    };
    if store.is_broken() {
        return Ok(false);
    }
    match load(store, alloc)? {
        Some(schema) => Ok(has_ours(&schema)),
        None => Ok(false),
    }
}
