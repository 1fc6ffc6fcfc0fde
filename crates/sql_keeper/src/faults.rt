//! Faults of calls: each counts that isn't lack of memory.

ghost use Rattle.std.specs.Prelude.{◌≡◌, ◌≤◌, ◌+◌, min};
ghost use Rattle.keepers.specs.Faults.{HasCause, max_failures};
ghost use Rattle.sql_keeper.specs.Asks.{IsCounted, IsHanded, counted_once, is_memory, told_fault};

use keepers::{MOST_FAILURES, StoreFault};
use sql_tables::ReadFault;
use sqlite::{Error, ErrorCode};

/// Counts a failure, up to `MOST_FAILURES`.
fn raise(failures: &mut u64)
    requires { failures.old ≤ max_failures }
    ensures bounded { failures.new ≤ max_failures }
    ensures kept { failures.old ≤ failures.new }
    ensures raised { min (failures.old + 1) max_failures ≤ failures.new }
    ensures once { failures.new ≡ min (failures.old + 1) max_failures }
{
    if *failures < MOST_FAILURES {
        *failures += 1;
    }
}

/// Whether a statement failed for lack of memory.
fn is_memory(error: Error) -> bool
    ensures { result ≡ is_memory error }
{
    matches!(error, Error::SqliteFailure(ErrorCode::OutOfMemory))
}

/// The fault of a call that failed. Where it isn't lack of memory it counts: so does a row out of
/// its rules.
fn fault_of(failures: &mut u64, fault: ReadFault) -> StoreFault
    requires { failures.old ≤ max_failures }
    ensures bounded { failures.new ≤ max_failures }
    ensures kept { failures.old ≤ failures.new }
    ensures cause { result ≡ StoreFault.Store → min (failures.old + 1) max_failures ≤ failures.new }
    ensures told { result ≡ told_fault fault }
    ensures once { failures.new ≡ counted_once failures.old result }
{
    match fault {
        ReadFault::Memory => StoreFault::Memory,
        ReadFault::Store(error) => {
            if is_memory(error) {
                return StoreFault::Memory;
            }
            raise(failures);
            StoreFault::Store
        }
        ReadFault::Rules => {
            raise(failures);
            StoreFault::Store
        }
    }
}

/// What was read.
///
/// # Errors
/// The fault of the call, which is counted unless it is lack of memory.
pub fn counted<T>(failures: &mut u64, read: Result<T, ReadFault>) -> Result<T, StoreFault>
    requires { failures.old ≤ max_failures }
    ensures bounded { failures.new ≤ max_failures }
    ensures cause { HasCause failures.old failures.new result }
    ensures handed { IsHanded read result }
    ensures once { IsCounted failures.old failures.new read result }
{
    match read {
        Ok(value) => Ok(value),
        Err(fault) => Err(fault_of(failures, fault)),
    }
}
