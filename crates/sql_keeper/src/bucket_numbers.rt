//! Whether the numbers of new buckets are free, before a change is written: no bucket is written
//! over by one that is new.

ghost use Rattle.std.specs.Prelude.{◌≡◌};
ghost use Rattle.sql_keeper.specs.LiveGroups.{Gathers};
ghost use Rattle.sql_keeper.specs.Numbers.{AreFree, IsFree, first_bucket};
ghost use Rattle.sql_keeper.specs.Seen.{AreSeen};
ghost use Rattle.sql_rows.specs.Content.{rows_in};
ghost use Rattle.sql_tables.specs.Statements.{HasIdleTables};
ghost use Rattle.sqlite.specs.Held.{state};

use crate::seen::SeenAccount;
use crate::settling::find_head;
use buckets::Bucket;
use identifiers::AccountNumber;
use sql_rows::{HeadColumns, read_bucket};
use sql_tables::ReadFault;
use sqlite::{Alter, Connection};

/// The number of an account's next bucket. Of an account that isn't there yet each bucket is new.
pub(crate) fn first_bucket(head: &Option<HeadColumns>) -> u64
    ensures { result ≡ first_bucket head.now }
{
    match head {
        None => 0,
        Some(head) => head.next_bucket,
    }
}

/// Tests a bucket: from this number on it is new, and has none of its number beside it.
// rule: database-writes.numbers-free
fn test_bucket<S: Alter>(
    conn: &mut Connection<S>,
    account: &AccountNumber,
    first: u64,
    bucket: &Bucket,
) -> Result<(), ReadFault>
    requires idle { HasIdleTables (state S.Store conn.old) }
    ensures { Gathers (λ trees done. IsFree first (rows_in trees account.now) bucket.now)
        (state S.Store conn.old) (state S.Store conn.new) result }
{
    let number = bucket.number();
    if (number as u64) < first {
        return Ok(());
    }
    let row = read_bucket(conn, account, number)?;
    match row {
        None => Ok(()),
        Some(_) => Err(ReadFault::Rules),
    }
}

/// The same of each.
fn test_buckets<S: Alter>(
    conn: &mut Connection<S>,
    account: &AccountNumber,
    first: u64,
    rows: &[Bucket],
) -> Result<(), ReadFault>
    requires idle { HasIdleTables (state S.Store conn.old) }
    ensures { Gathers (λ trees done. AreFree first (rows_in trees account.now) rows.now)
        (state S.Store conn.old) (state S.Store conn.new) result }
{
    'rows: for row in rows {
        test_bucket(conn, account, first, row)?;
    }
    Ok(())
}

/// Tests the buckets that a change names: from the account's next number on there is none of their
/// numbers. It is out of the rules where one is there.
///
/// # Errors
/// `Store` where the store failed, `Rules` where a number is taken or a row is out of its rules.
// rule: database-writes.numbers-free
pub(crate) fn test_bucket_numbers<S: Alter>(
    conn: &mut Connection<S>,
    seen: &Option<SeenAccount>,
    account: &AccountNumber,
    rows: &[Bucket],
) -> Result<(), ReadFault>
    requires idle { HasIdleTables (state S.Store conn.old) }
    requires seen { AreSeen seen.now (state S.Store conn.old) }
    ensures { Gathers (λ trees done.
        AreFree (first_bucket (rows_in trees account.now).head) (rows_in trees account.now) rows.now)
        (state S.Store conn.old) (state S.Store conn.new) result }
{
    let head = find_head(conn, seen, account)?;
    test_buckets(conn, account, first_bucket(&head), rows)
}
