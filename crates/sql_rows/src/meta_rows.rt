//! The row that is kept once.

ghost use Rattle.std.specs.Prelude.{◌≡◌, map, IfErr, IfOk, IfSome, MatchResult, OnOk, Option, Some};
ghost use Rattle.sql_rows.specs.Content.{tables_content, with_last_moment, with_meta};
ghost use Rattle.sql_rows.specs.Ruled.{IsMetaRead, IsRefusedMeta, IsRuledMeta};
ghost use Rattle.sql_rows.specs.Values.{Meta, meta_cells, nat};
ghost use Rattle.sql_rows.specs.Texts.{meta_of};
ghost use Rattle.sql_rows.specs.Makes.{Makes};
ghost use Rattle.sql_tables.specs.Statements.{Attempts, HasTables, HasIdleTables, HasRules, Reads};
ghost use Rattle.sql_tables.specs.Statements.{ReadsWithin};
ghost use Rattle.sql_tables.specs.Selects.{one_or_none};
ghost use Rattle.sqlite.specs.Held.{state};
ghost use Rattle.sqlite.specs.State.{HasCleanDisk};
ghost use Rattle.sqlite_value.specs.Order.{column};

use crate::decoding::{is_number_at, moment_at};
use crate::running::run;
use sql_tables::{ReadFault, has_columns, large, one_of, read, read_within, text, text_at, whole};
use sqlite::{Alter, Connection, Error, Row, Transaction};
use units::Moment;

/// What is kept once.
#[derive(Drop)]
pub struct MetaColumns {
    /// The version of the tables.
    pub version: u32,
    /// The text of the tariff book.
    pub book: String,
    /// The moment of the last accepted command.
    pub last: Moment,
}

/// Puts what is kept once: the version of the tables, the text of the tariff book, and the moment
/// of the last accepted command.
///
/// # Errors
/// An error of the store. Then nothing is committed.
pub fn put_meta<S: Alter>(
    tx: &mut Transaction<'_, S>,
    version: u32,
    book: &str,
    last: Moment,
) -> Result<(), Error>
    requires tables { HasTables (state S.Store tx.old.conn.now) }
    ensures same_reference { tx.new.conn.ghost_name ≡ tx.old.conn.ghost_name }
    ensures makes { Attempts
        (Makes (with_meta (record { version = version; book = book.now; last = last })))
        (state S.Store tx.old.conn.now) (state S.Store tx.new.conn.now) result }
    // The rows of the tables obey their rules then.
    ensures rules { OnOk result (HasRules (state S.Store tx.new.conn.now)) }
{
    let id = whole(1);
    let of_version = whole(version);
    let of_book = text(book);
    let moment = large(last.seconds());
    run(
        tx,
        "INSERT INTO meta VALUES (?1, ?2, ?3, ?4) \
         ON CONFLICT (id) DO UPDATE SET \
         id = excluded.id, version = excluded.version, book = excluded.book, \
         last_moment = excluded.last_moment",
        &[id, of_version, of_book, moment],
    )
}

/// Puts the moment of the last accepted command in the row that is kept once. The version of the
/// tables and the text of the tariff book stay as they are there, so that the text isn't handed
/// over; where no row is there nothing changes.
///
/// # Errors
/// An error of the store. Then nothing is committed.
// rule: statements-of-tables.tables-content
pub fn put_last_moment<S: Alter>(tx: &mut Transaction<'_, S>, last: Moment) -> Result<(), Error>
    requires tables { HasTables (state S.Store tx.old.conn.now) }
    requires rules { HasRules (state S.Store tx.old.conn.now) }
    ensures same_reference { tx.new.conn.ghost_name ≡ tx.old.conn.ghost_name }
    ensures makes { Attempts (Makes (with_last_moment last))
        (state S.Store tx.old.conn.now) (state S.Store tx.new.conn.now) result }
    // The rows of the tables obey their rules then.
    ensures rules { OnOk result (HasRules (state S.Store tx.new.conn.now)) }
{
    let moment = large(last.seconds());
    run(
        tx,
        "UPDATE meta SET last_moment = ?1 WHERE id = 1",
        &[moment],
    )
}

/// What is kept once, as tables of a version read it: none where it keeps another version, whatever
/// else its row holds.
///
/// # Errors
/// `Store` where the store failed; `Rules` only where no row is there, or it keeps this version and
/// is out of its rules; `Memory` where a growth was refused. Nothing is changed then either.
// rule: database-migrated.older
pub fn read_meta<S: Alter>(
    conn: &mut Connection<S>,
    version: u32,
) -> Result<Option<MetaColumns>, ReadFault>
    requires idle { HasIdleTables (state S.Store conn.old) }
    ensures reads { Reads (λ trees o. IsMetaRead version o (tables_content trees).meta)
        (state S.Store conn.old) (state S.Store conn.new) result }
    ensures version { IfOk result (λ o. IfSome o (λ m. m.version ≡ version)) }
    // A row that keeps another version is none, and one in the rules is answered.
    ensures refused { HasCleanDisk (state S.Store conn.new) →
        IfErr result (λ e. e ≡ ReadFault.Rules →
        IsRefusedMeta version (tables_content (state S.Store conn.old).now.trees).meta) }
{
    let rows = read(
        conn,
        "SELECT version, book, last_moment FROM meta WHERE id = 1",
        &[],
    )?;
    meta_among(&rows, version)
}

/// What is kept once, within a transaction, as `read_meta` reads it.
///
/// # Errors
/// As of `read_meta`. Then nothing is committed.
pub fn read_meta_within<S: Alter>(
    tx: &mut Transaction<'_, S>,
    version: u32,
) -> Result<Option<MetaColumns>, ReadFault>
    requires tables { HasTables (state S.Store tx.old.conn.now) }
    requires rules { HasRules (state S.Store tx.old.conn.now) }
    ensures same_reference { tx.new.conn.ghost_name ≡ tx.old.conn.ghost_name }
    ensures reads { ReadsWithin (λ trees o. IsMetaRead version o (tables_content trees).meta)
        (state S.Store tx.old.conn.now) (state S.Store tx.new.conn.now) result }
    ensures version { IfOk result (λ o. IfSome o (λ m. m.version ≡ version)) }
    // A row that keeps another version is none, and one in the rules is answered.
    ensures refused { HasCleanDisk (state S.Store tx.new.conn.now) →
        IfErr result (λ e. e ≡ ReadFault.Rules →
        IsRefusedMeta version (tables_content (state S.Store tx.old.conn.now).now.trees).meta) }
{
    let rows = read_within(
        tx,
        "SELECT version, book, last_moment \
         FROM meta WHERE id = 1",
        &[],
    )?;
    meta_among(&rows, version)
}

fn meta_among(rows: &[Row], version: u32) -> Result<Option<MetaColumns>, ReadFault>
    ensures version { IfOk result (λ o. IfSome o (λ m. m.version ≡ version)) }
    ensures read { MatchResult result
        (λ o. (kept : Option Meta) → rows.now ≡ map meta_cells (one_or_none kept) →
        IsMetaRead version o kept)
        (λ e. e ≡ ReadFault.Rules → (kept : Option Meta) →
        rows.now ≡ map meta_cells (one_or_none kept) → IsRefusedMeta version kept) }
{
    let row = one_of(rows)?;
    match row {
        None => Err(ReadFault::Rules),
        Some(row) => meta_at(row, version),
    }
}

/// The row, where it keeps a version: its version is looked at before all else.
// rule: database-migrated.older
fn meta_at(row: &Row, version: u32) -> Result<Option<MetaColumns>, ReadFault>
    ensures version { IfOk result (λ o. IfSome o (λ m. m.version ≡ version)) }
    ensures read { MatchResult result
        (λ o. (kept : Meta) → row.now ≡ meta_cells kept → IsMetaRead version o (Some kept))
        (λ e. e ≡ ReadFault.Rules → (kept : Meta) → row.now ≡ meta_cells kept →
        IsRefusedMeta version (Some kept)) }
{
    if !is_number_at(row, 0, version)? {
        return Ok(None);
    }
    Ok(Some(meta_from(row, version)?))
}

/// The rest of a row, the whole of it where the row keeps the version.
fn meta_from(row: &Row, version: u32) -> Result<MetaColumns, ReadFault>
    ensures version { IfOk result (λ m. m.version ≡ version) }
    ensures read { MatchResult result
        (λ m. column row.now 0 ≡ nat version → row.now ≡ meta_cells (meta_of m))
        (λ e. e ≡ ReadFault.Rules → (m : Meta) → row.now ≡ meta_cells m → ¬ IsRuledMeta m) }
{
    has_columns(row, 3)?;
    let book = text_at(row, 1)?;
    let last = moment_at(row, 2)?;
    Ok(MetaColumns {
        version,
        book,
        last,
    })
}
