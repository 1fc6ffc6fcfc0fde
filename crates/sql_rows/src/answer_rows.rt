//! Rows of kept answers.

ghost use Rattle.std.specs.Prelude.{◌≡◌, map, option_map, IfErr, IfSome, MatchResult, Option};
ghost use Rattle.sql_rows.specs.Content.{rows_in, with_answer, with_rows};
ghost use Rattle.sql_rows.specs.Values.{Kept, answer_cells};
ghost use Rattle.sql_rows.specs.Texts.{kept_of};
ghost use Rattle.sql_rows.specs.Makes.{Makes};
ghost use Rattle.sql_rows.specs.Ruled.{IsRuledKept};
ghost use Rattle.sql_tables.specs.Statements.{HasTables, HasIdleTables, Reads, AttemptsOver};
ghost use Rattle.sql_tables.specs.Selects.{one_or_none};
ghost use Rattle.sqlite.specs.Held.{state};
ghost use Rattle.sqlite.specs.State.{HasCleanDisk};

use crate::running::run;
use identifiers::AccountNumber;
use sql_tables::{ReadFault, has_columns, one_of, read, text, text_at, whole};
use sqlite::{Alter, Connection, Error, Row, Transaction};

/// The texts that are kept of an accepted command.
#[derive(Drop)]
pub struct KeptTexts {
    /// The command.
    pub content: String,
    /// Its first answer.
    pub answer: String,
}

/// Puts the texts that are kept of a command under its key: its kind (1 for a request, 2 for an
/// operator's command), the name of its session or its reference, and the number of the request
/// (CC-Request-Number, RFC 8506 section 8.2; 0 for an operator's command).
///
/// # Errors
/// An error of the store. Then nothing is committed.
// rule: answer-rows
pub fn put_answer<S: Alter>(
    tx: &mut Transaction<'_, S>,
    account: &AccountNumber,
    kind: u32,
    name: &str,
    number: u32,
    texts: &KeptTexts,
) -> Result<(), Error>
    requires tables { HasTables (state S.Store tx.old.conn.now) }
    ensures { AttemptsOver S.Store (Makes (with_rows account.now (with_answer kind name.now number
        (kept_of texts.now)))) tx.old.conn tx.new.conn result }
{
    let of_account = text(account.as_str());
    let of_kind = whole(kind);
    let of_name = text(name);
    let of_number = whole(number);
    let of_content = text(texts.content.as_str());
    let of_answer = text(texts.answer.as_str());
    run(
        tx,
        "INSERT INTO answers VALUES (?1, ?2, ?3, ?4, ?5, ?6) \
         ON CONFLICT (account, kind, name, number) DO UPDATE SET \
         account = excluded.account, kind = excluded.kind, name = excluded.name, \
         number = excluded.number, content = excluded.content, answer = excluded.answer",
        &[
            of_account, of_kind, of_name, of_number, of_content, of_answer,
        ],
    )
}

/// The texts that are kept of a command under its key, as `put_answer` has it.
///
/// # Errors
/// `Store` where the store failed, `Rules` only where the row is out of its rules, `Memory` where a
/// growth was refused. Nothing is changed then either.
// rule: answer-rows
pub fn read_answer<S: Alter>(
    conn: &mut Connection<S>,
    account: &AccountNumber,
    kind: u32,
    name: &str,
    number: u32,
) -> Result<Option<KeptTexts>, ReadFault>
    requires idle { HasIdleTables (state S.Store conn.old) }
    ensures reads { Reads (λ trees o.
        option_map kept_of o ≡ (rows_in trees account.now).answers kind name.now number)
        (state S.Store conn.old) (state S.Store conn.new) result }
    // A row that is in the rules is answered.
    ensures refused { HasCleanDisk (state S.Store conn.new) → IfErr result (λ e.
        e ≡ ReadFault.Rules →
        ¬ IfSome ((rows_in (state S.Store conn.old).now.trees account.now).answers kind name.now
        number) IsRuledKept) }
{
    let of_account = text(account.as_str());
    let of_kind = whole(kind);
    let of_name = text(name);
    let of_number = whole(number);
    let rows = read(
        conn,
        "SELECT content, answer FROM answers \
         WHERE account = ?1 AND kind = ?2 AND name = ?3 AND number = ?4",
        &[of_account, of_kind, of_name, of_number],
    )?;
    kept_among(&rows)
}

fn kept_among(rows: &[Row]) -> Result<Option<KeptTexts>, ReadFault>
    ensures { MatchResult result
        (λ o. rows.now ≡ map answer_cells (one_or_none (option_map kept_of o)))
        (λ e. e ≡ ReadFault.Rules → (o : Option Kept) →
        rows.now ≡ map answer_cells (one_or_none o) → ¬ IfSome o IsRuledKept) }
{
    let row = one_of(rows)?;
    match row {
        None => Ok(None),
        Some(row) => Ok(Some(kept_from(row)?)),
    }
}

fn kept_from(row: &Row) -> Result<KeptTexts, ReadFault>
    ensures { MatchResult result (λ k. row.now ≡ answer_cells (kept_of k))
        (λ e. e ≡ ReadFault.Rules → (k : Kept) → row.now ≡ answer_cells k → ¬ IsRuledKept k) }
{
    has_columns(row, 2)?;
    let content = text_at(row, 0)?;
    let answer = text_at(row, 1)?;
    Ok(KeptTexts { content, answer })
}
