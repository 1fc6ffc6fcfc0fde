//! What is kept of a command and its answer, found by its key.

ghost use Rattle.std.specs.Prelude.{◌≡◌, Ok, Some, IfOk, option_map, option_and_then};
ghost use Rattle.std.specs.Prelude.{string_bytes};
ghost use Rattle.wire.specs.Contents.{content_of};
ghost use Rattle.wire.specs.ReadingAnswers.{answer_of};
ghost use Rattle.sql_keeper.specs.Asks.{Asks, text_fault};
ghost use Rattle.sql_keeper.specs.Content.{answer_in, kept_in, texts_of_key};
ghost use Rattle.sql_rows.specs.Content.{rows_in};
ghost use Rattle.sql_rows.specs.Texts.{kept_of};
ghost use Rattle.sql_tables.specs.Statements.{HasIdleTables, Reads};
ghost use Rattle.sqlite.specs.Held.{state};
ghost use Rattle.sql_keeper.specs.Calls.{AsksTables};

use crate::faults::counted;
use crate::keeper::SqlKeeper;
use crate::still_open::still_open;
use commands::Content;
use identifiers::AccountNumber;
use json_fields::WireFault;
use keepers::{KeptAnswer, Key, StoreFault};
use sql_rows::{KeptTexts, read_answer};
use sql_tables::ReadFault;
use sqlite::{Alter, Connection};
use std::alloc::Global;
use wire::{WrittenAnswer, read_content};

/// Why a text isn't read: it is out of the rules, or memory ran out.
fn fault_of(fault: WireFault) -> ReadFault
    ensures { result ≡ text_fault fault }
{
    match fault {
        WireFault::Memory => ReadFault::Memory,
        _ => ReadFault::Rules,
    }
}

/// The command that a text kept under an account says.
fn content_said(alloc: Global, account: &AccountNumber, text: &str) -> Result<Content, ReadFault>
    ensures { IfOk result (λ c. content_of account.now text.now ≡ Ok c) }
{
    let account = account.clone()?;
    let bytes = text.as_bytes();
    read_content(alloc, account, bytes).map_err(fault_of)
}

/// The answer that a kept text says, with that text as it is.
fn answer_said(alloc: Global, text: String) -> Result<WrittenAnswer, ReadFault>
    ensures { IfOk result (λ a. answer_of (string_bytes text) ≡ Ok a) }
{
    WrittenAnswer::read(alloc, text).map_err(fault_of)
}

/// What texts that are kept under an account say; texts that say nothing are out of the rules.
fn kept_said(
    alloc: Global,
    account: &AccountNumber,
    texts: KeptTexts,
) -> Result<KeptAnswer, ReadFault>
    ensures { IfOk result (λ k. kept_in account.now (kept_of texts) ≡ Some k) }
{
    let KeptTexts {
        content: command,
        answer,
    } = texts;
    let content = content_said(alloc, account, command.as_str())?;
    let answer = answer_said(alloc, answer)?;
    Ok(KeptAnswer { content, answer })
}

/// The texts that are kept under a key.
fn texts_under<S: Alter>(
    conn: &mut Connection<S>,
    account: &AccountNumber,
    key: &Key,
) -> Result<Option<KeptTexts>, ReadFault>
    requires idle { HasIdleTables (state S.Store conn.old) }
    ensures { Reads (λ trees o. option_map kept_of o ≡
        texts_of_key key.now (rows_in trees account.now))
        (state S.Store conn.old) (state S.Store conn.new) result }
{
    match key {
        Key::Request { session, number } => {
            read_answer(conn, account, 1, session.as_str(), *number)
        }
        Key::Reference(reference) => read_answer(conn, account, 2, reference.as_str(), 0),
    }
}

/// What is kept where there are texts.
fn kept_where(
    alloc: Global,
    account: &AccountNumber,
    texts: Option<KeptTexts>,
) -> Result<Option<KeptAnswer>, ReadFault>
    ensures { IfOk result (λ o. o ≡
        option_and_then (kept_in account.now) (option_map kept_of texts)) }
{
    match texts {
        None => Ok(None),
        Some(texts) => Ok(Some(kept_said(alloc, account, texts)?)),
    }
}

fn answer_under<S: Alter>(
    conn: &mut Connection<S>,
    alloc: Global,
    account: &AccountNumber,
    key: &Key,
) -> Result<Option<KeptAnswer>, ReadFault>
    requires idle { HasIdleTables (state S.Store conn.old) }
    ensures { Reads (λ trees found. found ≡
        answer_in account.now key.now (rows_in trees account.now))
        (state S.Store conn.old) (state S.Store conn.new) result }
{
    let texts = texts_under(conn, account, key)?;
    kept_where(alloc, account, texts)
}

fn ask_for_answer<S: Alter>(
    conn: &mut Connection<S>,
    alloc: Global,
    account: &AccountNumber,
    key: &Key,
) -> Result<Option<KeptAnswer>, ReadFault>
    requires idle { HasIdleTables (state S.Store conn.old) }
    ensures { Asks (λ trees found. found ≡
        answer_in account.now key.now (rows_in trees account.now))
        (state S.Store conn.old) (state S.Store conn.new) result }
{
    still_open(conn)?;
    answer_under(conn, alloc, account, key)
}

impl<S: Alter> SqlKeeper<S> {
    /// What is kept under a key of an account (a request's key is its Session-Id, RFC
    /// 6733 section 8.8, and its CC-Request-Number, RFC 8506 section 8.2); None where nothing is.
    ///
    /// # Errors
    /// A fault of the store, which is counted, as are texts that aren't those of a command and its
    /// answer; lack of memory.
    // rule: database-reads.find-answer
    pub fn find_answer(
        &mut self,
        account: &AccountNumber,
        key: &Key,
    ) -> Result<Option<KeptAnswer>, StoreFault>
        ensures { AsksTables S.Store (λ t found. found ≡ t.answers account.now key.now)
            self.old self.new result }
    {
        let read = ask_for_answer(&mut self.connection, self.alloc, account, key);
        counted(&mut self.failures, read)
    }
}
