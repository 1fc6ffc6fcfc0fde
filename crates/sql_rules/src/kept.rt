//! Whether texts are those of a command, under its own key, and of an answer to it.

ghost use Rattle.std.specs.Prelude.{◌≡◌, ◌&&◌, false, IfOk, MatchResult, None, Some, ⊤};
ghost use Rattle.std.specs.Prelude.{if◌then◌else◌};
ghost use Rattle.identifiers.specs.Texts.{is_account_number};
ghost use Rattle.commands.specs.Keys.{key_of};
ghost use Rattle.wire.specs.Contents.{content_of};
ghost use Rattle.wire.specs.ReadingAnswers.{answer_of};
ghost use Rattle.sql_rules.specs.Rules.{are_kept_texts, are_texts_of, is_kept_answer, is_under};

use crate::answered::is_answer_to;
use commands::{Content, KeyRef};
use identifiers::AccountNumber;
use json_fields::WireFault;
use std::alloc::{AllocError, Global};
use wire::{Scratch, read_answer_with, read_content_with};

/// The account of a number that bytes are.
fn account_of(alloc: Global, bytes: &[u8]) -> Result<Option<AccountNumber>, AllocError>
    ensures { IfOk result (λ o. o ≡ if is_account_number bytes.now then Some bytes.now else None) }
{
    match str::from_utf8(bytes) {
        Ok(text) => AccountNumber::new(alloc, text),
        Err(_) => Ok(None),
    }
}

/// A text that isn't read is none, unless memory ran out.
fn is_none(fault: WireFault) -> Result<bool, AllocError>
    ensures { MatchResult result (λ b. (b ≡ false) × ¬ (fault ≡ WireFault.Memory)) (λ _. ⊤) }
{
    match fault {
        WireFault::Memory => Err(AllocError),
        _ => Ok(false),
    }
}

/// Whether these columns are the key of a command.
fn is_under(content: &Content, kind: u64, name: &[u8], number: u64) -> bool
    ensures { result ≡ is_under (key_of content.now) kind name.now number }
{
    match content.key() {
        KeyRef::Request {
            session,
            number: own,
        } => kind == 1 && session.as_str().as_bytes() == name && u64::from(own) == number,
        KeyRef::Reference(reference) => {
            kind == 2 && reference.as_str().as_bytes() == name && number == 0
        }
    }
}

/// Whether a text is that of an answer to this command.
#[tactic(auto, using(crate::proofs::UnderKey::read_answered, crate::proofs::UnderKey::none_answered))]
fn is_answer(
    alloc: Global,
    command: &Content,
    text: &[u8],
    scratch: &mut Scratch,
) -> Result<bool, AllocError>
    ensures { IfOk result (λ b. b ≡ is_kept_answer command.now text.now (answer_of text.now)) }
{
    match read_answer_with(alloc, text, scratch) {
        Ok(answer) => Ok(is_answer_to(command, &answer)),
        Err(fault) => is_none(fault),
    }
}

/// Whether these columns are the key of a command, and a text is that of an answer to it.
fn is_kept(
    alloc: Global,
    command: &Content,
    kind: u64,
    name: &[u8],
    number: u64,
    answer: &[u8],
    scratch: &mut Scratch,
) -> Result<bool, AllocError>
    ensures { IfOk result (λ b. b ≡ (is_under (key_of command.now) kind name.now number
        && is_kept_answer command.now answer.now (answer_of answer.now))) }
{
    if !is_under(command, kind, name, number) {
        return Ok(false);
    }
    is_answer(alloc, command, answer, scratch)
}

/// Whether a text is that of a command of this account, these columns are its key, and the other
/// text is that of an answer to it.
#[tactic(auto, using(crate::proofs::UnderKey::read_kept, crate::proofs::UnderKey::read_none))]
fn are_texts(
    alloc: Global,
    account: AccountNumber,
    kind: u64,
    name: &[u8],
    number: u64,
    content: &[u8],
    answer: &[u8],
    scratch: &mut Scratch,
) -> Result<bool, AllocError>
    ensures { IfOk result (λ b. b ≡ are_texts_of kind name.now number content.now answer.now
        (content_of account content.now)) }
{
    match read_content_with(alloc, account, content, scratch) {
        Ok(command) => is_kept(alloc, &command, kind, name, number, answer, scratch),
        Err(fault) => is_none(fault),
    }
}

/// Whether they are those of a command of this account, under its own key, and of an answer to it.
// rule: rows-ruled.under, rows-ruled.answered
pub(crate) fn are_kept_texts(
    alloc: Global,
    kind: u64,
    name: &[u8],
    number: u64,
    account: &[u8],
    content: &[u8],
    answer: &[u8],
    scratch: &mut Scratch,
) -> Result<bool, AllocError>
    ensures { IfOk result (λ b. b ≡
        are_kept_texts kind name.now number account.now content.now answer.now) }
{
    let Some(account) = account_of(alloc, account)? else {
        return Ok(false);
    };
    are_texts(alloc, account, kind, name, number, content, answer, scratch)
}
