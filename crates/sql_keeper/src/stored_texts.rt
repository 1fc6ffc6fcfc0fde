//! The texts of what is kept of a command.

ghost use Rattle.std.specs.Prelude.{◌≡◌, IfErr, IfOk, MatchResult, Some, option_map, true};
ghost use Rattle.commands.specs.Keys.{key_of};
ghost use Rattle.sql_rows.specs.Texts.{kept_of};
ghost use Rattle.sql_rules.specs.Rules.{is_answer_to};
ghost use Rattle.sql_keeper.specs.Content.{kept_in};
ghost use Rattle.sql_keeper.specs.RuledRows.{are_ruled_texts, are_texts_under};
ghost use Rattle.sql_keeper.specs.Writes.{AreTexts, IsFaultOfTexts, IsTextsFault};

use identifiers::AccountNumber;
use keepers::KeptAnswer;
use sql_rows::KeptTexts;
use sql_rules::is_answer_to;
use sql_tables::ReadFault;
use std::alloc::Global;
use wire::{read_answer, write_content};

/// Whether what is kept of a command beside it is an answer to it.
#[tactic(auto, using(crate::proofs::commits::OwnTexts::own_said))]
fn is_answered(alloc: Global, kept: &KeptAnswer) -> Result<bool, ReadFault>
    ensures { MatchResult result (λ b. b ≡ is_answer_to kept.now.content kept.now.answer)
        (λ e. e ≡ ReadFault.Memory) }
{
    match read_answer(alloc, kept.answer.text().as_bytes()) {
        Ok(answer) => Ok(is_answer_to(&kept.content, &answer)),
        // The text is one that was written of an answer, so only memory can be refused.
        Err(_) => Err(ReadFault::Memory),
    }
}

/// The texts of what is kept of a command of this account. What is of another account
/// wouldn't be read again as what it is: it is out of the rules, and so is an answer that isn't one
/// to the command.
#[tactic(auto, using(crate::proofs::commits::OwnTexts::own_texts, crate::proofs::commits::OwnTexts::memory_told, crate::proofs::commits::OwnTexts::other_told, crate::proofs::commits::OwnTexts::unanswered_told))]
fn texts_of(
    alloc: Global,
    account: &AccountNumber,
    kept: &KeptAnswer,
) -> Result<KeptTexts, ReadFault>
    ensures told { IfOk result (λ t. kept_in account.now (kept_of t) ≡ Some kept.now) }
    ensures rules { IfOk result (λ t.
        are_texts_under (key_of kept.now.content) account.now (kept_of t) ≡ true) }
    ensures fault { IfErr result (IsFaultOfTexts account.now kept.now) }
{
    // For the prover alone: looking at the value makes known here what its type keeps.
    let _number = account.as_str();
    if kept.content.account() != account {
        return Err(ReadFault::Rules);
    }
    if !is_answered(alloc, kept)? {
        return Err(ReadFault::Rules);
    }
    let content = write_content(alloc, &kept.content)?;
    let answer = kept.answer.to_text()?;
    Ok(KeptTexts { content, answer })
}

/// The texts of what is kept of a command of this account, where something is kept.
///
/// # Errors
/// `Rules` where the command is of another account, or the answer isn't one to it; `Memory`, but not
/// where the command is of another account.
// rule: rows-ruled.ruled-change, rows-ruled.answered
pub fn kept_texts(
    alloc: Global,
    account: &AccountNumber,
    kept: &Option<KeptAnswer>,
) -> Result<Option<KeptTexts>, ReadFault>
    ensures told { IfOk result (λ t. AreTexts account.now kept.now (option_map kept_of t)) }
    ensures rules { IfOk result (λ t.
        are_ruled_texts account.now kept.now (option_map kept_of t) ≡ true) }
    ensures fault { IfErr result (IsTextsFault account.now kept.now) }
{
    match kept {
        None => Ok(None),
        Some(kept) => Ok(Some(texts_of(alloc, account, kept)?)),
    }
}
