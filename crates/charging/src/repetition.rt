//! Commands that come again: what has a key is answered as the first time.

ghost use Rattle.std.specs.Prelude.{◌≡◌, ◌↔◌, IfOk, IsTrue};
ghost use Rattle.commands.specs.declared.command.Content.{Content};
ghost use Rattle.commands.specs.declared.key.Key.TheVariants as key;
ghost use Rattle.keepers.specs.Keeping.{KeeperReads};
ghost use Rattle.charging.specs.OutcomeParts.{repeated};

use commands::{Answer, Content, same_content};
use identifiers::{AccountNumber, Reference};
use keepers::{Keeper, KeptAnswer, Key, StoreFault};
use std::alloc::{AllocError, Global};
use wire::WrittenAnswer;

/// What is kept of an account's command under a reference.
// rule: repeat
pub(crate) fn find_referenced<K: Keeper>(
    keeper: &mut K,
    account: &AccountNumber,
    reference: &Reference,
) -> Result<Option<KeptAnswer>, StoreFault>
    ensures { KeeperReads (K.seen keeper.old) (K.seen keeper.new)
        (λ found. found ≡
        (K.seen keeper.old).tables.answers account.now (key.Reference reference.now)) result }
{
    let key = Key::Reference(reference.clone()?);
    keeper.find_answer(account, &key)
}

/// The answer to a command whose key is kept, by whether what is kept is the same command: the
/// first answer, else that of a conflict.
// rule: repeat
pub(crate) fn first_or_conflict(
    alloc: Global,
    kept: KeptAnswer,
    is_same: bool,
    conflict: Answer,
) -> Result<WrittenAnswer, AllocError>
    ensures { IfOk result (λ given. (content : Content) →
        (IsTrue is_same ↔ (kept.content ≡ content)) → given ≡ repeated kept content conflict) }
{
    if is_same {
        Ok(kept.answer)
    } else {
        WrittenAnswer::new(alloc, conflict)
    }
}

/// The answer to a command whose key is kept: its first answer where it is the same command.
// rule: repeat, changed-repeat
pub(crate) fn repeated(
    alloc: Global,
    kept: KeptAnswer,
    content: &Content,
    conflict: Answer,
) -> Result<WrittenAnswer, AllocError>
    ensures { IfOk result (λ given. given ≡ repeated kept content.now conflict) }
{
    let is_same = same_content(&kept.content, content);
    first_or_conflict(alloc, kept, is_same, conflict)
}
