//! Requests of gateways.

ghost use Rattle.std.specs.Prelude.{◌≡◌, Some, None, IfOk, IfSome, option_copied};
ghost use Rattle.commands.specs.declared.answer.Answer.TheVariants as answer;
ghost use Rattle.commands.specs.declared.answer.Failure.TheVariants.{InvalidAvpValue};
ghost use Rattle.commands.specs.declared.avp.Avp.TheVariants.{RequestNumber};
ghost use Rattle.commands.specs.declared.command.Command.TheVariants.{Ccr};
ghost use Rattle.commands.specs.declared.command.Content.TheVariants as content;
ghost use Rattle.decisions.specs.Calls.{own_of};
ghost use Rattle.charging.specs.OutcomeParts.{failed, repeated};
ghost use Rattle.charging.specs.Parts.{PartReads};
ghost use Rattle.charging.specs.Stepping.{Answers, CommitsOver, IsUndecided, ServesGiven};
ghost use Rattle.charging.specs.Stepping.{ServesOver, change_for, is_known, kept_of_request};

use crate::committing::{commit, moment_on};
use crate::repetition::repeated;
use commands::{Answer, Avp, Content, Failure, Outcome, Request, RequestAnswer};
use decisions::{Decided, begins_session, decide, is_read, read};
use identifiers::SessionId;
use keepers::{Keeper, KeptAnswer, Key, Loaded, StoreFault};
use reserving::Account;
use shelves::TariffShelf;
use std::alloc::{AllocError, Global};
use units::Moment;
use wire::WrittenAnswer;

/// Answers a request: that of an unknown account, a repeat, or one that is decided.
// rule: repeat, unknown-account
pub(crate) fn serve_request<K: Keeper>(
    alloc: Global,
    keeper: &mut K,
    shelf: &TariffShelf,
    request: Request,
    moment: Moment,
) -> Result<WrittenAnswer, StoreFault>
    ensures { ServesOver shelf.now (Ccr request) moment (K.seen keeper.old)
        (K.seen keeper.new) result }
{
    let kept = find_kept(keeper, &request)?;
    if let Some(kept) = kept {
        return Ok(repeat(alloc, kept, request)?);
    }
    let read = answer_read(alloc, keeper, shelf, &request, moment)?;
    if let Some(answer) = read {
        return Ok(answer);
    }
    if is_known(keeper, &request)? {
        return Ok(tell_failed(alloc, &request, Failure::InvalidAvpValue(Avp::SessionId))?);
    }
    let Some(account) = keeper.view(shelf, &request.account, moment)? else {
        return Ok(tell_failed(alloc, &request, Failure::UserUnknown)?);
    };
    decide_on(alloc, keeper, account, request, moment)
}

/// Whether a request begins a session of which the account has a row.
// rule: session-names.known
fn is_known<K: Keeper>(keeper: &mut K, request: &Request) -> Result<bool, StoreFault>
    ensures { PartReads (K.seen keeper.old) (K.seen keeper.new)
        (λ known. known ≡ is_known request.now (K.seen keeper.old).tables) result }
{
    if begins_session(&request.ask) {
        keeper.knows_session(&request.account, &request.session)
    } else {
        Ok(false)
    }
}

/// What is kept under a request's key; reads have none.
fn find_kept<K: Keeper>(keeper: &mut K, request: &Request) -> Result<Option<KeptAnswer>, StoreFault>
    ensures { PartReads (K.seen keeper.old) (K.seen keeper.new)
        (λ found. found ≡ kept_of_request request.now (K.seen keeper.old).tables) result }
{
    if is_read(&request.ask) {
        return Ok(None);
    }
    let session = request.session.clone()?;
    let key = Key::Request {
        session,
        number: request.number,
    };
    keeper.find_answer(&request.account, &key)
}

/// The answer to a request that fails as a whole.
fn failed(request: &Request, failure: Failure) -> Result<Answer, AllocError>
    ensures { IfOk result (λ given. given ≡ failed request.now failure) }
{
    Ok(Answer::Request(RequestAnswer {
        session: request.session.clone()?,
        kind: request.kind(),
        number: request.number,
        outcome: Outcome::Failed(failure),
    }))
}

/// The same with its text.
fn tell_failed(
    alloc: Global,
    request: &Request,
    failure: Failure,
) -> Result<WrittenAnswer, AllocError>
    ensures { IfOk result (λ given. given ≡ failed request.now failure) }
{
    let answer = failed(request, failure)?;
    WrittenAnswer::new(alloc, answer)
}

/// The answer to a request whose key is kept: its first answer where it is the same request.
fn repeat(alloc: Global, kept: KeptAnswer, request: Request) -> Result<WrittenAnswer, AllocError>
    ensures { IfOk result (λ given. given ≡
        repeated kept (content.Request request) (failed request (InvalidAvpValue RequestNumber))) }
{
    let conflict = failed(&request, Failure::InvalidAvpValue(Avp::RequestNumber))?;
    repeated(alloc, kept, &Content::Request(request), conflict)
}

/// The answer to a check or an enquiry, by the account as it is; None: the request is neither.
fn answer_read<K: Keeper>(
    alloc: Global,
    keeper: &mut K,
    shelf: &TariffShelf,
    request: &Request,
    moment: Moment,
) -> Result<Option<WrittenAnswer>, StoreFault>
    ensures { PartReads (K.seen keeper.old) (K.seen keeper.new) (λ o. IfSome o (λ given.
        Answers shelf.now (Ccr request.now) moment (K.seen keeper.old).tables
        (K.seen keeper.new).tables given)) result }
{
    if !is_read(&request.ask) {
        return Ok(None);
    }
    let Some(account) = keeper.view(shelf, &request.account, moment)? else {
        return Ok(Some(tell_failed(alloc, request, Failure::UserUnknown)?));
    };
    let now = moment_on(&account, moment);
    match read(&account, request, now)? {
        Some(answer) => Ok(Some(WrittenAnswer::new(alloc, Answer::Request(answer))?)),
        None => Ok(None),
    }
}

/// The session whose rows alone a request may change: its own, where nothing of the account ends at
/// the moment.
fn own_of<'r>(account: &Account, request: &'r Request, moment: Moment) -> Option<&'r SessionId>
    ensures { option_copied result ≡ own_of request.now moment account.now }
{
    if account.is_quiet(moment) {
        Some(&request.session)
    } else {
        None
    }
}

/// Decides a request, and commits it where it is accepted. Of the account as it was before are kept
/// the rows alone that the request may change.
// rule: ledger.extends, database-writes.quiet-at
fn decide_on<K: Keeper>(
    alloc: Global,
    keeper: &mut K,
    mut account: Account,
    request: Request,
    moment: Moment,
) -> Result<WrittenAnswer, StoreFault>
    ensures { ServesGiven (IsUndecided moment request account.entry) (Ccr request) moment
        (K.seen keeper.old) (K.seen keeper.new) result }
{
    let moment = moment_on(&account, moment);
    let before = account.earlier(own_of(&account, &request, moment))?;
    let number = request.account.clone()?;
    match decide(alloc, &mut account, &request, false, moment) {
        Ok(decided) if decided.accepted => {
            let loaded = Loaded {
                number,
                account,
                before,
            };
            keep(alloc, keeper, loaded, decided, request)
        }
        Ok(decided) => Ok(WrittenAnswer::new(alloc, Answer::Request(decided.answer))?),
        Err(AllocError) => Err(StoreFault::Memory),
    }
}

/// Commits an accepted request with its answer.
fn keep<K: Keeper>(
    alloc: Global,
    keeper: &mut K,
    loaded: Loaded,
    decided: Decided,
    request: Request,
) -> Result<WrittenAnswer, StoreFault>
    ensures { CommitsOver (change_for decided.own loaded.entry decided.charges (Some (record {
      content = content.Request request;
      answer = answer.Request decided.answer;
    })) None) (answer.Request decided.answer) (K.seen keeper.old) (K.seen keeper.new) result }
{
    let own = decided.own;
    commit(
        alloc,
        keeper,
        loaded,
        own.as_ref(),
        decided.charges,
        Some(Content::Request(request)),
        None,
        Answer::Request(decided.answer),
    )
}
