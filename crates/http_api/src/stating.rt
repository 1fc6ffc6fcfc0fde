//! A statement that is asked for.

ghost use Rattle.std.specs.Prelude.{◌≡◌, List, OnOk, OnErr, IfOk};
ghost use Rattle.std.specs.Io.KnownBytes.{Appends};
ghost use Rattle.commands.specs.declared.answer.Answer.TheVariants.{Refused};
ghost use Rattle.commands.specs.declared.answer.Refusal.TheVariants.{AccountUnknown as Unknown};
ghost use Rattle.ledger.specs.ChargeColumns.{ChargeColumns};
ghost use Rattle.keepers.specs.Rows.{AreCharges};
ghost use Rattle.statements.specs.Charges.{AsksSource};
ghost use Rattle.statements.specs.Texts.{statement_text};
ghost use Rattle.http_messages.specs.Asking.{states};
ghost use Rattle.http_messages.specs.Texts.{AppendsBeginning};
ghost use Rattle.http_api.specs.Replies.{Replies, ShowsHonestReply};
ghost use Rattle.http_api.specs.Told.{TellsAnswer, TellsByRead, TellsCharges};

use crate::clock::Clock;
use crate::telling::{Following, tell_answer, tell_text, tell_unable};
use charging::{AccountState, account_state};
use commands::{Answer, Refusal};
use http_messages::StatementAsked;
use keepers::ChargeSource;
use shelves::TariffShelf;
use statements::{AccountMonth, StatementFault, statement};
use std::alloc::Global;
use std::io::Write;
use texts::StreamFault;
use wire::WrittenAnswer;

/// Serves a statement at the clock's moment. It is a read: it changes nothing.
///
/// # Errors
/// `Write` where the writer failed: then a beginning of the answer is written.
pub(crate) fn serve_statement<W: Write, K: ChargeSource, C: Clock>(
    alloc: Global,
    writer: &mut W,
    keeper: &mut K,
    shelf: &TariffShelf,
    clock: &mut C,
    asked: &StatementAsked,
    following: Following,
) -> Result<(), StreamFault>
    ensures shown { ShowsHonestReply
        (Replies C.gives shelf.now (states asked.now) following.closes clock.old clock.new)
        shelf.now (W.contents writer.old) (W.contents writer.new) (K.seen keeper.old) (K.seen keeper.new)
        result }
    ensures reads { TellsByRead (K.seen keeper.old) (K.seen keeper.new) result }
{
    let Some(moment) = clock.now() else {
        return tell_unable(writer, following);
    };
    let state = match account_state(keeper, shelf, &asked.account, moment) {
        Ok(state) => state,
        Err(_) => return tell_unable(writer, following),
    };
    match state {
        Some(state) => tell_statement(alloc, writer, keeper, shelf, asked, &state, following),
        None => tell_unknown(alloc, writer, following),
    }
}

/// Writes the statement of an account whose state was found.
fn tell_statement<W: Write, K: ChargeSource>(
    alloc: Global,
    writer: &mut W,
    keeper: &mut K,
    shelf: &TariffShelf,
    asked: &StatementAsked,
    state: &AccountState,
    following: Following,
) -> Result<(), StreamFault>
    ensures ok { (K.seen keeper.new).honest → OnOk result
        (TellsCharges ((K.seen keeper.old).tables.charges asked.now.account)
        (λ rows. statement_text shelf.now.first asked.now.account asked.now.month state.now.moment
        rows state.now.buckets.items) following.closes
        (Appends (W.contents writer.old) (W.contents writer.new))) }
    ensures err { (K.seen keeper.new).honest → OnErr result
        (TellsCharges ((K.seen keeper.old).tables.charges asked.now.account)
        (λ rows. statement_text shelf.now.first asked.now.account asked.now.month state.now.moment
        rows state.now.buckets.items) following.closes
        (AppendsBeginning (W.contents writer.old) (W.contents writer.new))) }
    ensures reads { TellsByRead (K.seen keeper.old) (K.seen keeper.new) result }
{
    match statement_of(alloc, keeper, shelf, asked, state) {
        Ok(text) => tell_text(alloc, writer, text.as_slice(), following),
        Err(_) => tell_unable(writer, following),
    }
}

/// The statement of an account whose state was found.
fn statement_of<K: ChargeSource>(
    alloc: Global,
    keeper: &mut K,
    shelf: &TariffShelf,
    asked: &StatementAsked,
    state: &AccountState,
) -> Result<Vec<u8>, StatementFault>
    ensures text { (K.seen keeper.new).clean → IfOk result (λ text. (rows : List ChargeColumns) →
        AreCharges ((K.seen keeper.old).tables.charges asked.now.account) rows →
        text.items ≡ statement_text shelf.now.first asked.now.account asked.now.month
        state.now.moment
        rows state.now.buckets.items) }
    ensures asks { AsksSource (K.seen keeper.old) (K.seen keeper.new)
        result }
{
    let mut text = Vec::new(alloc);
    let buckets = state.buckets.as_slice();
    let book = shelf.first();
    let month = AccountMonth {
        account: &asked.account,
        month: asked.month,
        book,
    };
    statement(alloc, keeper, &mut text, &month, state.moment, buckets)?;
    Ok(text)
}

/// Writes that the account isn't there; where the growth of that text is refused, that there is no
/// memory.
fn tell_unknown<W: Write>(
    alloc: Global,
    writer: &mut W,
    following: Following,
) -> Result<(), StreamFault>
    ensures ok { OnOk result (TellsAnswer (Refused Unknown) following.closes
        (Appends (W.contents writer.old) (W.contents writer.new))) }
    ensures err { OnErr result (TellsAnswer (Refused Unknown) following.closes
        (AppendsBeginning (W.contents writer.old) (W.contents writer.new))) }
    ensures fault { OnErr result (result ≡ Err StreamFault.Write) }
{
    let unknown = Answer::Refused(Refusal::AccountUnknown);
    match WrittenAnswer::new(alloc, unknown) {
        Ok(answer) => tell_answer(writer, &answer, following),
        Err(_) => tell_unable(writer, following),
    }
}
