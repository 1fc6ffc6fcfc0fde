//! A request, answered over a keeper.

ghost use Rattle.std.specs.Prelude.{Ok};
ghost use Rattle.http_messages.specs.Asking.{Asking, reads, IsAskingGiven};
ghost use Rattle.http_api.specs.Replies.{GoesOnAfterReply, LeavesReply, Replies, ShowsHonestReply};

use crate::clock::Clock;
use crate::stating::serve_statement;
use crate::telling::{Following, tell_answer, tell_fault, tell_refusal, tell_unable};
use charging::step;
use commands::Command;
use http_messages::HttpAsked;
use keepers::ChargeSource;
use shelves::TariffShelf;
use std::alloc::Global;
use std::io::Write;
use texts::StreamFault;

/// Answers a request, and commits its command where it is accepted. The clock is asked once where
/// it is a command or asks for a statement. Unless more bytes have come its answer leaves before it
/// is dropped.
///
/// # Errors
/// `Write` where the writer failed: what is accepted stays so, and a beginning of the answer is
/// written.
// rule: http-read, http-503
#[tactic(auto, using(crate::proofs::StatementReplies::goes_on_same))]
pub(crate) fn answer_request<W: Write, K: ChargeSource, C: Clock>(
    alloc: Global,
    writer: &mut W,
    keeper: &mut K,
    shelf: &TariffShelf,
    clock: &mut C,
    asked: HttpAsked,
    following: Following,
) -> Result<(), StreamFault>
    ensures shown { ShowsHonestReply (λ Writes x y. (asking : Asking) → IsAskingGiven asking asked →
        Replies C.gives shelf.now asking following.closes clock.old clock.new Writes x y) shelf.now
        (W.contents writer.old) (W.contents writer.new) (K.seen keeper.old) (K.seen keeper.new)
        result }
    ensures goes_on { GoesOnAfterReply shelf.now (K.seen keeper.old) (K.seen keeper.new) result }
    ensures held { (asking : Asking) → IsAskingGiven asking asked →
        LeavesReply shelf.now asking (K.seen keeper.old) (K.seen keeper.new) }
{
    match asked {
        HttpAsked::Refused(refusal) => tell_refusal(writer, refusal, following),
        HttpAsked::Unread(fault) => tell_fault(alloc, writer, fault, following),
        HttpAsked::Does(command) => serve_command(
            alloc, writer, keeper, shelf, clock, command, following,
        ),
        HttpAsked::States(statement) => {
            serve_statement(alloc, writer, keeper, shelf, clock, &statement, following)
        }
    }
}

/// Serves a command at the clock's moment, and writes its answer.
// rule: http-read
#[tactic(auto, using(crate::proofs::StatementReplies::goes_on_same))]
fn serve_command<W: Write, K: ChargeSource, C: Clock>(
    alloc: Global,
    writer: &mut W,
    keeper: &mut K,
    shelf: &TariffShelf,
    clock: &mut C,
    command: Command,
    following: Following,
) -> Result<(), StreamFault>
    ensures shown { ShowsHonestReply
        (Replies C.gives shelf.now (reads (Ok command)) following.closes clock.old clock.new)
        shelf.now (W.contents writer.old) (W.contents writer.new) (K.seen keeper.old) (K.seen keeper.new)
        result }
    ensures goes_on { GoesOnAfterReply shelf.now (K.seen keeper.old) (K.seen keeper.new) result }
    ensures held { LeavesReply shelf.now (reads (Ok command))
        (K.seen keeper.old) (K.seen keeper.new) }
{
    let Some(moment) = clock.now() else {
        return tell_unable(writer, following);
    };
    match step(alloc, keeper, shelf, command, moment) {
        Ok(answer) => tell_answer(writer, &answer, following),
        Err(_) => tell_unable(writer, following),
    }
}
