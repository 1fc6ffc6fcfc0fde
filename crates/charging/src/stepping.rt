//! One command, answered and committed.

ghost use Rattle.std.specs.Prelude.{◌≡◌, max};
ghost use Rattle.charging.specs.Stepping.{ServesOver};
ghost use Rattle.charging.specs.Stepped.{StepsOver};

use crate::allowances::serve_allowance;
use crate::balances::tell_balance;
use crate::operators::{open_account, serve_credit, set_barred, sweep};
use crate::requests::serve_request;
use crate::voucher_commands::{add_voucher, serve_redemption};
use commands::Command;
use keepers::{Keeper, StoreFault};
use shelves::TariffShelf;
use std::alloc::Global;
use units::Moment;
use wire::WrittenAnswer;

/// Answers a command, and commits it where it is accepted, at the later of this moment and that of
/// the last accepted command. A repeat gets its first answer and changes nothing; neither does a
/// read or a refused command, whatever the keeper holds. The answer's text is made before anything
/// is committed.
///
/// # Errors
/// Store fault 1 where a growth was refused, also for the answer's text, 2 where the store failed.
/// Then nothing has changed.
// rule: runs.serves, repeat.answers-once, stop-run.writes
pub fn step<K: Keeper>(
    alloc: Global,
    keeper: &mut K,
    shelf: &TariffShelf,
    command: Command,
    moment: Moment,
) -> Result<WrittenAnswer, StoreFault>
    ensures { StepsOver shelf.now command moment (K.seen keeper.old) (K.seen keeper.new) result }
{
    let last = keeper.last()?;
    let moment = later(moment, last);
    serve_at(alloc, keeper, shelf, command, moment)
}

/// The later of a command's moment and that of the last one.
// rule: command-moment
fn later(moment: Moment, last: Moment) -> Moment
    ensures { result ≡ max moment last }
{
    moment.max(last)
}

/// Serves a command by its kind, at a moment that isn't before that of the last accepted command.
fn serve_at<K: Keeper>(
    alloc: Global,
    keeper: &mut K,
    shelf: &TariffShelf,
    command: Command,
    moment: Moment,
) -> Result<WrittenAnswer, StoreFault>
    ensures { ServesOver shelf.now command moment (K.seen keeper.old) (K.seen keeper.new) result }
{
    match command {
        Command::Ccr(request) => serve_request(alloc, keeper, shelf, request, moment),
        Command::OpenAccount(number) => open_account(alloc, keeper, shelf, number, moment),
        Command::Credit(credit) => serve_credit(alloc, keeper, shelf, credit, moment),
        Command::Allow(allowance) => serve_allowance(alloc, keeper, shelf, allowance, moment),
        Command::Bar(number) => set_barred(alloc, keeper, shelf, number, true, moment),
        Command::Unbar(number) => set_barred(alloc, keeper, shelf, number, false, moment),
        Command::AddVoucher(addition) => add_voucher(alloc, keeper, addition, moment),
        Command::Redeem(asked) => serve_redemption(alloc, keeper, shelf, asked, moment),
        Command::Sweep => sweep(alloc, keeper, shelf, moment),
        Command::Balance(number) => tell_balance(alloc, keeper, shelf, number, moment),
    }
}
