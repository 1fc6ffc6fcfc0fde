//! Vouchers: operators add them, and accounts redeem them.

ghost use Rattle.std.specs.Prelude.{◌≡◌, IfOk, ⊤};
ghost use Rattle.commands.specs.declared.command.Command.TheVariants as command;
ghost use Rattle.voucher_rules.specs.Redeeming.{redemption};
ghost use Rattle.charging.specs.Outcomes.{book_days};
ghost use Rattle.charging.specs.OutcomeParts.{refused_as};
ghost use Rattle.charging.specs.Stepping.{IsRedeemable, ServesGiven, ServesOver};

use crate::committing::{commit, moment_on};
use crate::operators::make_bucket;
use crate::refusing::refuse;
use crate::repetition::{find_referenced, first_or_conflict};
use commands::{Answer, Content, Refusal, VoucherAddition, VoucherRedemption, is_kept_redemption};
use identifiers::VoucherCode;
use keepers::{Keeper, Loaded, Redeemed, StoreFault};
use shelves::TariffShelf;
use std::alloc::{AllocError, Global};
use units::Moment;
use voucher_rules::{Addition, CivilDays, RedeemRefusal, Redemption, Voucher, add, redeem};
use wire::WrittenAnswer;

/// The civil days by the calendar of the book at a moment.
#[derive(Drop)]
struct BookDays<'b> {
    shelf: &'b TariffShelf,
}

impl CivilDays for BookDays<'_> {
    ghost use Rattle.charging.specs.Outcomes.{book_days};

    ghost day_end = { λ d. book_days d.shelf.now };

    fn day_end(&self, moment: Moment, days: u32) -> Option<Moment> {
        self.shelf.book_at(moment).day_end(moment, days)
    }
}

/// Adds a voucher. It concerns no account.
// rule: voucher-add.addition-outcome
pub(crate) fn add_voucher<K: Keeper>(
    alloc: Global,
    keeper: &mut K,
    addition: VoucherAddition,
    moment: Moment,
) -> Result<WrittenAnswer, StoreFault>
    ensures { ServesGiven (λ tables b. ⊤) (command.AddVoucher addition) moment
        (K.seen keeper.old) (K.seen keeper.new) result }
{
    let found = keeper.find_voucher(&addition.code)?;
    let done = WrittenAnswer::new(alloc, Answer::Done)?;
    match add(&found, addition.terms) {
        Addition::New(_) => {
            keeper.add_voucher(addition.code, addition.terms, moment)?;
            Ok(done)
        }
        Addition::Present => Ok(done),
        Addition::Conflicting => Ok(refuse(alloc, Refusal::ContentDiffers)?),
    }
}

/// Redeems a voucher for an account, under a reference.
// rule: redeem.redeem-outcome
pub(crate) fn serve_redemption<K: Keeper>(
    alloc: Global,
    keeper: &mut K,
    shelf: &TariffShelf,
    asked: VoucherRedemption,
    moment: Moment,
) -> Result<WrittenAnswer, StoreFault>
    ensures { ServesOver shelf.now (command.Redeem asked) moment (K.seen keeper.old)
        (K.seen keeper.new) result }
{
    let kept = find_referenced(keeper, &asked.account, &asked.reference)?;
    if let Some(kept) = kept {
        let is_same = is_kept_redemption(&kept.content, &asked);
        let conflict = Answer::Refused(Refusal::ContentDiffers);
        return Ok(first_or_conflict(alloc, kept, is_same, conflict)?);
    }
    let found = keeper.find_voucher(&asked.code)?;
    let redeemed = redeem_by(shelf, found, &asked, moment)?;
    let code = asked.code.clone()?;
    let Some(loaded) = keeper.load(shelf, &asked.account, moment)? else {
        return Ok(refuse(alloc, Refusal::AccountUnknown)?);
    };
    match redeemed {
        Ok(redeemed) => credit_redeemed(alloc, keeper, loaded, asked, code, redeemed, moment),
        Err(refusal) => {
            keeper.abandon(loaded);
            Ok(refuse(alloc, told_refusal(refusal))?)
        }
    }
}

/// What a redemption comes to by the days of the book at its moment, over what is under its
/// code.
fn redeem_by(
    shelf: &TariffShelf,
    found: Option<Voucher>,
    asked: &VoucherRedemption,
    moment: Moment,
) -> Result<Result<Redemption, RedeemRefusal>, AllocError>
    ensures { IfOk result (λ r. r ≡
        redemption (book_days shelf.now) found asked.now.account moment) }
{
    let account = asked.account.clone()?;
    Ok(redeem(found, account, moment, &BookDays { shelf }))
}

/// The refusal as an operator is answered.
fn told_refusal(refusal: RedeemRefusal) -> Refusal
    ensures { result ≡ refused_as refusal }
{
    match refusal {
        RedeemRefusal::VoucherUnknown => Refusal::VoucherUnknown,
        RedeemRefusal::VoucherSpent => Refusal::VoucherSpent,
        RedeemRefusal::EndOutOfRange => Refusal::OutOfRange,
    }
}

/// Credits an account with what it redeemed, and keeps the voucher as spent, under this code.
// rule: redeem.redeem-outcome
fn credit_redeemed<K: Keeper>(
    alloc: Global,
    keeper: &mut K,
    mut loaded: Loaded,
    asked: VoucherRedemption,
    code: VoucherCode,
    redeemed: Redemption,
    moment: Moment,
) -> Result<WrittenAnswer, StoreFault>
    ensures { ServesGiven (IsRedeemable moment asked code redeemed loaded.entry)
        (command.Redeem asked) moment (K.seen keeper.old) (K.seen keeper.new) result }
{
    let moment = moment_on(&loaded.account, moment);
    let Redemption {
        amount,
        from,
        until,
        scope,
        voucher,
    } = redeemed;
    match make_bucket(&mut loaded.account, from, until, scope, amount, moment) {
        Ok(Some(number)) => {
            let content = Some(Content::Redeem(asked));
            let spent = Some(Redeemed { code, voucher });
            let given = Answer::Bucket(number);
            let charges = Vec::new(alloc);
            commit(alloc, keeper, loaded, None, charges, content, spent, given)
        }
        Ok(None) => {
            keeper.abandon(loaded);
            Ok(refuse(alloc, Refusal::OutOfRange)?)
        }
        Err(AllocError) => {
            keeper.abandon(loaded);
            Err(StoreFault::Memory)
        }
    }
}
