//! The vouchers of the keeper in memory, each under its code.

ghost use Rattle.std.specs.Prelude.{◌≡◌, ◌<◌, ℕ, List, Some, IfOk, IsOk, OnOk, OnErr};
ghost use Rattle.std.specs.Prelude.{if◌then◌else◌};
ghost use Rattle.std.specs.HashMap.{get, spare};
ghost use Rattle.identifiers.specs.Texts.{same_name};
ghost use Rattle.keepers.specs.Change.{redeemed_over};

use crate::copies::copy_voucher;
use crate::loaded::Redeemed;
use identifiers::VoucherCode;
use std::alloc::AllocError;
use std::collections::HashMap;
use voucher_rules::Voucher;

/// A copy of what is under a code.
pub(crate) fn voucher_in(
    vouchers: &HashMap<VoucherCode, Voucher>,
    code: &VoucherCode,
) -> Result<Option<Voucher>, AllocError>
    ensures { IfOk result (λ found. found ≡ get same_name vouchers.now code.now) }
{
    match vouchers.get(code) {
        Some(voucher) => Ok(Some(copy_voucher(voucher)?)),
        None => Ok(None),
    }
}

/// Puts a voucher under a code. At a fault nothing has changed.
pub(crate) fn put_voucher(
    vouchers: &mut HashMap<VoucherCode, Voucher>,
    code: VoucherCode,
    voucher: Voucher,
) -> Result<(), AllocError>
    ensures done { OnOk result ((k : List ℕ) → get same_name vouchers.new k ≡
        (if same_name code k then Some voucher else get same_name vouchers.old k)) }
    ensures err { OnErr result ((k : List ℕ) →
        get same_name vouchers.new k ≡ get same_name vouchers.old k) }
{
    vouchers.insert(code, voucher)?;
    Ok(())
}

/// Makes room for one voucher more. What is there stays.
pub(crate) fn make_voucher_room(
    vouchers: &mut HashMap<VoucherCode, Voucher>,
) -> Result<(), AllocError>
    ensures same { (k : List ℕ) → get same_name vouchers.new k ≡ get same_name vouchers.old k }
    ensures room { OnOk result (0 < spare vouchers.new) }
{
    vouchers.reserve(1)?;
    Ok(())
}

/// Puts a voucher that was redeemed under its code, for which there is room.
pub(crate) fn put_redeemed(
    vouchers: &mut HashMap<VoucherCode, Voucher>,
    redeemed: Option<Redeemed>,
) -> Result<(), AllocError>
    requires room { 0 < spare vouchers.old }
    ensures ok { IsOk result }
    ensures put { (k : List ℕ) →
        get same_name vouchers.new k ≡ redeemed_over redeemed k (get same_name vouchers.old k) }
{
    if let Some(redeemed) = redeemed {
        vouchers.insert(redeemed.code, redeemed.voucher)?;
    }
    Ok(())
}
