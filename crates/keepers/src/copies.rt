//! Copies of vouchers.

ghost use Rattle.std.specs.Prelude.{◌≡◌, IfOk};

use std::alloc::AllocError;
use voucher_rules::Voucher;

/// The same voucher once more.
///
/// # Errors
/// Out of memory.
pub fn copy_voucher(voucher: &Voucher) -> Result<Voucher, AllocError>
    ensures { IfOk result (λ copy. copy ≡ voucher.now) }
{
    voucher.clone()
}
