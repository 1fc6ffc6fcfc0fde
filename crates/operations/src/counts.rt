//! What becomes of vouchers that are added, counted.

ghost use Rattle.std.specs.Prelude.{◌≡◌, ◌<◌, string_bytes, IfOk};
ghost use Rattle.operations.specs.Counts.{counted_as, counts_text, no_counts, total_count};
ghost use Rattle.units.specs.Words.{most_of_64_bits};

use std::alloc::{AllocError, Global};
use voucher_rules::Addition;

/// How many vouchers were added, were there with the same terms, and were refused since their code
/// has a voucher of other terms (`O5`). Only the first changed anything.
#[derive(Clone, Copy)]
pub struct Counts {
    /// Added by this import.
    pub new: u64,
    /// There already, with the same terms.
    pub present: u64,
    /// Refused: their code has a voucher of other terms.
    pub conflicting: u64,
}

/// The counts of no voucher: each is 0.
pub(crate) fn no_counts() -> Counts
    ensures { result ≡ no_counts }
{
    Counts {
        new: 0,
        present: 0,
        conflicting: 0,
    }
}

/// The counts with one voucher more, of which this became.
// rule: import
pub(crate) fn count_one(counts: Counts, addition: Addition) -> Counts
    requires { total_count counts < most_of_64_bits }
    ensures { result ≡ counted_as addition counts }
{
    match addition {
        Addition::New(_) => Counts {
            new: counts.new + 1,
            ..counts
        },
        Addition::Present => Counts {
            present: counts.present + 1,
            ..counts
        },
        Addition::Conflicting => Counts {
            conflicting: counts.conflicting + 1,
            ..counts
        },
    }
}

/// What is printed of them: `new 3 present 0 conflicting 0`.
pub(crate) fn counts_text(alloc: Global, counts: Counts) -> Result<String, AllocError>
    ensures { IfOk result (λ text. string_bytes text ≡ counts_text counts) }
{
    let Counts {
        new,
        present,
        conflicting,
    } = counts;
    format!(in alloc; "new {new} present {present} conflicting {conflicting}")
}
