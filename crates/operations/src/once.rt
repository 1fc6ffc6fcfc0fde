//! Lines of requests over a keeper in memory, priced by a book of one price.

ghost use Rattle.std.specs.Prelude.{◌≡◌, ◌≤◌, IfErr, IfOk, OnErr, OnOk};
ghost use Rattle.units.specs.Words.{greatest_price, most_granted};
ghost use Rattle.tariffs.specs.OnceBook.{once_book};
ghost use Rattle.shelves.specs.Shelves.{one_book};
ghost use Rattle.operations.specs.LinesFaults.{AreUnread, IsReachedByLines};
ghost use Rattle.operations.specs.Once.{BeginsOnce, WritesOnce};

use crate::line_answers::lines;
use crate::lines_fault::LinesFault;
use keepers::MemoryKeeper;
use shelves::TariffShelf;
use std::alloc::{AllocError, Global};
use std::io::{Read, Write};
use tariffs::once_book;
use units::Money;

/// Answers the lines of the input as `lines` does, before any command and over a keeper in memory,
/// by a book of one rating group: `price` micro-units a block of `block` seconds. The first
/// request's account is opened with `credit`.
///
/// # Errors
/// As `lines`, but that the store fails for want of memory alone.
// rule: once
pub fn once_lines<I: Read, O: Write>(
    alloc: Global,
    credit: Money,
    price: u64,
    block: u64,
    input: &mut I,
    output: &mut O,
) -> Result<(), LinesFault>
    requires price { price ≤ greatest_price }
    requires some_block { 1 ≤ block }
    requires block { block ≤ most_granted }
    ensures reached { IfErr result (IsReachedByLines ⊥) }
    ensures unwritten { IfErr result (λ fault. AreUnread fault → output.new ≡ output.old) }
    ensures done { OnOk result (WritesOnce (once_book price block) credit
        (I.remaining input.old) (O.contents output.old) (O.contents output.new)) }
    ensures fault { OnErr result (BeginsOnce (once_book price block) credit
        (I.remaining input.old) (O.contents output.old) (O.contents output.new)) }
{
    let shelf = once_shelf(alloc, price, block)?;
    let mut keeper = MemoryKeeper::new(alloc);
    lines(alloc, &mut keeper, &shelf, Some(credit), input, output)
}

/// The shelf on which the book of one price is alone.
fn once_shelf(alloc: Global, price: u64, block: u64) -> Result<TariffShelf, AllocError>
    requires price { price ≤ greatest_price }
    requires some_block { 1 ≤ block }
    requires block { block ≤ most_granted }
    ensures { IfOk result (λ s. s ≡ one_book (once_book price block)) }
{
    let book = once_book(alloc, price, block)?;
    TariffShelf::new(alloc, book).map_err(|_| AllocError)
}
