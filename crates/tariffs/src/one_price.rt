//! The tariff book of one price: rating group 10 in seconds, at one price a block in every minute
//! of the week.

ghost use Rattle.std.specs.Prelude.{◌≡◌, ◌≤◌, IfOk, string_bytes};
ghost use Rattle.units.specs.Words.{greatest_price, most_granted};
ghost use Rattle.tariffs.specs.OnceBook.{once_book, once_document};

use crate::book::TariffBook;
use crate::fault::BookFault;
use std::alloc::{AllocError, Global};

/// The book of one price (profile): rating group 10 in seconds, `price` micro-units a block of
/// `block` seconds in every minute of the week.
///
/// # Errors
/// Out of memory, and no fault of the book: its document is a book's, whatever the numbers.
// rule: once-book
pub fn once_book(alloc: Global, price: u64, block: u64) -> Result<TariffBook, AllocError>
    requires price { price ≤ greatest_price }
    requires some_block { 1 ≤ block }
    requires block { block ≤ most_granted }
    ensures { IfOk result (λ b. b ≡ once_book price block) }
{
    let text = once_document(alloc, price, block)?;
    match TariffBook::read(alloc, text.as_bytes()) {
        Ok(book) => Ok(book),
        Err(fault) => {
            prove!(matches!(fault, BookFault::Memory));
            Err(AllocError)
        }
    }
}

/// The document's beginning, to the number of seconds in a block.
const TO_THE_BLOCK: &str = r#"zone = "+00:00"
currency = 978
validity = 3600
periods = ["always"]

[[week]]
period = "always"
days = [1, 2, 3, 4, 5, 6, 7]
from = "00:00"
to = "24:00"

[[group]]
id = 10
unit = "time"
block = "#;

/// What follows in it, to the price of a block.
const TO_THE_PRICE: &str = r#"
slice = 600
max_grant = 3600
cycle = "none"
final = "terminate"

[[group.price]]
period = "always"

[[group.price.tiers]]
price = "#;

/// The book's document.
fn once_document(alloc: Global, price: u64, block: u64) -> Result<String, AllocError>
    ensures { IfOk result (λ text. string_bytes text ≡ once_document price block) }
{
    format!(in alloc; "{TO_THE_BLOCK}{block}{TO_THE_PRICE}{price}\n")
}
