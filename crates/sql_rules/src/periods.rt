//! Whether a name is that of a tariff period.

ghost use Rattle.std.specs.Prelude.{◌≡◌, is_some};
ghost use Rattle.tariffs.specs.Books.{IsBook};
ghost use Rattle.tariffs.specs.Names.{period_named, same_text};
ghost use Rattle.sql_rules.specs.Rules.{is_period_name};

use calendar::Period;
use shelves::TariffShelf;
use tariffs::TariffBook;

/// Whether the name is this text.
fn is_text(text: &str, name: &[u8]) -> bool
    ensures { result ≡ same_text text.now name.now }
{
    text.as_bytes() == name
}

/// Whether a period of the book has this name.
pub(crate) fn is_named(book: &TariffBook, name: &[u8]) -> bool
    requires { IsBook book.now }
    ensures { result ≡ is_some (period_named book.now.periods name.now) }
{
    'periods: for at in 0..8u8 {
        let Some(text) = book.period_name(Period(at)) else {
            return false;
        };
        if is_text(text, name) {
            return true;
        }
    }
    false
}

/// Whether a period of a book on the shelf has this name.
pub(crate) fn is_period_name(shelf: &TariffShelf, name: &[u8]) -> bool
    ensures { result ≡ is_period_name shelf.now name.now }
{
    'books: for before in 0..shelf.count() {
        let Some(book) = shelf.book(before + 1) else {
            return false;
        };
        if is_named(book, name) {
            return true;
        }
    }
    false
}
