//! The civil day, month and period at moments.

ghost use Rattle.std.specs.Prelude.{◌≡◌, IfOk, string_bytes};
ghost use Rattle.calendar.specs.Clock.{day};
ghost use Rattle.calendar.specs.Months.{month};
ghost use Rattle.operations.specs.CivilClock.{clock_line, clock_text, month_shown, period_shown};
ghost use Rattle.operations.specs.Written.{PrintsText};

use calendar::Cycle;
use shelves::TariffShelf;
use std::alloc::{AllocError, Global};
use std::io::Write;
use tariffs::TariffBook;
use texts::{StreamFault, write_whole};
use units::Moment;

/// Writes a line a moment, in their order: what the clock of the books shows there, and the tariff
/// period, by the book that holds then: `1767607200 day 20459 month 202601 period standard`.
///
/// # Errors
/// `Memory` where memory was refused, `Write` where the writer failed: then a beginning of the
/// lines is written.
// rule: civil-clock
pub fn serve_clock<W: Write>(
    alloc: Global,
    shelf: &TariffShelf,
    moments: &[Moment],
    writer: &mut W,
) -> Result<(), StreamFault>
    ensures { PrintsText (clock_text shelf.now moments.now) (W.contents writer.old)
        (W.contents writer.new) result }
{
    let text = clock_text(alloc, shelf, moments)?;
    write_whole(writer, text.as_bytes())?;
    Ok(())
}

/// The lines of moments.
fn clock_text(alloc: Global, shelf: &TariffShelf, moments: &[Moment]) -> Result<String, AllocError>
    ensures { IfOk result (λ text. string_bytes text ≡ clock_text shelf.now moments.now) }
{
    let mut text = String::new(alloc);
    for moment in moments {
        let line = clock_line(alloc, shelf, *moment)?;
        text.push_str(line.as_str())?;
    }
    Ok(text)
}

/// The line of a moment.
fn clock_line(alloc: Global, shelf: &TariffShelf, moment: Moment) -> Result<String, AllocError>
    ensures { IfOk result (λ text. string_bytes text ≡ clock_line shelf.now moment) }
{
    let book = shelf.book_at(moment);
    let seconds = moment.seconds();
    let day = day_shown(book, moment);
    let month = month_at(book, moment);
    let period = period_shown(book, moment);
    format!(in alloc; "{seconds} day {day} month {month} period {period}\n")
}

/// The civil day of a book's zone at a moment.
fn day_shown(book: &TariffBook, moment: Moment) -> u32
    ensures { result ≡ day book.now.calendar.zone moment }
{
    book.cycle_of(Cycle::Day, moment)
}

/// The number YYYYMM of the civil month of a book's zone at a moment.
fn month_at(book: &TariffBook, moment: Moment) -> u64
    ensures { result ≡ month_shown (month book.now.calendar.zone moment) }
{
    month_shown(book.cycle_of(Cycle::Month, moment))
}

/// The number YYYYMM of a month that is counted from January 1969.
fn month_shown(months: u32) -> u64
    ensures { result ≡ month_shown months }
{
    let months = u64::from(months);
    100 * (1969 + months / 12) + months % 12 + 1
}

/// The name of a book's period at a moment.
fn period_shown<'a>(book: &'a TariffBook, moment: Moment) -> &'a str
    ensures { result.now ≡ period_shown book.now moment }
{
    match book.period_name(book.period_at(moment)) {
        Some(name) => name,
        None => "",
    }
}
