//! Books that are added to a shelf from a moment on, and which book holds at a moment. Expected
//! values are reckoned by hand from the rules of dated books.
//!
//! A line is a call of a shelf that begins with the worked book: `add FROM AFTER CHANGES` gives how
//! many books there are, or the fault's number; `at MOMENT` the number of the book and its
//! validity.

use crate::tests::tables::{Teller, Words, try_table};
use crate::tests::tariff::faults::changed;
use crate::tests::values::{book, moment, shelf};
use shelves::TariffShelf;
use std::alloc::Global;
use std::process::Abort;
use tariffs::TariffBook;
use worked_book::BOOK;

/// The worked book with these changes, or as it is. In their texts `|` stands for the end of a
/// line.
pub(crate) fn later_book(rt: &impl Abort, alloc: Global, changes: &str) -> TariffBook {
    if changes.is_empty() {
        return book(rt, alloc, BOOK);
    }
    let changes = changes.replace(alloc, "|", "\n").expect(rt, "memory");
    let text = changed(rt, alloc, BOOK, changes.as_str());
    book(rt, alloc, text.as_str())
}

/// `FROM AFTER CHANGES`: how many books there are once the changed book is added, or the fault.
fn add(rt: &impl Abort, alloc: Global, shelf: &mut TariffShelf, text: &str) -> String {
    let mut words = Words::of(text);
    let from = moment(rt, words.number(rt));
    let after = moment(rt, words.number(rt));
    let later = later_book(rt, alloc, words.rest());
    let told = match shelf.add(from, later, after) {
        Ok(()) => format!(in alloc; "{} books", shelf.count()),
        Err(fault) => format!(in alloc; "fault {}", fault.number()),
    };
    told.expect(rt, "memory")
}

/// The number of the book at a moment, and its validity.
fn at(rt: &impl Abort, alloc: Global, shelf: &TariffShelf, text: &str) -> String {
    let at = moment(rt, Words::of(text).number(rt));
    let (number, validity) = (shelf.number_at(at), shelf.validity_at(at));
    format!(in alloc; "{number} {validity}").expect(rt, "memory")
}

/// Tells what a line's call gives.
#[derive(Drop)]
struct Caller {
    shelf: TariffShelf,
}

impl Teller for Caller {
    fn tell<R: Abort>(&mut self, rt: &R, alloc: Global, case: &str) -> String {
        let mut words = Words::of(case);
        match words.word() {
            "add" => add(rt, alloc, &mut self.shelf, words.rest()),
            _ => at(rt, alloc, &self.shelf, words.rest()),
        }
    }
}

/// Each fault but that of a full shelf, and the first of two; books a second apart; a group that a
/// later book brings is in each book after it.
const ADDED: &str = r#"at 0 => 1 3600
at 1767607200 => 1 3600
add 0 0 => fault 3
add 1767607200 1767607200 => fault 3
add 1767607200 1767607200 id = 30 -> id = 31 => fault 3
add 1767607201 1767607200 +00:00 -> -00:00 => fault 4
add 1767607201 1767607200 978 -> 840 => fault 4
add 1767607201 1767607200 978 -> 840 & id = 30 -> id = 31 => fault 4
add 1767607201 1767607200 id = 30 -> id = 31 => fault 5
add 1767607201 1767607200 id = 30 -> id = 31 & block = 60 -> block = 30 => fault 5
add 1767607201 1767607200 block = 60 -> block = 30 => fault 6
add 1767607201 1767607200 cycle = "month" -> cycle = "day" => fault 6
add 1767607201 1767607200 unit = "events" -> unit = "octets" => fault 6
add 1767607201 1767607200 validity = 3600 -> validity = 60 => 2 books
at 1767607200 => 1 3600
at 1767607201 => 2 60
add 1767607201 0 => fault 3
add 1767607202 1767607200 validity = 3600 -> validity = 43200 => 3 books
at 1767607201 => 2 60
at 1767607202 => 3 43200
at 4102444799 => 3 43200
add 1767607203 0 id = 30 -> id = 40|unit = "events"|block = 2|slice = 2|max_grant = 2|
  cycle = "day"|final = "terminate"|price = [{period = "off", tiers = [{price = 5}]},
   {period = "peak", tiers = [{price = 5}]}]|[[group]]|id = 30 => 4 books
add 1767607204 0 => fault 5
at 1767607204 => 4 3600"#;

/// The shelf has 16 books at most, whatever the seventeenth is.
const FULL: &str = "\
add 1 0 => 2 books
add 2 0 => 3 books
add 3 0 => 4 books
add 4 0 => 5 books
add 5 0 => 6 books
add 6 0 => 7 books
add 7 0 => 8 books
add 8 0 => 9 books
add 9 0 => 10 books
add 10 0 => 11 books
add 11 0 => 12 books
add 12 0 => 13 books
add 13 0 => 14 books
add 14 0 => 15 books
add 15 0 => 16 books
add 16 0 => fault 2
add 15 0 id = 30 -> id = 31 => fault 2
at 0 => 1 3600
at 14 => 15 3600
at 15 => 16 3600";

fn try_shelf(rt: &impl Abort, alloc: Global, lines: &str) {
    let shelf = shelf(rt, alloc, BOOK);
    try_table(rt, alloc, &mut Caller { shelf }, lines);
}

// rule: book-at, later-books
#[test]
fn books_follow_one_another(rt: HostRuntime) {
    try_shelf(&rt, rt.alloc(), ADDED);
    try_shelf(&rt, rt.alloc(), FULL);
}
