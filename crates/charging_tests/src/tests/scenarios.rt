//! Scenarios: what commands are answered, and the rows after them.
//!
//! A scenario is a text of parts with an empty line between them. A part is commands, each with its
//! answer in the line after it, and then lines of the rows as they are after these commands;
//! `unchanged` says that no row is another than before them. The commands of a part are run as one
//! list. A line that begins with two spaces goes on with the one before it. A line of a table that
//! isn't there is printed as `no such table`.

use crate::tests::lines::{all_commands, first_word, is_command, moment};
use crate::tests::rows::{push, push_rows};
use charging::run;
use commands::Answer;
use keepers::MemoryKeeper;
use shelves::TariffShelf;
use std::alloc::Global;
use std::process::Abort;
use tariffs::TariffBook;
use units::Moment;
use wire::{WrittenAnswer, write_answer};

/// The shelf of the scenarios: the worked book alone.
pub(crate) fn shelf(rt: &impl Abort, alloc: Global) -> TariffShelf {
    let book = TariffBook::read(alloc, worked_book::BOOK.as_bytes()).expect(rt, "the worked book");
    TariffShelf::new(alloc, book).expect(rt, "a shelf")
}

/// The text with each line that begins with two spaces put behind the one before it.
pub(crate) fn whole_lines(rt: &impl Abort, alloc: Global, text: &str) -> String {
    text.replace(alloc, "\n  ", "").expect(rt, "memory")
}

/// The text of an answer in a line.
pub(crate) fn push_told(rt: &impl Abort, text: &mut String, answer: &str) {
    push(rt, text, "= ");
    push(rt, text, answer);
    push(rt, text, "\n");
}

/// An answer in a line.
pub(crate) fn push_answer(rt: &impl Abort, alloc: Global, text: &mut String, answer: &Answer) {
    let answer = write_answer(alloc, answer).expect(rt, "memory");
    push_told(rt, text, answer.as_str());
}

/// The commands among these lines, each with its answer in the line after it, as far as there are
/// answers.
fn push_answered(rt: &impl Abort, text: &mut String, lines: &str, all: &[WrittenAnswer]) {
    let mut answers = all.iter();
    for line in lines.lines() {
        if is_command(line)
            && let Some(answer) = answers.next()
        {
            push(rt, text, line);
            push(rt, text, "\n");
            push_told(rt, text, answer.text());
        }
    }
}

/// What the rows have after this word, in its line.
fn table<'r>(rows: &'r str, word: &str) -> &'r str {
    match rows.split_once(word) {
        Some((_, rest)) => rest.split_once("\n").unwrap_or((rest, "")).0,
        None => ": no such table",
    }
}

/// What is seen of the rows where a line looks at them.
fn push_look(rt: &impl Abort, text: &mut String, line: &str, before: &str, after: &str) {
    match line.split_once(":") {
        Some((word, _)) => {
            push(rt, text, word);
            push(rt, text, table(after, word));
            push(rt, text, "\n");
        }
        None if before == after => push(rt, text, "unchanged\n"),
        None => push(rt, text, after),
    }
}

/// What is seen of the rows at the lines of a part that look at them.
fn push_looked(rt: &impl Abort, text: &mut String, part: &str, before: &str, after: &str) {
    for line in part.lines() {
        if !is_command(line) && !line.starts_with("=") {
            push_look(rt, text, line, before, after);
        }
    }
}

fn rows(rt: &impl Abort, alloc: Global, keeper: &mut MemoryKeeper, shelf: &TariffShelf) -> String {
    let mut text = String::new(alloc);
    push_rows(rt, alloc, &mut text, keeper, shelf);
    text
}

/// A part as it comes out.
fn told(
    rt: &impl Abort,
    alloc: Global,
    keeper: &mut MemoryKeeper,
    shelf: &TariffShelf,
    part: &str,
) -> String {
    let before = rows(rt, alloc, keeper, shelf);
    let run = run(alloc, keeper, shelf, all_commands(rt, alloc, part));
    let after = rows(rt, alloc, keeper, shelf);
    let mut text = String::new(alloc);
    push_answered(rt, &mut text, part, &run.answers);
    push_looked(rt, &mut text, part, before.as_str(), after.as_str());
    text
}

/// Asserts that what came out is what was expected.
pub(crate) fn assert_told(rt: &impl Abort, told: &str, expected: &str) {
    assert_eq!(rt; told, expected);
}

fn try_part(
    rt: &impl Abort,
    alloc: Global,
    keeper: &mut MemoryKeeper,
    shelf: &TariffShelf,
    part: &str,
) {
    let told = told(rt, alloc, keeper, shelf, part);
    assert_told(rt, told.as_str().trim_end(), part.trim_end());
}

fn try_parts(
    rt: &impl Abort,
    alloc: Global,
    keeper: &mut MemoryKeeper,
    shelf: &TariffShelf,
    parts: &str,
) {
    for part in parts.split("\n\n") {
        try_part(rt, alloc, keeper, shelf, part);
    }
}

/// The worked book with these changes, joined by `&`, each `OLD -> NEW`. In them `|` stands for the
/// end of a line.
fn changed_book(rt: &impl Abort, alloc: Global, changes: &str) -> TariffBook {
    let mut text = String::from_str(alloc, worked_book::BOOK).expect(rt, "memory");
    let changes = changes.replace(alloc, "|", "\n").expect(rt, "memory");
    for change in changes.as_str().split(" & ") {
        let (old, new) = change.split_once(" -> ").expect(rt, "a change");
        assert!(rt; text.as_str().contains(old), "{change}");
        text = text.as_str().replace(alloc, old, new).expect(rt, "memory");
    }
    TariffBook::read(alloc, text.as_str().as_bytes()).expect(rt, "a later book")
}

/// Adds a book: the moment from which it holds, and its changes of the worked book.
fn add_book(rt: &impl Abort, alloc: Global, shelf: &mut TariffShelf, line: &str) {
    let (from, changes) = first_word(rt, line);
    let book = changed_book(rt, alloc, changes);
    let added = shelf.add(moment(rt, from), book, Moment::first());
    added.expect(rt, "a book that may follow");
}

/// Tries a scenario over a new keeper. It is given as texts, each going on after the one before it.
pub(crate) fn try_all(rt: &impl Abort, alloc: Global, texts: &[&str]) {
    try_over(rt, alloc, "", texts);
}

/// The same over the worked book and later ones, a line each.
pub(crate) fn try_over(rt: &impl Abort, alloc: Global, books: &str, texts: &[&str]) {
    let mut shelf = shelf(rt, alloc);
    let books = whole_lines(rt, alloc, books);
    for line in books.as_str().lines() {
        add_book(rt, alloc, &mut shelf, line);
    }
    let mut keeper = MemoryKeeper::new(alloc);
    for text in texts {
        let text = whole_lines(rt, alloc, text);
        try_parts(rt, alloc, &mut keeper, &shelf, text.as_str());
    }
}
