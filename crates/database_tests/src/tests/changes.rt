//! The texts of what is kept of a credit, and which rows of a change may be written. A case is a
//! line: what is asked, and the answer.

use crate::tests::new_keepers::change_of;
use crate::tests::row_readers::{stored, stored_rows};
use crate::tests::values::{account, large, moment};
use commands::{Answer, Content, KeptCredit};
use keepers::{Change, KeptAnswer};
use shelves::TariffShelf;
use sql_keeper::{kept_texts, may_be_written};
use sql_rows::{HeadColumns, KeptTexts};
use sql_tables::ReadFault;
use std::alloc::Global;
use std::process::Abort;
use tariffs::TariffBook;
use wire::{Scratch, WrittenAnswer, read_credit};

/// What is kept of a credit of account 49151 by its body.
fn kept_of(rt: &impl Abort, alloc: Global, body: &str) -> KeptAnswer {
    let number = account(rt, alloc, "49151");
    let credit = read_credit(alloc, number, body.as_bytes(), &mut Scratch::new(alloc)).expect(
        rt, body,
    );
    assert!(rt; credit.can_be_kept());
    KeptAnswer {
        content: Content::Credit(KeptCredit::new(credit)),
        answer: WrittenAnswer::new(alloc, Answer::Bucket(1)).expect(rt, "memory"),
    }
}

/// The content or the answer of what is kept.
fn texts_told<'a>(kind: &str, texts: &'a Result<Option<KeptTexts>, ReadFault>) -> &'a str {
    match texts {
        Ok(Some(texts)) if kind == "answer" => texts.answer.as_str(),
        Ok(Some(texts)) => texts.content.as_str(),
        Ok(None) => "none",
        Err(ReadFault::Rules) => "out of the rules",
        Err(_) => "a fault",
    }
}

/// `ACCOUNT BODY`: the content or the answer that this account keeps.
fn texts_of(rt: &impl Abort, alloc: Global, kind: &str, words: &str) -> String {
    let (word, body) = words.split_once(" ").expect(rt, "an account and a body");
    let number = account(rt, alloc, word);
    let kept = Some(kept_of(rt, alloc, body));
    let texts = kept_texts(alloc, &number, &kept);
    String::from_str(alloc, texts_told(kind, &texts)).expect(rt, "room")
}

/// The head of an account by the number of its next charge.
fn head_before(rt: &impl Abort, next_charge: u64) -> HeadColumns {
    HeadColumns {
        barred: false,
        as_of: moment(rt, 9),
        next_bucket: 1,
        next_charge,
    }
}

/// A new account becomes one of these rows, its next charge of this number.
fn change_into(rt: &impl Abort, alloc: Global, next: u64, rows: &str) -> Change {
    let before = stored(rt, alloc, moment(rt, 9), "");
    let (after, charges) = stored_rows(rt, alloc, &head_before(rt, next), rows);
    let mut change = change_of(rt, alloc, moment(rt, 9), "49151", (before, after));
    change.charges = charges;
    change
}

/// `FIRST NEXT & ROWS`: whether these rows may be written where the account's next charge was the
/// first and becomes the next. Rows are between `&`.
fn may_be(rt: &impl Abort, alloc: Global, shelf: &TariffShelf, words: &str) -> bool {
    let (numbers, rows) = words.split_once(" & ").expect(rt, "numbers and rows");
    let (first, next) = numbers.split_once(" ").expect(rt, "two numbers");
    let before = Some(head_before(rt, large(rt, first)));
    let rows = rows.replace(alloc, " & ", "\n").expect(rt, "room");
    let change = change_into(rt, alloc, large(rt, next), rows.as_str());
    may_be_written(shelf, &before, &change)
}

fn answer_to(rt: &impl Abort, alloc: Global, shelf: &TariffShelf, question: &str) -> String {
    let (kind, words) = question
        .split_once(" ")
        .expect(rt, "a question and its words");
    if kind == "rows" {
        let may = may_be(rt, alloc, shelf, words);
        format!(in alloc; "{may}").expect(rt, "room")
    } else {
        texts_of(rt, alloc, kind, words)
    }
}

fn is_told(rt: &impl Abort, told: &str, wanted: &str, line: &str) {
    assert_eq!(rt; told, wanted, "{line}");
}

fn try_all(rt: &impl Abort, alloc: Global, shelf: &TariffShelf, lines: &str) {
    for line in lines.lines() {
        let (question, wanted) = line
            .split_once(" -> ")
            .expect(rt, "a question and an answer");
        is_told(
            rt,
            answer_to(rt, alloc, shelf, question).as_str(),
            wanted,
            line,
        );
    }
}

/// The content is the body's members that are there, in byte order of their names. Charges are
/// numbered one after another. A reservation is in an open session and is of the one book that
/// there is, with two of its periods, which are two.
const CASES: &str = r#"content 49152 {"Amount":1,"Reference":"v1"} -> out of the rules
content 49151 {"Amount":1,"Reference":"v1"} -> {"Amount":1,"Reference":"v1"}
content 49151 {"Scope":0,"Reference":"v","Amount":1} -> {"Amount":1,"Reference":"v","Scope":0}
content 49151 {"Reference":"v","From":0,"Amount":1} -> {"Amount":1,"From":0,"Reference":"v"}
content 49151 {"Until":1,"Reference":"v","Amount":1} -> {"Amount":1,"Reference":"v","Until":1}
answer 49151 {"Amount":1,"Reference":"v1"} -> {"Bucket":1,"Result-Code":2001}
rows 1 3 & charge 1 9 s1 10 1 5 5 0 & charge 2 9 s1 10 1 5 5 0 -> true
rows 3 4 & charge 3 9 s1 10 1 5 5 0 -> true
rows 1 1 &  -> true
rows 3 1 &  -> false
rows 1 4 & charge 1 9 s1 10 1 5 5 0 & charge 3 9 s1 10 1 5 5 0 -> false
rows 2 3 & charge 1 9 s1 10 1 5 5 0 & charge 2 9 s1 10 1 5 5 0 -> false
rows 1 3 & charge 2 9 s1 10 1 5 5 0 & charge 1 9 s1 10 1 5 5 0 -> false
rows 1 1 & session s1 0 9 open & group s1 10 0 0 1 -> true
rows 1 1 & session s1 0 9 open & group s1 10 0 1 1 -> true
rows 1 1 & session s1 0 9 open & group s1 10 0 -> true
rows 1 1 & session s1 0 9 ended & group s1 10 0 -> true
rows 1 1 & session s1 0 9 open & group s1 10 0 2 0 -> false
rows 1 1 & session s1 0 9 open & group s1 10 0 0 2 -> false
rows 1 1 & session s1 0 9 open & group s1 10 0 2:0 1 -> false
rows 1 1 & session s1 0 9 open & group s1 10 0 0:0 1 -> false
rows 1 1 & session s1 0 9 ended & group s1 10 0 0 1 -> false
rows 1 1 & session s1 0 9 never & group s1 10 0 0 1 -> false"#;

/// With a second book on the shelf a reservation may be of either.
const CASES_OF_TWO: &str = "rows 1 1 & session s1 0 9 open & group s1 10 0 0 1 -> true
rows 1 1 & session s1 0 9 open & group s1 10 0 2:0 1 -> true
rows 1 1 & session s1 0 9 open & group s1 10 0 2:2 1 -> false
rows 1 1 & session s1 0 9 open & group s1 10 0 3:0 1 -> false";

/// The worked book.
fn worked(rt: &impl Abort, alloc: Global) -> TariffBook {
    TariffBook::read(alloc, worked_book::BOOK.as_bytes()).expect(rt, "a book")
}

// rule: database-writes, tidy-rows, database-writes.writable, database-writes.seen
#[test]
fn texts_and_rows_of_a_change(rt: HostRuntime) {
    let alloc = rt.alloc();
    let shelf = TariffShelf::new(alloc, worked(&rt, alloc)).expect(&rt, "a shelf");
    try_all(&rt, alloc, &shelf, CASES);
}

// rule: database-writes.tables-of
#[test]
fn rows_of_a_change_over_two_books(rt: HostRuntime) {
    let alloc = rt.alloc();
    let mut shelf = TariffShelf::new(alloc, worked(&rt, alloc)).expect(&rt, "a shelf");
    let from = moment(&rt, 5);
    let added = shelf.add(from, worked(&rt, alloc), moment(&rt, 4));
    assert!(rt; added.is_ok());
    try_all(&rt, alloc, &shelf, CASES_OF_TWO);
}
