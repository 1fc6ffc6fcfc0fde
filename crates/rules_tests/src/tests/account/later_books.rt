//! Grants and allowances over the worked book and later ones.

use crate::tests::account::scenarios::play;
use crate::tests::tables::Words;
use crate::tests::tariff::shelf::later_book;
use crate::tests::values::{moment, shelf};
use shelves::TariffShelf;
use std::alloc::Global;
use std::process::Abort;
use worked_book::BOOK;

/// From Tuesday 00:00 on a minute by night costs 60,000. What was granted before is settled by the
/// book of its grant, and an allowance counts blocks under both.
const BOOKS: &str = "\
1767571200 credit 4102444800 1000000 => 1 (1000000; 1000000, 0, 0, 0)
1767657300 open s32 => opened (1000000; 1000000, 0, 0, 0)
1767657300 reserve s32 10 300 => 300 None 3600 all (1000000; 750000, 250000, 0, 0)
1767657660 settle s32 10 300 => 5 250000 250000 0 0 (1000000; 750000, 0, 250000, 0)
1767657660 reserve s32 10 300 => 300 None 3600 all (1000000; 450000, 300000, 250000, 0)
1767657700 settle s32 10 300 => 5 300000 300000 0 0 (1000000; 450000, 0, 550000, 0)
1767657700 allow 4102444800 10 2 => 2 (1000000; 450000, 0, 550000, 0) (2; 2, 0, 0, 0)
1767657700 reserve s32 10 180 => 180 None 3600 all (1000000; 390000, 60000, 550000, 0)
   (2; 0, 2, 0, 0)
1767657720 settle s32 10 180 => 3 60000 60000 0 2 (1000000; 390000, 0, 610000, 0) (2; 0, 0, 2, 0)";

/// An allowance that is bought under the second book covers blocks of a grant of the first one; the
/// others cost what they cost at the grant.
const BOUGHT: &str = "\
1767571200 credit 4102444800 1000000 => 1 (1000000; 1000000, 0, 0, 0)
1767657300 open s => opened (1000000; 1000000, 0, 0, 0)
1767657300 reserve s 10 300 => 300 None 3600 all (1000000; 750000, 250000, 0, 0)
1767657650 allow 4102444800 10 2 => 2 (1000000; 750000, 250000, 0, 0) (2; 2, 0, 0, 0)
1767657660 settle s 10 300 => 5 150000 150000 0 2 (1000000; 850000, 0, 150000, 0) (2; 0, 0, 2, 0)";

/// The worked book, and from Tuesday 00:00 on one with dearer minutes.
const TUESDAY: &str = "\
1767657600 price = 50000 -> price = 60000 & price = 100000 -> price = 120000";

/// The same with a dearer night, where the periods have other names and numbers.
const OTHER_PERIODS: &str = r#"1767657600 ["off", "peak"] -> ["peak", "low"] & "off" -> "low" &
   price = 50000 -> price = 60000"#;

/// The dearer minutes from ten past eight on Monday on.
const PAST_EIGHT: &str = "\
1767600600 price = 50000 -> price = 60000 & price = 100000 -> price = 120000";

/// At 07:30 three blocks of ten are held of an allowance, and seven at the price from 08:00 on. The
/// report comes under the second book: of its blocks the one without a part of the day and two of
/// the three before 08:00 are covered, the third costs 50,000 and the four after 08:00 cost 100,000
/// each, by the book of the grant. The next minute costs what the second book says.
const MIXED: &str = "\
1767571200 credit 4102444800 1000000 => 1 (1000000; 1000000, 0, 0, 0)
1767571200 allow 4102444800 10 3 => 2 (1000000; 1000000, 0, 0, 0) (3; 3, 0, 0, 0)
1767598200 open s => opened (1000000; 1000000, 0, 0, 0) (3; 3, 0, 0, 0)
1767598200 reserve s 10 600 => 600 Some(1767600000) 3600 all (1000000; 300000, 700000, 0, 0)
   (3; 0, 3, 0, 0)
1767600900 settle s 10 200:after 30 210:before => 8 450000 450000 0 3
   (1000000; 550000, 0, 450000, 0) (3; 0, 0, 3, 0)
1767600900 counters of all => 10 0 8; (1000000; 550000, 0, 450000, 0) (3; 0, 0, 3, 0)
1767600900 reserve s 10 100 => 100 None 3600 all (1000000; 430000, 120000, 450000, 0)
   (3; 0, 0, 3, 0)
1767600960 settle s 10 100 => 1 120000 120000 0 0 (1000000; 430000, 0, 570000, 0) (3; 0, 0, 3, 0)";

/// Two books a second apart, of which the first is valid for a minute.
const SECOND_BOOKS: &str = "\
1767657600 price = 50000 -> price = 60000 & validity = 3600 -> validity = 60
1767657601 price = 50000 -> price = 70000";

/// A grant under each of three books, each held, valid and settled by its own; a session lives for
/// twice the validity of the book at its last request.
const SECONDS: &str = "\
1767571200 credit 4102444800 1000000 => 1 (1000000; 1000000, 0, 0, 0)
1767657599 open a => opened (1000000; 1000000, 0, 0, 0)
1767657599 reserve a 10 60 => 60 None 3600 all (1000000; 950000, 50000, 0, 0)
1767657600 open b => opened (1000000; 950000, 50000, 0, 0)
1767657600 reserve b 10 60 => 60 None 60 all (1000000; 890000, 110000, 0, 0)
1767657601 open c => opened (1000000; 890000, 110000, 0, 0)
1767657601 reserve c 10 60 => 60 None 3600 all (1000000; 820000, 180000, 0, 0)
1767657661 settle a 10 60 => 1 50000 50000 0 0 (1000000; 820000, 130000, 50000, 0)
1767657661 settle b 10 60 => 1 60000 60000 0 0 (1000000; 820000, 70000, 110000, 0)
1767657661 settle c 10 60 => 1 70000 70000 0 0 (1000000; 820000, 0, 180000, 0)
1767657719 session b => 0 Open true (1000000; 820000, 0, 180000, 0)
1767657720 session b => 0 Open false (1000000; 820000, 0, 180000, 0)
1767664798 session a => 0 Open true (1000000; 820000, 0, 180000, 0)
1767664799 session a => 0 Open false (1000000; 820000, 0, 180000, 0)
1767664800 session c => 0 Open true (1000000; 820000, 0, 180000, 0)
1767664801 session c => 0 Open false (1000000; 820000, 0, 180000, 0)";

/// A book with a group more: events in blocks of two, at five micro-units.
const MORE_GROUPS: &str = r#"1767657600 id = 30 -> id = 40|unit = "events"|block = 2|slice = 2|
  max_grant = 20|cycle = "none"|final = "terminate"|price = [{period = "off",
   tiers = [{price = 5}]}, {period = "peak", tiers = [{price = 5}]}]|[[group]]|id = 30"#;

/// A group that a later book brings is granted, covered and charged from its first moment on.
const BROUGHT: &str = "\
1767571200 credit 4102444800 100 => 1 (100; 100, 0, 0, 0)
1767657599 funds 40 => 100 false (100; 100, 0, 0, 0)
1767657600 funds 40 => 100 true (100; 100, 0, 0, 0)
1767657600 allow 4102444800 40 2 => 2 (100; 100, 0, 0, 0) (2; 2, 0, 0, 0)
1767657600 open s => opened (100; 100, 0, 0, 0) (2; 2, 0, 0, 0)
1767657600 reserve s 40 7 => 7 None 3600 all (100; 90, 10, 0, 0) (2; 0, 2, 0, 0)
1767657660 settle s 40 5 => 3 5 5 0 2 (100; 95, 0, 5, 0) (2; 0, 0, 2, 0)
1767657660 debit e 40 1 => 1 5 5 0 0 (100; 90, 0, 10, 0) (2; 0, 0, 2, 0)
1767657660 counters of all => 40 0 4; (100; 90, 0, 10, 0) (2; 0, 0, 2, 0)";

/// Adds a book: `FROM CHANGES`, the changes of the worked book.
fn add_book(rt: &impl Abort, alloc: Global, shelf: &mut TariffShelf, text: &str) {
    let mut words = Words::of(text);
    let (from, after) = (moment(rt, words.number(rt)), moment(rt, 0));
    let later = later_book(rt, alloc, words.rest());
    shelf.add(from, later, after).expect(rt, "a later book");
}

/// Plays scenarios over the worked book and later ones, a line each.
fn play_over(rt: &impl Abort, alloc: Global, books: &str, scenarios: &[&str]) {
    let mut shelf = shelf(rt, alloc, BOOK);
    let books = books.replace(alloc, "\n  ", "").expect(rt, "memory");
    for line in books.as_str().lines() {
        add_book(rt, alloc, &mut shelf, line);
    }
    for lines in scenarios {
        play(rt, alloc, &shelf, lines);
    }
}

// rule: tiers.prices-at
#[test]
fn a_grant_is_settled_by_its_own_book(rt: HostRuntime) {
    play_over(&rt, rt.alloc(), TUESDAY, &[BOOKS, BOUGHT]);
    play_over(&rt, rt.alloc(), OTHER_PERIODS, &[BOOKS, BOUGHT]);
    play_over(&rt, rt.alloc(), PAST_EIGHT, &[MIXED]);
    play_over(&rt, rt.alloc(), SECOND_BOOKS, &[SECONDS]);
    play_over(&rt, rt.alloc(), MORE_GROUPS, &[BROUGHT]);
}
