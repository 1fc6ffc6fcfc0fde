//! The book of one price: the least and the greatest price, its one group and its one period.

use crate::tests::tables::{Teller, Words, try_table};
use crate::tests::tariff::lookups::{head_of, told_of_group, told_of_period};
use crate::tests::values::moment;
use std::alloc::Global;
use std::process::Abort;
use tariffs::{TariffBook, once_book};

fn book_of_price(rt: &impl Abort, alloc: Global, price: u64, block: u64) -> TariffBook {
    assert!(rt; price <= 1_000_000_000 && 1 <= block && block <= 1_000_000_000_000_000);
    once_book(alloc, price, block).expect(rt, "memory")
}

/// Tells of a book of a price and a block what it says of itself and of a group.
#[derive(Clone, Copy)]
struct Books;

impl Teller for Books {
    fn tell<R: Abort>(&mut self, rt: &R, alloc: Global, case: &str) -> String {
        let mut words = Words::of(case);
        let (price, block, group) = (words.number(rt), words.number(rt), words.number(rt));
        let book = book_of_price(rt, alloc, price, block);
        told_of_book(rt, alloc, &book, group)
    }
}

fn told_of_book(rt: &impl Abort, alloc: Global, book: &TariffBook, group: u32) -> String {
    let head = head_of(rt, alloc, book);
    let group = told_of_group(rt, alloc, book, group, 0);
    format!(in alloc; "{head}, {group}").expect(rt, "memory")
}

const BOOKS: &str = "\
100000 60 10 => 978 3600, 10 60 600 3600 Time None Terminate / None 100000
100000 60 11 => 978 3600, none
0 1 10 => 978 3600, 10 1 600 3600 Time None Terminate / None 0
1000000000 1000000000000000 10 =>
   978 3600, 10 1000000000000000 600 3600 Time None Terminate / None 1000000000";

// rule: once-book
#[test]
fn a_book_of_one_price_has_one_group(rt: HostRuntime) {
    try_table(&rt, rt.alloc(), &mut Books, BOOKS);
}

/// Tells of a book of a price and a block the period at a moment, the switch within the greatest
/// validity from it, and the validity from it.
#[derive(Clone, Copy)]
struct BookMoments;

impl Teller for BookMoments {
    fn tell<R: Abort>(&mut self, rt: &R, alloc: Global, case: &str) -> String {
        let mut words = Words::of(case);
        let (price, block, seconds) = (words.number(rt), words.number(rt), words.number(rt));
        let at = moment(rt, seconds);
        let book = book_of_price(rt, alloc, price, block);
        told_of_period(rt, alloc, &book, at, 43_200)
    }
}

const MOMENTS: &str = "\
100000 60 0 => 0 None 3600
100000 60 1767571199 => 0 None 3600
100000 60 1767571200 => 0 None 3600
100000 60 1767607201 => 0 None 3600
100000 60 4102444799 => 0 None 3600";

#[test]
fn a_book_of_one_price_has_one_period(rt: HostRuntime) {
    try_table(&rt, rt.alloc(), &mut BookMoments, MOMENTS);
}
