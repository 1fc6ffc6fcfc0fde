//! Allowances, which are used before money.

use crate::tests::account::scenarios::play_all;
use worked_book::BOOK;

/// Three blocks of five are held of the allowance; of four used three are covered.
const ALLOWANCE: &str = "\
1767571200 credit 4102444800 1000000 => 1 (1000000; 1000000, 0, 0, 0)
1767571200 allow 4102444800 10 3 => 2 (1000000; 1000000, 0, 0, 0) (3; 3, 0, 0, 0)
1767607200 open s34 => opened (1000000; 1000000, 0, 0, 0) (3; 3, 0, 0, 0)
1767607200 reserve s34 10 300 => 300 None 3600 all (1000000; 800000, 200000, 0, 0) (3; 0, 3, 0, 0)
1767607500 settle s34 10 240 => 4 100000 100000 0 3 (1000000; 900000, 0, 100000, 0)
   (3; 0, 0, 3, 0)";

/// Two blocks, and no money. They are held, and cover a report after their bucket's end.
const BLOCKS: &str = "\
1767571200 allow 1767607800 10 2 => 1 (2; 2, 0, 0, 0)
1767607200 open s35 => opened (2; 2, 0, 0, 0)
1767607200 reserve s35 10 600 => 120 None 3600 fewer (2; 0, 2, 0, 0)
1767608100 settle s35 10 180 => 3 100000 0 100000 2 (2; 0, 0, 2, 0)";

/// As before, with one block used: the other one expires.
const BLOCK_LEFT: &str = "\
1767571200 allow 1767607800 10 2 => 1 (2; 2, 0, 0, 0)
1767607200 open s35 => opened (2; 2, 0, 0, 0)
1767607200 reserve s35 10 600 => 120 None 3600 fewer (2; 0, 2, 0, 0)
1767608100 settle s35 10 60 => 1 0 0 0 1 (2; 0, 0, 1, 1)";

/// An allowance that ends at 10:10. A second before that it covers what a report starts beyond the
/// grant; at its end only what is held is covered, and what is left of it expires.
const ENDING: &str = "\
1767571200 credit 4102444800 1000000 => 1 (1000000; 1000000, 0, 0, 0)
1767571200 allow 1767607800 10 6 => 2 (6; 6, 0, 0, 0) (1000000; 1000000, 0, 0, 0)
1767607200 open a => opened (6; 6, 0, 0, 0) (1000000; 1000000, 0, 0, 0)
1767607200 open b => opened (6; 6, 0, 0, 0) (1000000; 1000000, 0, 0, 0)
1767607200 reserve a 10 60 => 60 None 3600 all (6; 5, 1, 0, 0) (1000000; 1000000, 0, 0, 0)
1767607200 reserve b 10 60 => 60 None 3600 all (6; 4, 2, 0, 0) (1000000; 1000000, 0, 0, 0)
1767607799 settle a 10 120 => 2 0 0 0 2 (6; 3, 1, 2, 0) (1000000; 1000000, 0, 0, 0)
1767607800 settle b 10 120 => 2 100000 100000 0 1 (6; 0, 0, 3, 3) (1000000; 900000, 0, 100000, 0)";

/// Of three events one is covered, since the other block is held; the money covers one more. The
/// held block covers its session's report.
const EVENTS_ALLOWED: &str = "\
1767571200 credit 4102444800 90000 => 1 (90000; 90000, 0, 0, 0)
1767571200 allow 4102444800 30 2 => 2 (90000; 90000, 0, 0, 0) (2; 2, 0, 0, 0)
1767607200 open s => opened (90000; 90000, 0, 0, 0) (2; 2, 0, 0, 0)
1767607200 reserve s 30 1 => 1 None 3600 all (90000; 90000, 0, 0, 0) (2; 1, 1, 0, 0)
1767607200 quote 30 3 => 270000 (90000; 90000, 0, 0, 0) (2; 1, 1, 0, 0)
1767607200 rest 30 3 => 180000 (90000; 90000, 0, 0, 0) (2; 1, 1, 0, 0)
1767607200 debit e 30 3 => not covered (90000; 90000, 0, 0, 0) (2; 1, 1, 0, 0)
1767607200 debit e 30 2 => 2 90000 90000 0 1 (90000; 0, 0, 90000, 0) (2; 0, 1, 1, 0)
1767607260 settle s 30 1 => 1 0 0 0 1 (90000; 0, 0, 90000, 0) (2; 0, 0, 2, 0)";

/// An allowance of another group covers nothing.
const OTHER_GROUP: &str = "\
1767571200 allow 4102444800 10 1 => 1 (1; 1, 0, 0, 0)
1767607200 rest 30 1 => 90000 (1; 1, 0, 0, 0)
1767607200 debit e 30 1 => not covered (1; 1, 0, 0, 0)
1767607200 open s => opened (1; 1, 0, 0, 0)
1767607200 reserve s 30 1 => nothing (1; 1, 0, 0, 0)
1767607260 settle s 30 1 => 1 90000 0 90000 0 (1; 1, 0, 0, 0)
1767607260 debit e 10 1 => 1 0 0 0 1 (1; 0, 0, 1, 0)";

/// An allowance of 10^9 blocks, the most, and one event more.
const MOST_BLOCKS: &str = "\
1767571200 allow 4102444800 30 1000000000 => 1 (1000000000; 1000000000, 0, 0, 0)
1767607200 rest 30 1000000001 => 90000 (1000000000; 1000000000, 0, 0, 0)
1767607200 debit e 30 1000000001 => not covered (1000000000; 1000000000, 0, 0, 0)
1767607200 credit 4102444800 90000 => 2 (1000000000; 1000000000, 0, 0, 0) (90000; 90000, 0, 0, 0)
1767607200 debit e 30 1000000001 => 1000000001 90000 90000 0 1000000000
   (1000000000; 0, 0, 1000000000, 0) (90000; 0, 0, 90000, 0)
1767607200 counters of all => 30 0 1000000001; (1000000000; 0, 0, 1000000000, 0)
   (90000; 0, 0, 90000, 0)";

#[test]
fn allowances_before_money(rt: HostRuntime) {
    play_all(
        &rt,
        rt.alloc(),
        BOOK,
        &[ALLOWANCE, BLOCKS, BLOCK_LEFT, ENDING],
    );
    play_all(
        &rt,
        rt.alloc(),
        BOOK,
        &[EVENTS_ALLOWED, OTHER_GROUP, MOST_BLOCKS],
    );
}
