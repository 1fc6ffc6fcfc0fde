//! Sessions and events over one book.

use crate::tests::account::scenarios::play_all;
use worked_book::BOOK;

/// At 07:30 a grant is held at the price from 08:00 on. Five minutes are used before the switch,
/// and two begun after it.
const SWITCH: &str = "\
1767598200 credit 4102444800 1000000 => 1 (1000000; 1000000, 0, 0, 0)
1767598200 open s1 => opened (1000000; 1000000, 0, 0, 0)
1767598200 reserve s1 10 600 => 600 Some(1767600000) 3600 all (1000000; 0, 1000000, 0, 0)
1767600300 settle s1 10 300:before 90:after => 7 450000 450000 0 0 (1000000; 550000, 0, 450000, 0)";

/// 250,000 micro-units cover two minutes of ten. Five are used, and half their price isn't
/// collected.
const SHORT: &str = "\
1767571200 credit 4102444800 250000 => 1 (250000; 250000, 0, 0, 0)
1767607200 open s3 => opened (250000; 250000, 0, 0, 0)
1767607200 funds 10 => 250000 true (250000; 250000, 0, 0, 0)
1767607200 reserve s3 10 600 => 120 None 3600 fewer (250000; 50000, 200000, 0, 0)
1767607500 touch s3 1 => touched (250000; 50000, 200000, 0, 0)
1767607500 settle s3 10 300 => 5 500000 250000 250000 0 (250000; 0, 0, 250000, 0)
1767607500 close s3 => closed (250000; 0, 0, 250000, 0)
1767607500 session s3 => 1 Ended false (250000; 0, 0, 250000, 0)";

/// 61 of 600 seconds start two minutes, and the rest of the second is free in the next grant.
const STARTED: &str = "\
1767607200 credit 4102444800 1000000 => 1 (1000000; 1000000, 0, 0, 0)
1767607200 open s5 => opened (1000000; 1000000, 0, 0, 0)
1767607200 reserve s5 10 600 => 600 None 3600 all (1000000; 0, 1000000, 0, 0)
1767607500 settle s5 10 61 => 2 200000 200000 0 0 (1000000; 800000, 0, 200000, 0)
1767607500 reserve s5 10 600 => 539 None 3600 fewer (1000000; 0, 800000, 200000, 0)
1767607560 settle s5 10 59 => 0 0 0 0 0 (1000000; 800000, 0, 200000, 0)";

/// Two buckets are held in the order of their ends. What is given up after the first one's end is
/// expired.
const BUCKETS: &str = "\
1767607200 credit 1767607800 150000 => 1 (150000; 150000, 0, 0, 0)
1767607200 credit 4102444800 300000 => 2 (150000; 150000, 0, 0, 0) (300000; 300000, 0, 0, 0)
1767607200 open s6 => opened (150000; 150000, 0, 0, 0) (300000; 300000, 0, 0, 0)
1767607200 reserve s6 10 180 => 180 None 3600 all (150000; 0, 150000, 0, 0)
   (300000; 150000, 150000, 0, 0)
1767608100 settle s6 10 60 => 1 100000 100000 0 0 (150000; 0, 0, 100000, 50000)
   (300000; 300000, 0, 0, 0)";

/// The first 100 blocks of the month are free: 99 are granted and used, and then two more. January
/// 2026 is the 684th month after January 1969.
const MONTH: &str = "\
1767607200 credit 4102444800 50000 => 1 (50000; 50000, 0, 0, 0)
1767607200 open s7 => opened (50000; 50000, 0, 0, 0)
1767607200 reserve s7 20 103809024 => 103809024 None 3600 all (50000; 50000, 0, 0, 0)
1767607500 settle s7 20 103809024 => 99 0 0 0 0 (50000; 50000, 0, 0, 0)
1767607500 reserve s7 20 2097152 => 2097152 None 3600 all (50000; 40000, 10000, 0, 0)
1767607800 settle s7 20 2097152 => 2 10000 10000 0 0 (50000; 40000, 0, 10000, 0)
1767607800 counters of all => 20 684 101; (50000; 40000, 0, 10000, 0)";

/// 40,000 micro-units cover no minute: the request is recorded, and no session lives that could be
/// ended. Two validity times after a session's last request what it holds is given up.
const FORGOTTEN: &str = "\
1767607200 credit 4102444800 40000 => 1 (40000; 40000, 0, 0, 0)
1767607200 funds 10 => 40000 false (40000; 40000, 0, 0, 0)
1767607200 deny s12 => denied (40000; 40000, 0, 0, 0)
1767607200 session s12 => 0 NeverOpened false (40000; 40000, 0, 0, 0)
1767607260 credit 4102444800 1000000 => 2 (40000; 40000, 0, 0, 0) (1000000; 1000000, 0, 0, 0)
1767607320 open s12b => opened (40000; 40000, 0, 0, 0) (1000000; 1000000, 0, 0, 0)
1767607320 reserve s12b 10 600 => 600 None 3600 all (40000; 0, 40000, 0, 0)
   (1000000; 40000, 960000, 0, 0)
1767614519 session s12b => 0 Open true (40000; 0, 40000, 0, 0) (1000000; 40000, 960000, 0, 0)
1767614520 session s12b => 0 Open false (40000; 0, 40000, 0, 0) (1000000; 40000, 960000, 0, 0)
1767614520 funds 10 => 1040000 true (40000; 0, 40000, 0, 0) (1000000; 40000, 960000, 0, 0)
1767614520 advance to it => advanced (40000; 40000, 0, 0, 0) (1000000; 1000000, 0, 0, 0)
1767614520 session s12b => 0 Ended false (40000; 40000, 0, 0, 0) (1000000; 1000000, 0, 0, 0)";

/// Both groups are settled before the grant of one: what the other gave up is there for it.
const TWO_GROUPS: &str = "\
1767607200 credit 4102444800 500000 => 1 (500000; 500000, 0, 0, 0)
1767607200 open s17 => opened (500000; 500000, 0, 0, 0)
1767607200 reserve s17 10 180 => 180 None 3600 all (500000; 200000, 300000, 0, 0)
1767607200 reserve s17 30 2 => 2 None 3600 all (500000; 20000, 480000, 0, 0)
1767607500 settle s17 30 1 => 1 90000 90000 0 0 (500000; 110000, 300000, 90000, 0)
1767607500 settle s17 10 60 => 1 100000 100000 0 0 (500000; 310000, 0, 190000, 0)
1767607500 reserve s17 30 3 => 3 None 3600 all (500000; 40000, 270000, 190000, 0)";

/// A barred account keeps what it holds, until its session's time is over.
const BARRED: &str = "\
1767607200 credit 4102444800 1000000 => 1 (1000000; 1000000, 0, 0, 0)
1767607200 open s20 => opened (1000000; 1000000, 0, 0, 0)
1767607200 reserve s20 10 600 => 600 None 3600 all (1000000; 0, 1000000, 0, 0)
1767607260 bar on => true (1000000; 0, 1000000, 0, 0)
1767614399 bar on => true (1000000; 0, 1000000, 0, 0)
1767614400 bar off => false (1000000; 1000000, 0, 0, 0)";

/// An event of 90,000 micro-units isn't charged where 89,999 are there. With one more it is, and
/// with no more, to both buckets in their order.
const EVENTS: &str = "\
1767571200 credit 4102444800 89999 => 1 (89999; 89999, 0, 0, 0)
1767607200 quote 30 1 => 90000 (89999; 89999, 0, 0, 0)
1767607200 debit e8 30 1 => not covered (89999; 89999, 0, 0, 0)
1767607200 counters of all =>  (89999; 89999, 0, 0, 0)
1767607200 credit 4102444800 1 => 2 (89999; 89999, 0, 0, 0) (1; 1, 0, 0, 0)
1767607200 debit e8 30 1 => 1 90000 90000 0 0 (89999; 0, 0, 89999, 0) (1; 0, 0, 1, 0)
1767607200 counters of all => 30 0 1; (89999; 0, 0, 89999, 0) (1; 0, 0, 1, 0)";

/// An event is charged whole from one bucket.
const EVENT: &str = "\
1767571200 credit 4102444800 90000 => 1 (90000; 90000, 0, 0, 0)
1767607200 debit e8 30 1 => 1 90000 90000 0 0 (90000; 0, 0, 90000, 0)";

/// What is held isn't there for an event, and its charge leaves what is held. Each event starts a
/// block of its own, whatever was used before.
const BESIDE: &str = "\
1767607200 credit 4102444800 350000 => 1 (350000; 350000, 0, 0, 0)
1767607200 open s21 => opened (350000; 350000, 0, 0, 0)
1767607200 reserve s21 10 60 => 60 None 3600 all (350000; 250000, 100000, 0, 0)
1767607200 debit s21 10 1 => 1 100000 100000 0 0 (350000; 150000, 100000, 100000, 0)
1767607200 quote 10 1 => 100000 (350000; 150000, 100000, 100000, 0)
1767607200 debit s21 10 61 => not covered (350000; 150000, 100000, 100000, 0)
1767607260 settle s21 10 59 => 0 0 0 0 0 (350000; 250000, 0, 100000, 0)
1767607260 debit s21 10 61 => 2 200000 200000 0 0 (350000; 50000, 0, 300000, 0)";

/// A session uses at most 10^18 units of a group, and the greatest number of a charge is
/// 4,294,967,295.
const LIMITS: &str = "\
1767607200 open s22 => opened
1767607200 limit s22 10 0 1000000000000000000 => false
1767607200 limit s22 10 0 1000000000000000001 => true
1767607200 limit s22 10 4294967294 1 => false
1767607200 limit s22 10 4294967295 1 => true
1767607200 settle s22 30 999999999999999999 => 999999999999999999 89999999999999999910000 0
   89999999999999999910000 0
1767607200 limit s22 30 0 1 => false
1767607200 limit s22 30 0 2 => true
1767607200 limit s22 10 4294967293 1 => false
1767607200 limit s22 10 4294967294 1 => true";

/// Nights in Berlin that are halved at 02:30: 50000 micro-units a minute before it, and 100000
/// after it.
const NIGHTS: &str = r#"zone = "CET-1CEST,M3.5.0,M10.5.0/3"
currency = 978
validity = 3600
periods = ["off", "peak"]
week = [{period = "off", days = [1, 2, 3, 4, 5, 6, 7], from = "00:00", to = "02:30"},
   {period = "peak", days = [1, 2, 3, 4, 5, 6, 7], from = "02:30", to = "24:00"}]
group = [{id = 10, unit = "time", block = 60, slice = 600, max_grant = 3600, cycle = "none",
   final = "terminate", price = [{period = "off", tiers = [{price = 50000}]},
   {period = "peak", tiers = [{price = 100000}]}]}]
"#;

/// At 01:30 a grant is held at the price from 03:00 on, since 02:00 to 03:00 are skipped.
const CLOCK_PUT_AHEAD: &str = "\
1774742400 credit 4102444800 1000000 => 1 (1000000; 1000000, 0, 0, 0)
1774744200 open s1 => opened (1000000; 1000000, 0, 0, 0)
1774744200 reserve s1 10 600 => 600 Some(1774746000) 3600 all (1000000; 0, 1000000, 0, 0)
1774746060 settle s1 10 120:before 60:after => 3 200000 200000 0 0 (1000000; 800000, 0, 200000, 0)";

/// At 02:15 a grant is valid until 03:00, where 02:00 comes again with the cheaper price; then
/// another is made, and its switch is the second 02:30.
const CLOCK_PUT_BACK: &str = "\
1792886400 credit 4102444800 1000000 => 1 (1000000; 1000000, 0, 0, 0)
1792887300 open s1 => opened (1000000; 1000000, 0, 0, 0)
1792887300 reserve s1 10 600 => 600 Some(1792888200) 2700 all (1000000; 0, 1000000, 0, 0)
1792888500 settle s1 10 120:before 120:after => 4 300000 300000 0 0 (1000000; 700000, 0, 300000, 0)
1792890000 open s2 => opened (1000000; 700000, 0, 300000, 0)
1792890000 reserve s2 10 60 => 60 Some(1792891800) 3600 all (1000000; 600000, 100000, 300000, 0)
1792891860 settle s2 10 30:before 30:after => 1 50000 50000 0 0 (1000000; 650000, 0, 350000, 0)";

// rule: bucket-order, bucket-order.added-alone
#[test]
fn sessions_and_their_charges(rt: HostRuntime) {
    let scenarios = [
        SWITCH, SHORT, STARTED, BUCKETS, MONTH, FORGOTTEN, TWO_GROUPS, BARRED,
    ];
    play_all(&rt, rt.alloc(), BOOK, &scenarios);
    play_all(&rt, rt.alloc(), NIGHTS, &[CLOCK_PUT_AHEAD, CLOCK_PUT_BACK]);
}

#[test]
fn events_and_limits(rt: HostRuntime) {
    play_all(&rt, rt.alloc(), BOOK, &[EVENTS, EVENT, BESIDE, LIMITS]);
}
