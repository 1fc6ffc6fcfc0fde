//! Vouchers that are added and redeemed. Days end by the worked book, in UTC.

use crate::tests::scenarios::try_all;

/// Three vouchers; the first, of 30 days, is redeemed on 2026-01-05 at 10:00, so that its bucket
/// ends with 2026-02-04. The same redemption again gets its first answer, and nobody else the
/// voucher.
const REDEEMED: &str = r##"1767571200 add 000000000001 5000000 30 -
= {"Result-Code":2001}
1767571200 add 000000000002 10000000 90 -
= {"Result-Code":2001}
1767571200 add 000000000003 1000000 7 20
= {"Result-Code":2001}
1767571200 open 49151
= {"Result-Code":2001}
1767571200 open 49152
= {"Result-Code":2001}
last: 1767571200
voucher 000000000001: unspent
voucher 000000000003: unspent

1767607200 redeem 49151 000000000001 v1
= {"Bucket":1,"Result-Code":2001}
last: 1767607200
voucher 000000000001: 49151
voucher 000000000002: unspent
account: 1767607200 false 1
buckets: (5000000; 5000000, 0, 0, 0)

1767607260 redeem 49151 000000000001 v1
= {"Bucket":1,"Result-Code":2001}
1767607260 redeem 49152 000000000001 v1
= {"Refusal":"O4"}
1767607260 redeem 49151 000000000001 v2
= {"Refusal":"O4"}
unchanged

1767607260 balance 49151
= {"Account":"49151","Barred":false,"Buckets":[{"Available":5000000,"Charged":0,
  "Credited":5000000,"Expired":0,"From":1767607200,"Number":1,"Reserved":0,"Until":1770249600}],
  "Moment":1767607260}
unchanged

1767607320 redeem 49151 000000000003 v3
= {"Bucket":2,"Result-Code":2001}
voucher 000000000003: 49151
buckets: (1000000; 1000000, 0, 0, 0) (5000000; 5000000, 0, 0, 0)"##;

/// The refusals: no such account, no such voucher, a spent one, a reference that was used with
/// other content, be it of a credit. A kept answer goes before what the voucher is now. A refused
/// redemption leaves its reference free.
const REFUSED: &str = r##"1767571200 add 000000000001 5 30 -
= {"Result-Code":2001}
1767571200 redeem 49151 000000000001 v1
= {"Refusal":"O2"}
1767571200 redeem 49151 000000000002 v1
= {"Refusal":"O2"}
voucher 000000000001: unspent

1767571200 open 49151
= {"Result-Code":2001}
1767571260 redeem 49151 000000000002 v1
= {"Refusal":"O3"}
1767571260 credit 49151 {"Amount":7,"Reference":"c1"}
= {"Bucket":1,"Result-Code":2001}
1767571320 redeem 49151 000000000001 c1
= {"Refusal":"O5"}
voucher 000000000001: unspent
buckets: (7; 7, 0, 0, 0)

1767571380 redeem 49151 000000000001 v1
= {"Bucket":2,"Result-Code":2001}
1767571380 redeem 49151 000000000002 v1
= {"Refusal":"O5"}
1767571380 credit 49151 {"Amount":7,"Reference":"v1"}
= {"Refusal":"O5"}
1767571380 redeem 49151 000000000001 v1
= {"Bucket":2,"Result-Code":2001}
last: 1767571380
buckets: (5; 5, 0, 0, 0) (7; 7, 0, 0, 0)"##;

/// A voucher that is added again with the same terms changes nothing, spent or not, and one of
/// other terms is refused. Adding a voucher moves no account, and the next command has its moment.
const ADDED: &str = r##"1767571200 open 49151
= {"Result-Code":2001}
1767571260 add 000000000001 5 30 -
= {"Result-Code":2001}
last: 1767571260
account: 1767571200 false 1
voucher 000000000001: unspent

1767571320 add 000000000001 5 30 -
= {"Result-Code":2001}
1767571320 add 000000000001 5 31 -
= {"Refusal":"O5"}
1767571320 add 000000000001 5 30 10
= {"Refusal":"O5"}
1767571320 add 000000000001 6 30 -
= {"Refusal":"O5"}
1767571320 add 000000000001 5 - -
= {"Refusal":"O5"}
unchanged

1767571200 redeem 49151 000000000001 v1
= {"Bucket":1,"Result-Code":2001}
last: 1767571260
account: 1767571260 false 1
voucher 000000000001: 49151

1767571320 add 000000000001 5 30 -
= {"Result-Code":2001}
1767571320 add 000000000001 5 31 -
= {"Refusal":"O5"}
unchanged"##;

/// Days that end at 4,102,444,800 or later are past the last moment, and the voucher isn't spent;
/// one without days has no end.
const LATE: &str = r##"1767571200 open 49151
= {"Result-Code":2001}
1767571200 add 000000000001 5 1 -
= {"Result-Code":2001}
1767571200 add 000000000002 6 - -
= {"Result-Code":2001}
1767571200 add 000000000003 7 30 -
= {"Result-Code":2001}
4102271999 redeem 49151 000000000001 v1
= {"Bucket":1,"Result-Code":2001}
4102444799 redeem 49151 000000000003 v3
= {"Refusal":"O6"}
4102444799 redeem 49151 000000000002 v2
= {"Bucket":2,"Result-Code":2001}
last: 4102444799
voucher 000000000003: unspent

4102444799 balance 49151
= {"Account":"49151","Barred":false,"Buckets":[{"Available":0,"Charged":0,"Credited":5,
  "Expired":5,"From":4102271999,"Number":1,"Reserved":0,"Until":4102358400},{"Available":6,
  "Charged":0,"Credited":6,"Expired":0,"From":4102444799,"Number":2,"Reserved":0,
  "Until":4102444800}],"Moment":4102444799}
unchanged"##;

// rule: voucher-add.addition-outcome, redeemed-once, redeemed-once.redemption-count,
//   redeemed-once.voucher-commands
#[test]
fn vouchers_are_added_and_redeemed(rt: HostRuntime) {
    let alloc = rt.alloc();
    try_all(&rt, alloc, &[REDEEMED]);
    try_all(&rt, alloc, &[REFUSED]);
    try_all(&rt, alloc, &[ADDED]);
    try_all(&rt, alloc, &[LATE]);
}
