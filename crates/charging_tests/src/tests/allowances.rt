//! Allowances: blocks of one rating group that are used before money.

use crate::tests::scenarios::try_all;

/// Of five blocks three are held of the allowance and two of money; of four that are used three are
/// covered. A balance lists both buckets, each in its unit.
const MIXED: &str = r##"1767571200 open 49151
= {"Result-Code":2001}
1767571200 credit 49151 {"Amount":1000000,"Reference":"c1"}
= {"Bucket":1,"Result-Code":2001}
1767571200 allow 49151 {"Blocks":3,"Reference":"a1","Scope":10}
= {"Bucket":2,"Result-Code":2001}
1767607200 {"Session-Id":"s34","CC-Request-Type":1,"CC-Request-Number":0,
  "Subscription-Id":{"Subscription-Id-Type":0,"Subscription-Id-Data":"49151"},
  "Multiple-Services-Credit-Control":[{"Rating-Group":10,"Requested-Service-Unit":{"CC-Time":300}}]}
= {"CC-Request-Number":0,"CC-Request-Type":1,
  "Multiple-Services-Credit-Control":[{"Granted-Service-Unit":{"CC-Time":300},"Rating-Group":10,
  "Result-Code":2001,"Validity-Time":3600}],"Result-Code":2001,"Session-Id":"s34"}
buckets: (1000000; 800000, 200000, 0, 0) (3; 0, 3, 0, 0)
groups: s34 10 used 0 holds 1 200000 2 3;

1767607500 {"Session-Id":"s34","CC-Request-Type":2,"CC-Request-Number":1,
  "Subscription-Id":{"Subscription-Id-Type":0,"Subscription-Id-Data":"49151"},
  "Multiple-Services-Credit-Control":[{"Rating-Group":10,"Used-Service-Unit":[{"CC-Time":240}]}]}
= {"CC-Request-Number":1,"CC-Request-Type":2,"Multiple-Services-Credit-Control":[{"Rating-Group":10,
  "Result-Code":2001}],"Result-Code":2001,"Session-Id":"s34"}
buckets: (1000000; 900000, 0, 100000, 0) (3; 0, 0, 3, 0)
counters: 10 0 4;
charges: 1 at 1767607500 of s34 10 4 100000 100000 0 covered 3;

1767607500 balance 49151
= {"Account":"49151","Barred":false,"Buckets":[{"Available":900000,"Charged":100000,
  "Credited":1000000,"Expired":0,"From":1767571200,"Number":1,"Reserved":0,"Until":4102444800},
  {"Available":0,"Charged":3,"Credited":3,"Expired":0,"From":1767571200,"Number":2,"Reserved":0,
  "Scope":10,"Unit":"blocks","Until":4102444800}],"Moment":1767607500}
unchanged"##;

/// Two blocks until ten past ten pay two minutes of ten.
const TWO_BLOCKS: &str = r##"1767571200 open 49151
= {"Result-Code":2001}
1767571200 allow 49151 {"Blocks":2,"Reference":"a1","Scope":10,"Until":1767607800}
= {"Bucket":1,"Result-Code":2001}
1767607200 {"Session-Id":"s35","CC-Request-Type":1,"CC-Request-Number":0,
  "Subscription-Id":{"Subscription-Id-Type":0,"Subscription-Id-Data":"49151"},
  "Multiple-Services-Credit-Control":[{"Rating-Group":10,"Requested-Service-Unit":{"CC-Time":600}}]}
= {"CC-Request-Number":0,"CC-Request-Type":1,
  "Multiple-Services-Credit-Control":[{"Final-Unit-Indication":{"Final-Unit-Action":0},
  "Granted-Service-Unit":{"CC-Time":120},"Rating-Group":10,"Result-Code":2001,
  "Validity-Time":3600}],"Result-Code":2001,"Session-Id":"s35"}
buckets: (2; 0, 2, 0, 0)
groups: s35 10 used 0 holds 1 2;"##;

/// Five minutes past their end three minutes are reported: the two that are held are covered, and
/// there is no money for the third.
const BEYOND: &str = r##"1767608100 {"Session-Id":"s35","CC-Request-Type":3,"CC-Request-Number":1,
  "Subscription-Id":{"Subscription-Id-Type":0,"Subscription-Id-Data":"49151"},
  "Multiple-Services-Credit-Control":[{"Rating-Group":10,"Used-Service-Unit":[{"CC-Time":180}]}]}
= {"CC-Request-Number":1,"CC-Request-Type":3,"Multiple-Services-Credit-Control":[{"Rating-Group":10,
  "Result-Code":2001}],"Result-Code":2001,"Session-Id":"s35"}
buckets: (2; 0, 0, 2, 0)
counters: 10 0 3;
charges: 1 at 1767608100 of s35 10 3 100000 0 100000 covered 2;"##;

/// One minute is reported: what was held for the other is expired.
const WITHIN: &str = r##"1767608100 {"Session-Id":"s35","CC-Request-Type":3,"CC-Request-Number":1,
  "Subscription-Id":{"Subscription-Id-Type":0,"Subscription-Id-Data":"49151"},
  "Multiple-Services-Credit-Control":[{"Rating-Group":10,"Used-Service-Unit":[{"CC-Time":60}]}]}
= {"CC-Request-Number":1,"CC-Request-Type":3,"Multiple-Services-Credit-Control":[{"Rating-Group":10,
  "Result-Code":2001}],"Result-Code":2001,"Session-Id":"s35"}
buckets: (2; 0, 0, 1, 1)
counters: 10 0 1;
charges: 1 at 1767608100 of s35 10 1 0 0 0 covered 1;"##;

/// A reference stands for one allowance or one credit for good. What else may be wrong is reported
/// before a group that the book has not.
const REFUSED: &str = r##"1767571200 allow 49151 {"Blocks":2,"Reference":"a1","Scope":99}
= {"Refusal":"O2"}
unchanged

1767571200 open 49151
= {"Result-Code":2001}
1767571200 allow 49151 {"Blocks":2,"Reference":"a1","Scope":10}
= {"Bucket":1,"Result-Code":2001}
last: 1767571200
buckets: (2; 2, 0, 0, 0)

1767571260 allow 49151 {"Blocks":2,"Reference":"a1","Scope":10}
= {"Bucket":1,"Result-Code":2001}
1767571260 allow 49151 {"Blocks":3,"Reference":"a1","Scope":10}
= {"Refusal":"O5"}
1767571260 allow 49151 {"Blocks":2,"Reference":"a1","Scope":20}
= {"Refusal":"O5"}
1767571260 allow 49151 {"Blocks":2,"Reference":"a1","Scope":99}
= {"Refusal":"O5"}
1767571260 credit 49151 {"Amount":2,"Reference":"a1","Scope":10}
= {"Refusal":"O5"}
1767571260 allow 49151 {"Blocks":2,"Reference":"a2","Scope":99,"Until":1767571260}
= {"Refusal":"O6"}
1767571260 allow 49151 {"Blocks":2,"From":1767600000,"Reference":"a2","Scope":10,
  "Until":1767600000}
= {"Refusal":"O6"}
1767571260 allow 49151 {"Blocks":2,"Reference":"a2","Scope":99}
= {"Refusal":"O7"}
unchanged

1767571320 credit 49151 {"Amount":5,"Reference":"a2"}
= {"Bucket":2,"Result-Code":2001}
1767571380 allow 49151 {"Blocks":2,"Reference":"a2","Scope":10}
= {"Refusal":"O5"}
1767571440 allow 49151 {"Blocks":1000000000,"From":1767700000,"Reference":"a3","Scope":30,
  "Until":1767800000}
= {"Bucket":3,"Result-Code":2001}
last: 1767571440
buckets: (1000000000; 1000000000, 0, 0, 0) (2; 2, 0, 0, 0) (5; 5, 0, 0, 0)"##;

/// Events: an enquiry answers the whole price; a check and a debit ask for what no allowance
/// covers, and a debit takes the blocks first.
const EVENTS: &str = r##"1767571200 open 49151
= {"Result-Code":2001}
1767571200 credit 49151 {"Amount":90000,"Reference":"c1"}
= {"Bucket":1,"Result-Code":2001}
1767571200 allow 49151 {"Blocks":2,"Reference":"a1","Scope":30}
= {"Bucket":2,"Result-Code":2001}
buckets: (90000; 90000, 0, 0, 0) (2; 2, 0, 0, 0)

1767607200 {"Session-Id":"p1","CC-Request-Type":4,"CC-Request-Number":0,
  "Subscription-Id":{"Subscription-Id-Type":0,"Subscription-Id-Data":"49151"},"Requested-Action":3,
  "Multiple-Services-Credit-Control":[{"Rating-Group":30,
  "Requested-Service-Unit":{"CC-Service-Specific-Units":3}}]}
= {"CC-Request-Number":0,"CC-Request-Type":4,"Cost-Information":{"Currency-Code":978,
  "Unit-Value":{"Exponent":-6,"Value-Digits":270000}},"Result-Code":2001,"Session-Id":"p1"}
1767607200 {"Session-Id":"b3","CC-Request-Type":4,"CC-Request-Number":0,
  "Subscription-Id":{"Subscription-Id-Type":0,"Subscription-Id-Data":"49151"},"Requested-Action":2,
  "Multiple-Services-Credit-Control":[{"Rating-Group":30,
  "Requested-Service-Unit":{"CC-Service-Specific-Units":3}}]}
= {"CC-Request-Number":0,"CC-Request-Type":4,"Check-Balance-Result":0,"Result-Code":2001,
  "Session-Id":"b3"}
1767607200 {"Session-Id":"b4","CC-Request-Type":4,"CC-Request-Number":0,
  "Subscription-Id":{"Subscription-Id-Type":0,"Subscription-Id-Data":"49151"},"Requested-Action":2,
  "Multiple-Services-Credit-Control":[{"Rating-Group":30,
  "Requested-Service-Unit":{"CC-Service-Specific-Units":4}}]}
= {"CC-Request-Number":0,"CC-Request-Type":4,"Check-Balance-Result":1,"Result-Code":2001,
  "Session-Id":"b4"}
unchanged

1767607200 {"Session-Id":"d4","CC-Request-Type":4,"CC-Request-Number":0,
  "Subscription-Id":{"Subscription-Id-Type":0,"Subscription-Id-Data":"49151"},"Requested-Action":0,
  "Multiple-Services-Credit-Control":[{"Rating-Group":30,
  "Requested-Service-Unit":{"CC-Service-Specific-Units":4}}]}
= {"CC-Request-Number":0,"CC-Request-Type":4,"Result-Code":4012,"Session-Id":"d4"}
buckets: (90000; 90000, 0, 0, 0) (2; 2, 0, 0, 0)

1767607260 {"Session-Id":"d3","CC-Request-Type":4,"CC-Request-Number":0,
  "Subscription-Id":{"Subscription-Id-Type":0,"Subscription-Id-Data":"49151"},"Requested-Action":0,
  "Multiple-Services-Credit-Control":[{"Rating-Group":30,
  "Requested-Service-Unit":{"CC-Service-Specific-Units":3}}]}
= {"CC-Request-Number":0,"CC-Request-Type":4,
  "Multiple-Services-Credit-Control":[{"Granted-Service-Unit":{"CC-Service-Specific-Units":3},
  "Rating-Group":30,"Result-Code":2001}],"Result-Code":2001,"Session-Id":"d3"}
buckets: (90000; 0, 0, 90000, 0) (2; 0, 0, 2, 0)
counters: 30 0 3;
charges: 1 at 1767607260 of d3 30 3 90000 90000 0 covered 2;"##;

#[test]
fn blocks_are_used_before_money(rt: HostRuntime) {
    let alloc = rt.alloc();
    try_all(&rt, alloc, &[MIXED]);
    try_all(&rt, alloc, &[TWO_BLOCKS, BEYOND]);
    try_all(&rt, alloc, &[TWO_BLOCKS, WITHIN]);
    try_all(&rt, alloc, &[REFUSED]);
    try_all(&rt, alloc, &[EVENTS]);
}
