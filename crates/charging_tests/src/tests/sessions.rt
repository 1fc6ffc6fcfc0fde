//! Sessions: grants, reports and their settlement.

use crate::tests::scenarios::{try_all, try_over};

/// A grant at 07:30 is held at the price from 08:00 on. Five minutes are used before the switch,
/// and two begun after it.
const SWITCH: &str = r##"1767571200 open 49151
= {"Result-Code":2001}
1767571200 credit 49151 {"Amount":1000000,"Reference":"c1"}
= {"Bucket":1,"Result-Code":2001}
1767598200 {"Session-Id":"s1","CC-Request-Type":1,"CC-Request-Number":0,
  "Subscription-Id":{"Subscription-Id-Type":0,"Subscription-Id-Data":"49151"},
  "Multiple-Services-Credit-Control":[{"Rating-Group":10,"Requested-Service-Unit":{"CC-Time":600}}]}
= {"CC-Request-Number":0,"CC-Request-Type":1,
  "Multiple-Services-Credit-Control":[{"Granted-Service-Unit":{"CC-Time":600,
  "Tariff-Time-Change":1767600000},"Rating-Group":10,"Result-Code":2001,"Validity-Time":3600}],
  "Result-Code":2001,"Session-Id":"s1"}
last: 1767598200
buckets: (1000000; 0, 1000000, 0, 0)
counters:
charges:

1767600300 {"Session-Id":"s1","CC-Request-Type":2,"CC-Request-Number":1,
  "Subscription-Id":{"Subscription-Id-Type":0,"Subscription-Id-Data":"49151"},
  "Multiple-Services-Credit-Control":[{"Rating-Group":10,"Used-Service-Unit":[{"CC-Time":300,
  "Tariff-Change-Usage":0},{"CC-Time":90,"Tariff-Change-Usage":1}]}]}
= {"CC-Request-Number":1,"CC-Request-Type":2,"Multiple-Services-Credit-Control":[{"Rating-Group":10,
  "Result-Code":2001}],"Result-Code":2001,"Session-Id":"s1"}
buckets: (1000000; 550000, 0, 450000, 0)
counters: 10 0 7;
charges: 1 at 1767600300 of s1 10 7 450000 450000 0;"##;

/// 250,000 micro-units cover two minutes of ten. Five are used, and half their price isn't
/// collected.
const SHORT: &str = r##"1767571200 open 49151
= {"Result-Code":2001}
1767571200 credit 49151 {"Amount":250000,"Reference":"c1"}
= {"Bucket":1,"Result-Code":2001}
1767607200 {"Session-Id":"s3","CC-Request-Type":1,"CC-Request-Number":0,
  "Subscription-Id":{"Subscription-Id-Type":0,"Subscription-Id-Data":"49151"},
  "Multiple-Services-Credit-Control":[{"Rating-Group":10,"Requested-Service-Unit":{"CC-Time":600}}]}
= {"CC-Request-Number":0,"CC-Request-Type":1,
  "Multiple-Services-Credit-Control":[{"Final-Unit-Indication":{"Final-Unit-Action":0},
  "Granted-Service-Unit":{"CC-Time":120},"Rating-Group":10,"Result-Code":2001,
  "Validity-Time":3600}],"Result-Code":2001,"Session-Id":"s3"}
buckets: (250000; 50000, 200000, 0, 0)
sessions: s3 0 1767607200 Open;
groups: s3 10 used 0 holds 1 200000;

1767607500 {"Session-Id":"s3","CC-Request-Type":3,"CC-Request-Number":1,
  "Subscription-Id":{"Subscription-Id-Type":0,"Subscription-Id-Data":"49151"},
  "Multiple-Services-Credit-Control":[{"Rating-Group":10,"Used-Service-Unit":[{"CC-Time":300}]}]}
= {"CC-Request-Number":1,"CC-Request-Type":3,"Multiple-Services-Credit-Control":[{"Rating-Group":10,
  "Result-Code":2001}],"Result-Code":2001,"Session-Id":"s3"}
last: 1767607500
buckets: (250000; 0, 0, 250000, 0)
counters: 10 0 5;
sessions: s3 1 1767607500 Ended;
groups: s3 10 used 300 not reserved;
charges: 1 at 1767607500 of s3 10 5 500000 250000 250000;"##;

/// 61 of 600 seconds start two minutes, and the rest of the second is free in the next grant.
const STARTED: &str = r##"1767571200 open 49151
= {"Result-Code":2001}
1767571200 credit 49151 {"Amount":1000000,"Reference":"c1"}
= {"Bucket":1,"Result-Code":2001}
1767607200 {"Session-Id":"s5","CC-Request-Type":1,"CC-Request-Number":0,
  "Subscription-Id":{"Subscription-Id-Type":0,"Subscription-Id-Data":"49151"},
  "Multiple-Services-Credit-Control":[{"Rating-Group":10,"Requested-Service-Unit":{"CC-Time":600}}]}
= {"CC-Request-Number":0,"CC-Request-Type":1,
  "Multiple-Services-Credit-Control":[{"Granted-Service-Unit":{"CC-Time":600},"Rating-Group":10,
  "Result-Code":2001,"Validity-Time":3600}],"Result-Code":2001,"Session-Id":"s5"}
buckets: (1000000; 0, 1000000, 0, 0)

1767607500 {"Session-Id":"s5","CC-Request-Type":2,"CC-Request-Number":1,
  "Subscription-Id":{"Subscription-Id-Type":0,"Subscription-Id-Data":"49151"},
  "Multiple-Services-Credit-Control":[{"Rating-Group":10,"Requested-Service-Unit":{"CC-Time":600},
  "Used-Service-Unit":[{"CC-Time":61}]}]}
= {"CC-Request-Number":1,"CC-Request-Type":2,
  "Multiple-Services-Credit-Control":[{"Final-Unit-Indication":{"Final-Unit-Action":0},
  "Granted-Service-Unit":{"CC-Time":539},"Rating-Group":10,"Result-Code":2001,
  "Validity-Time":3600}],"Result-Code":2001,"Session-Id":"s5"}
buckets: (1000000; 0, 800000, 200000, 0)
charges: 1 at 1767607500 of s5 10 2 200000 200000 0;

1767607560 {"Session-Id":"s5","CC-Request-Type":2,"CC-Request-Number":2,
  "Subscription-Id":{"Subscription-Id-Type":0,"Subscription-Id-Data":"49151"},
  "Multiple-Services-Credit-Control":[{"Rating-Group":10,"Used-Service-Unit":[{"CC-Time":59}]}]}
= {"CC-Request-Number":2,"CC-Request-Type":2,"Multiple-Services-Credit-Control":[{"Rating-Group":10,
  "Result-Code":2001}],"Result-Code":2001,"Session-Id":"s5"}
buckets: (1000000; 800000, 0, 200000, 0)
counters: 10 0 2;
charges: 1 at 1767607500 of s5 10 2 200000 200000 0; 2 at 1767607560 of s5 10 0 0 0 0;"##;

/// The first hundred blocks of a month are free: 99 are used, and then one that is free and one
/// that isn't.
const FREE: &str = r##"1767571200 open 49151
= {"Result-Code":2001}
1767571200 credit 49151 {"Amount":50000,"Reference":"c1"}
= {"Bucket":1,"Result-Code":2001}
1767607200 {"Session-Id":"s7","CC-Request-Type":1,"CC-Request-Number":0,
  "Subscription-Id":{"Subscription-Id-Type":0,"Subscription-Id-Data":"49151"},
  "Multiple-Services-Credit-Control":[{"Rating-Group":20,
  "Requested-Service-Unit":{"CC-Total-Octets":103809024}}]}
= {"CC-Request-Number":0,"CC-Request-Type":1,
  "Multiple-Services-Credit-Control":[{"Granted-Service-Unit":{"CC-Total-Octets":103809024},
  "Rating-Group":20,"Result-Code":2001,"Validity-Time":3600}],"Result-Code":2001,"Session-Id":"s7"}
buckets: (50000; 50000, 0, 0, 0)
counters:

1767607500 {"Session-Id":"s7","CC-Request-Type":2,"CC-Request-Number":1,
  "Subscription-Id":{"Subscription-Id-Type":0,"Subscription-Id-Data":"49151"},
  "Multiple-Services-Credit-Control":[{"Rating-Group":20,
  "Requested-Service-Unit":{"CC-Total-Octets":2097152},
  "Used-Service-Unit":[{"CC-Total-Octets":103809024}]}]}
= {"CC-Request-Number":1,"CC-Request-Type":2,
  "Multiple-Services-Credit-Control":[{"Granted-Service-Unit":{"CC-Total-Octets":2097152},
  "Rating-Group":20,"Result-Code":2001,"Validity-Time":3600}],"Result-Code":2001,"Session-Id":"s7"}
buckets: (50000; 40000, 10000, 0, 0)
counters: 20 684 99;
charges: 1 at 1767607500 of s7 20 99 0 0 0;

1767607560 {"Session-Id":"s7","CC-Request-Type":2,"CC-Request-Number":2,
  "Subscription-Id":{"Subscription-Id-Type":0,"Subscription-Id-Data":"49151"},
  "Multiple-Services-Credit-Control":[{"Rating-Group":20,
  "Used-Service-Unit":[{"CC-Total-Octets":2097152}]}]}
= {"CC-Request-Number":2,"CC-Request-Type":2,"Multiple-Services-Credit-Control":[{"Rating-Group":20,
  "Result-Code":2001}],"Result-Code":2001,"Session-Id":"s7"}
buckets: (50000; 40000, 0, 10000, 0)
counters: 20 684 101;"##;

/// Both groups of a session are settled before three events are granted.
const GROUPS: &str = r##"1767571200 open 49151
= {"Result-Code":2001}
1767571200 credit 49151 {"Amount":500000,"Reference":"c1"}
= {"Bucket":1,"Result-Code":2001}
1767607200 {"Session-Id":"s17","CC-Request-Type":1,"CC-Request-Number":0,
  "Subscription-Id":{"Subscription-Id-Type":0,"Subscription-Id-Data":"49151"},
  "Multiple-Services-Credit-Control":[{"Rating-Group":10,"Requested-Service-Unit":{"CC-Time":180}},
  {"Rating-Group":30,"Requested-Service-Unit":{"CC-Service-Specific-Units":2}}]}
= {"CC-Request-Number":0,"CC-Request-Type":1,
  "Multiple-Services-Credit-Control":[{"Granted-Service-Unit":{"CC-Time":180},"Rating-Group":10,
  "Result-Code":2001,"Validity-Time":3600},{"Granted-Service-Unit":{"CC-Service-Specific-Units":2},
  "Rating-Group":30,"Result-Code":2001,"Validity-Time":3600}],"Result-Code":2001,"Session-Id":"s17"}
buckets: (500000; 20000, 480000, 0, 0)

1767607500 {"Session-Id":"s17","CC-Request-Type":2,"CC-Request-Number":1,
  "Subscription-Id":{"Subscription-Id-Type":0,"Subscription-Id-Data":"49151"},
  "Multiple-Services-Credit-Control":[{"Rating-Group":30,
  "Requested-Service-Unit":{"CC-Service-Specific-Units":3},
  "Used-Service-Unit":[{"CC-Service-Specific-Units":1}]},{"Rating-Group":10,
  "Used-Service-Unit":[{"CC-Time":60}]}]}
= {"CC-Request-Number":1,"CC-Request-Type":2,
  "Multiple-Services-Credit-Control":[{"Granted-Service-Unit":{"CC-Service-Specific-Units":3},
  "Rating-Group":30,"Result-Code":2001,"Validity-Time":3600},{"Rating-Group":10,
  "Result-Code":2001}],"Result-Code":2001,"Session-Id":"s17"}
buckets: (500000; 40000, 270000, 190000, 0)
charges: 1 at 1767607500 of s17 30 1 90000 90000 0; 2 at 1767607500 of s17 10 1 100000 100000 0;"##;

/// A report of more than 10^9 blocks is refused; one of 10^9 blocks is rated whole, collected as
/// far as there is money.
const LARGE: &str = r##"1767571200 open 49151
= {"Result-Code":2001}
1767571200 credit 49151 {"Amount":90000,"Reference":"c1"}
= {"Bucket":1,"Result-Code":2001}
1767607200 {"Session-Id":"s16","CC-Request-Type":1,"CC-Request-Number":0,
  "Subscription-Id":{"Subscription-Id-Type":0,"Subscription-Id-Data":"49151"},
  "Multiple-Services-Credit-Control":[{"Rating-Group":30,
  "Requested-Service-Unit":{"CC-Service-Specific-Units":1}}]}
= {"CC-Request-Number":0,"CC-Request-Type":1,
  "Multiple-Services-Credit-Control":[{"Granted-Service-Unit":{"CC-Service-Specific-Units":1},
  "Rating-Group":30,"Result-Code":2001,"Validity-Time":3600}],"Result-Code":2001,"Session-Id":"s16"}
buckets: (90000; 0, 90000, 0, 0)

1767607260 {"Session-Id":"s16","CC-Request-Type":2,"CC-Request-Number":1,
  "Subscription-Id":{"Subscription-Id-Type":0,"Subscription-Id-Data":"49151"},
  "Multiple-Services-Credit-Control":[{"Rating-Group":30,
  "Used-Service-Unit":[{"CC-Service-Specific-Units":1000000001}]}]}
= {"CC-Request-Number":1,"CC-Request-Type":2,"Failed-AVP":"Used-Service-Unit","Result-Code":5004,
  "Session-Id":"s16"}
unchanged

1767607320 {"Session-Id":"s16","CC-Request-Type":2,"CC-Request-Number":1,
  "Subscription-Id":{"Subscription-Id-Type":0,"Subscription-Id-Data":"49151"},
  "Multiple-Services-Credit-Control":[{"Rating-Group":30,
  "Used-Service-Unit":[{"CC-Service-Specific-Units":1000000000}]}]}
= {"CC-Request-Number":1,"CC-Request-Type":2,"Multiple-Services-Credit-Control":[{"Rating-Group":30,
  "Result-Code":2001}],"Result-Code":2001,"Session-Id":"s16"}
buckets: (90000; 0, 0, 90000, 0)
counters: 30 0 1000000000;
charges: 1 at 1767607320 of s16 30 1000000000 90000000000000 90000 89999999910000;"##;

/// Two reports of two groups each: an account's charges are in the order in which they were made,
/// whatever comes between them and after them. Of the other account there are none.
const NUMBERED: &str = r##"1767607200 open 49151
= {"Result-Code":2001}
1767607200 open 49152
= {"Result-Code":2001}
1767607200 credit 49151 {"Amount":1000000,"Reference":"c1"}
= {"Bucket":1,"Result-Code":2001}
1767607200 {"Session-Id":"s1","CC-Request-Type":1,"CC-Request-Number":0,
  "Subscription-Id":{"Subscription-Id-Type":0,"Subscription-Id-Data":"49151"},
  "Multiple-Services-Credit-Control":[{"Rating-Group":10,"Requested-Service-Unit":{"CC-Time":120}},
  {"Rating-Group":30,"Requested-Service-Unit":{"CC-Service-Specific-Units":2}}]}
= {"CC-Request-Number":0,"CC-Request-Type":1,
  "Multiple-Services-Credit-Control":[{"Granted-Service-Unit":{"CC-Time":120},"Rating-Group":10,
  "Result-Code":2001,"Validity-Time":3600},{"Granted-Service-Unit":{"CC-Service-Specific-Units":2},
  "Rating-Group":30,"Result-Code":2001,"Validity-Time":3600}],"Result-Code":2001,"Session-Id":"s1"}
buckets: (1000000; 620000, 380000, 0, 0)
charges:

1767607200 {"Session-Id":"s1","CC-Request-Type":2,"CC-Request-Number":1,
  "Subscription-Id":{"Subscription-Id-Type":0,"Subscription-Id-Data":"49151"},
  "Multiple-Services-Credit-Control":[{"Rating-Group":10,"Requested-Service-Unit":{"CC-Time":60},
  "Used-Service-Unit":[{"CC-Time":60}]},{"Rating-Group":30,
  "Requested-Service-Unit":{"CC-Service-Specific-Units":1},
  "Used-Service-Unit":[{"CC-Service-Specific-Units":1}]}]}
= {"CC-Request-Number":1,"CC-Request-Type":2,
  "Multiple-Services-Credit-Control":[{"Granted-Service-Unit":{"CC-Time":60},"Rating-Group":10,
  "Result-Code":2001,"Validity-Time":3600},{"Granted-Service-Unit":{"CC-Service-Specific-Units":1},
  "Rating-Group":30,"Result-Code":2001,"Validity-Time":3600}],"Result-Code":2001,"Session-Id":"s1"}
buckets: (1000000; 620000, 190000, 190000, 0)
charges: 1 at 1767607200 of s1 10 1 100000 100000 0; 2 at 1767607200 of s1 30 1 90000 90000 0;

1767607200 credit 49151 {"Amount":150000,"Reference":"v1","Until":1767607800}
= {"Bucket":2,"Result-Code":2001}
charges: 1 at 1767607200 of s1 10 1 100000 100000 0; 2 at 1767607200 of s1 30 1 90000 90000 0;

1767607200 {"Session-Id":"s1","CC-Request-Type":2,"CC-Request-Number":2,
  "Subscription-Id":{"Subscription-Id-Type":0,"Subscription-Id-Data":"49153"},
  "Multiple-Services-Credit-Control":[{"Rating-Group":10,"Used-Service-Unit":[{"CC-Time":60}]}]}
= {"CC-Request-Number":2,"CC-Request-Type":2,"Result-Code":5030,"Session-Id":"s1"}
unchanged

1767607260 {"Session-Id":"s1","CC-Request-Type":3,"CC-Request-Number":2,
  "Subscription-Id":{"Subscription-Id-Type":0,"Subscription-Id-Data":"49151"},
  "Multiple-Services-Credit-Control":[{"Rating-Group":10,"Used-Service-Unit":[{"CC-Time":60}]},
  {"Rating-Group":30,"Used-Service-Unit":[{"CC-Service-Specific-Units":1}]}]}
= {"CC-Request-Number":2,"CC-Request-Type":3,"Multiple-Services-Credit-Control":[{"Rating-Group":10,
  "Result-Code":2001},{"Rating-Group":30,"Result-Code":2001}],"Result-Code":2001,"Session-Id":"s1"}
buckets: (150000; 150000, 0, 0, 0) (1000000; 620000, 0, 380000, 0)

1767607800 sweep
= {"Accounts":2,"Result-Code":2001}
buckets: (150000; 0, 0, 0, 150000) (1000000; 620000, 0, 380000, 0)
charges: 1 at 1767607200 of s1 10 1 100000 100000 0; 2 at 1767607200 of s1 30 1 90000 90000 0;
   3 at 1767607260 of s1 10 1 100000 100000 0; 4 at 1767607260 of s1 30 1 90000 90000 0;
49152 charges:"##;

/// From Tuesday 00:00 on minutes cost more.
const TUESDAY: &str = "\
1767657600 price = 50000 -> price = 60000 & price = 100000 -> price = 120000";

/// A grant of five minutes before it is settled at 50,000 each, the next one held and settled at
/// 60,000. Midnight is no switch, and a sweep at it changes nothing.
const LATER_BOOK: &str = r##"1767571200 open 49151
= {"Result-Code":2001}
1767571200 credit 49151 {"Amount":1000000,"Reference":"c1"}
= {"Bucket":1,"Result-Code":2001}
1767657300 {"Session-Id":"s32","CC-Request-Type":1,"CC-Request-Number":0,
  "Subscription-Id":{"Subscription-Id-Type":0,"Subscription-Id-Data":"49151"},
  "Multiple-Services-Credit-Control":[{"Rating-Group":10,"Requested-Service-Unit":{"CC-Time":300}}]}
= {"CC-Request-Number":0,"CC-Request-Type":1,
  "Multiple-Services-Credit-Control":[{"Granted-Service-Unit":{"CC-Time":300},"Rating-Group":10,
  "Result-Code":2001,"Validity-Time":3600}],"Result-Code":2001,"Session-Id":"s32"}
buckets: (1000000; 750000, 250000, 0, 0)

1767657600 sweep
= {"Accounts":1,"Result-Code":2001}
last: 1767657600
buckets: (1000000; 750000, 250000, 0, 0)

1767657660 {"Session-Id":"s32","CC-Request-Type":2,"CC-Request-Number":1,
  "Subscription-Id":{"Subscription-Id-Type":0,"Subscription-Id-Data":"49151"},
  "Multiple-Services-Credit-Control":[{"Rating-Group":10,"Requested-Service-Unit":{"CC-Time":300},
  "Used-Service-Unit":[{"CC-Time":300}]}]}
= {"CC-Request-Number":1,"CC-Request-Type":2,
  "Multiple-Services-Credit-Control":[{"Granted-Service-Unit":{"CC-Time":300},"Rating-Group":10,
  "Result-Code":2001,"Validity-Time":3600}],"Result-Code":2001,"Session-Id":"s32"}
buckets: (1000000; 450000, 300000, 250000, 0)

1767657700 {"Session-Id":"s32","CC-Request-Type":3,"CC-Request-Number":2,
  "Subscription-Id":{"Subscription-Id-Type":0,"Subscription-Id-Data":"49151"},
  "Multiple-Services-Credit-Control":[{"Rating-Group":10,"Used-Service-Unit":[{"CC-Time":300}]}]}
= {"CC-Request-Number":2,"CC-Request-Type":3,"Multiple-Services-Credit-Control":[{"Rating-Group":10,
  "Result-Code":2001}],"Result-Code":2001,"Session-Id":"s32"}
buckets: (1000000; 450000, 0, 550000, 0)
charges: 1 at 1767657660 of s32 10 5 250000 250000 0;
   2 at 1767657700 of s32 10 5 300000 300000 0;"##;

/// From Tuesday 00:00 on there is a group of events in blocks of two, at five micro-units.
const MORE_GROUPS: &str = r##"1767657600 id = 30 -> id = 40|unit = "events"|block = 2|slice = 2|
  max_grant = 20|cycle = "none"|final = "terminate"|price = [{period = "off",
   tiers = [{price = 5}]}, {period = "peak", tiers = [{price = 5}]}]|[[group]]|id = 30"##;

/// A second before it the group is unknown, which denies the session for good; from then on the
/// group is granted and charged.
const NEW_GROUP: &str = r##"1767571200 open 49151
= {"Result-Code":2001}
1767571200 credit 49151 {"Amount":100,"Reference":"c1"}
= {"Bucket":1,"Result-Code":2001}
1767657599 {"Session-Id":"s40","CC-Request-Type":1,"CC-Request-Number":0,
  "Subscription-Id":{"Subscription-Id-Type":0,"Subscription-Id-Data":"49151"},
  "Multiple-Services-Credit-Control":[{"Rating-Group":40,
  "Requested-Service-Unit":{"CC-Service-Specific-Units":7}}]}
= {"CC-Request-Number":0,"CC-Request-Type":1,"Result-Code":5031,"Session-Id":"s40"}
buckets: (100; 100, 0, 0, 0)
sessions: s40 0 1767657599 NeverOpened;

1767657600 {"Session-Id":"s40","CC-Request-Type":1,"CC-Request-Number":0,
  "Subscription-Id":{"Subscription-Id-Type":0,"Subscription-Id-Data":"49151"},
  "Multiple-Services-Credit-Control":[{"Rating-Group":40,
  "Requested-Service-Unit":{"CC-Service-Specific-Units":7}}]}
= {"CC-Request-Number":0,"CC-Request-Type":1,"Result-Code":5031,"Session-Id":"s40"}
unchanged

1767657600 {"Session-Id":"s41","CC-Request-Type":1,"CC-Request-Number":0,
  "Subscription-Id":{"Subscription-Id-Type":0,"Subscription-Id-Data":"49151"},
  "Multiple-Services-Credit-Control":[{"Rating-Group":40,
  "Requested-Service-Unit":{"CC-Service-Specific-Units":7}}]}
= {"CC-Request-Number":0,"CC-Request-Type":1,
  "Multiple-Services-Credit-Control":[{"Granted-Service-Unit":{"CC-Service-Specific-Units":7},
  "Rating-Group":40,"Result-Code":2001,"Validity-Time":3600}],"Result-Code":2001,"Session-Id":"s41"}
buckets: (100; 80, 20, 0, 0)

1767657660 {"Session-Id":"s41","CC-Request-Type":3,"CC-Request-Number":1,
  "Subscription-Id":{"Subscription-Id-Type":0,"Subscription-Id-Data":"49151"},
  "Multiple-Services-Credit-Control":[{"Rating-Group":40,
  "Used-Service-Unit":[{"CC-Service-Specific-Units":5}]}]}
= {"CC-Request-Number":1,"CC-Request-Type":3,"Multiple-Services-Credit-Control":[{"Rating-Group":40,
  "Result-Code":2001}],"Result-Code":2001,"Session-Id":"s41"}
buckets: (100; 85, 0, 15, 0)
counters: 40 0 3;
charges: 1 at 1767657660 of s41 40 3 15 15 0;"##;

// rule: holds.held, block-limit, initial.opened-by-grants
#[test]
fn grants_and_settlements(rt: HostRuntime) {
    let alloc = rt.alloc();
    try_all(&rt, alloc, &[SWITCH]);
    try_all(&rt, alloc, &[SHORT]);
    try_all(&rt, alloc, &[STARTED]);
    try_all(&rt, alloc, &[FREE]);
    try_all(&rt, alloc, &[GROUPS]);
    try_all(&rt, alloc, &[LARGE]);
    try_all(&rt, alloc, &[NUMBERED]);
    try_over(&rt, alloc, TUESDAY, &[LATER_BOOK]);
    try_over(&rt, alloc, MORE_GROUPS, &[NEW_GROUP]);
}
