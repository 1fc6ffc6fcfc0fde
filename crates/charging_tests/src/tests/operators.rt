//! Operators' commands over two accounts.

use crate::tests::scenarios::try_all;

/// Before it is opened an account can only be opened, which is refused the second time. Each
/// account numbers its buckets and keeps its references for itself.
const OPENED: &str = r##"1767571200 credit 49151 {"Amount":1000000,"Reference":"c1"}
= {"Refusal":"O2"}
1767571200 credit-nothing 49151 c1
= {"Refusal":"O2"}
1767571200 bar 49151
= {"Refusal":"O2"}
1767571200 unbar 49151
= {"Refusal":"O2"}
1767571200 {"Session-Id":"u1","CC-Request-Type":1,"CC-Request-Number":0,
  "Subscription-Id":{"Subscription-Id-Type":0,"Subscription-Id-Data":"49151"},
  "Multiple-Services-Credit-Control":[{"Rating-Group":10,"Requested-Service-Unit":{"CC-Time":60}}]}
= {"CC-Request-Number":0,"CC-Request-Type":1,"Result-Code":5030,"Session-Id":"u1"}
unchanged

1767571200 sweep
= {"Accounts":0,"Result-Code":2001}
last: 1767571200

1767571230 open 49151
= {"Result-Code":2001}
1767571260 open 49152
= {"Result-Code":2001}
1767571320 open 49151
= {"Refusal":"O1"}
last: 1767571260
account: 1767571230 false 1
49152 account: 1767571260 false 1

1767571380 credit 49151 {"Amount":1000000,"Reference":"c1"}
= {"Bucket":1,"Result-Code":2001}
1767571440 credit 49152 {"Amount":180000,"Reference":"c1","Scope":30}
= {"Bucket":1,"Result-Code":2001}
last: 1767571440
account: 1767571380 false 1
buckets: (1000000; 1000000, 0, 0, 0)
49152 account: 1767571440 false 1
49152 buckets: (180000; 180000, 0, 0, 0)"##;

/// A reference stands for one credit for good: the same again gets its first answer, another one is
/// refused. So is a credit of nothing, and one that no moment is left for.
const CREDITED: &str = r##"1767571200 open 49151
= {"Result-Code":2001}
1767571200 credit 49151 {"Amount":1000000,"Reference":"c1"}
= {"Bucket":1,"Result-Code":2001}
last: 1767571200
buckets: (1000000; 1000000, 0, 0, 0)

1767571260 credit 49151 {"Amount":1000000,"Reference":"c1"}
= {"Bucket":1,"Result-Code":2001}
1767571260 credit 49151 {"Amount":2000000,"Reference":"c1"}
= {"Refusal":"O5"}
1767571260 credit 49151 {"Amount":1000000,"Reference":"c1","Until":4102444800}
= {"Refusal":"O5"}
1767571260 credit-nothing 49151 c1
= {"Refusal":"O5"}
1767571260 credit-nothing 49151 c2
= {"Refusal":"O6"}
1767571260 credit 49151 {"Amount":5,"From":1767600000,"Reference":"c2","Until":1767600000}
= {"Refusal":"O6"}
1767571260 credit 49151 {"Amount":5,"Reference":"c2","Until":1767571260}
= {"Refusal":"O6"}
1767571260 credit 49151 {"Amount":5,"From":1767500000,"Reference":"c2","Until":1767571200}
= {"Refusal":"O6"}
unchanged

1767571320 credit 49151 {"Amount":5,"From":1767700000,"Reference":"c2","Until":1767800000}
= {"Bucket":2,"Result-Code":2001}
1767571380 credit 49151 {"Amount":7,"Reference":"c3","Until":1767571440}
= {"Bucket":3,"Result-Code":2001}
last: 1767571380
buckets: (7; 7, 0, 0, 0) (5; 5, 0, 0, 0) (1000000; 1000000, 0, 0, 0)

1767571440 credit 49151 {"Amount":7,"Reference":"c3","Until":1767571440}
= {"Bucket":3,"Result-Code":2001}
unchanged

1767571440 sweep
= {"Accounts":1,"Result-Code":2001}
last: 1767571440
buckets: (7; 0, 0, 0, 7) (5; 5, 0, 0, 0) (1000000; 1000000, 0, 0, 0)"##;

/// A barred account is denied its events, and each bar is accepted; a bucket for one rating group
/// pays no other; and no command reaches the other account but a sweep, which brings both to its
/// moment.
const BARRED: &str = r##"1767571200 open 49151
= {"Result-Code":2001}
1767571200 open 49152
= {"Result-Code":2001}
1767571200 credit 49151 {"Amount":1000000,"Reference":"c1"}
= {"Bucket":1,"Result-Code":2001}
1767571200 credit 49152 {"Amount":180000,"Reference":"c1","Scope":30}
= {"Bucket":1,"Result-Code":2001}
1767607200 bar 49151
= {"Result-Code":2001}
1767607200 {"Session-Id":"d1","CC-Request-Type":4,"CC-Request-Number":0,
  "Subscription-Id":{"Subscription-Id-Type":0,"Subscription-Id-Data":"49151"},"Requested-Action":0,
  "Multiple-Services-Credit-Control":[{"Rating-Group":30,
  "Requested-Service-Unit":{"CC-Service-Specific-Units":1}}]}
= {"CC-Request-Number":0,"CC-Request-Type":4,"Result-Code":4010,"Session-Id":"d1"}
1767607230 bar 49151
= {"Result-Code":2001}
account: 1767607230 true 1
49152 account: 1767571200 false 1

1767607260 unbar 49151
= {"Result-Code":2001}
1767607320 {"Session-Id":"d1","CC-Request-Type":4,"CC-Request-Number":0,
  "Subscription-Id":{"Subscription-Id-Type":0,"Subscription-Id-Data":"49151"},"Requested-Action":0,
  "Multiple-Services-Credit-Control":[{"Rating-Group":30,
  "Requested-Service-Unit":{"CC-Service-Specific-Units":1}}]}
= {"CC-Request-Number":0,"CC-Request-Type":4,"Result-Code":4010,"Session-Id":"d1"}
1767607320 {"Session-Id":"d2","CC-Request-Type":4,"CC-Request-Number":0,
  "Subscription-Id":{"Subscription-Id-Type":0,"Subscription-Id-Data":"49151"},"Requested-Action":0,
  "Multiple-Services-Credit-Control":[{"Rating-Group":30,
  "Requested-Service-Unit":{"CC-Service-Specific-Units":1}}]}
= {"CC-Request-Number":0,"CC-Request-Type":4,
  "Multiple-Services-Credit-Control":[{"Granted-Service-Unit":{"CC-Service-Specific-Units":1},
  "Rating-Group":30,"Result-Code":2001}],"Result-Code":2001,"Session-Id":"d2"}
account: 1767607320 false 2
buckets: (1000000; 910000, 0, 90000, 0)
counters: 30 0 1;
sessions: d1 0 1767607200 NeverOpened; d2 0 1767607320 NeverOpened;
groups: d2 30 used 1 not reserved;
charges: 1 at 1767607320 of d2 30 1 90000 90000 0;

1767607380 {"Session-Id":"x1","CC-Request-Type":1,"CC-Request-Number":0,
  "Subscription-Id":{"Subscription-Id-Type":0,"Subscription-Id-Data":"49152"},
  "Multiple-Services-Credit-Control":[{"Rating-Group":10,"Requested-Service-Unit":{"CC-Time":60}}]}
= {"CC-Request-Number":0,"CC-Request-Type":1,"Result-Code":4012,"Session-Id":"x1"}
1767607380 {"Session-Id":"e1","CC-Request-Type":4,"CC-Request-Number":0,
  "Subscription-Id":{"Subscription-Id-Type":0,"Subscription-Id-Data":"49152"},"Requested-Action":0,
  "Multiple-Services-Credit-Control":[{"Rating-Group":30,
  "Requested-Service-Unit":{"CC-Service-Specific-Units":2}}]}
= {"CC-Request-Number":0,"CC-Request-Type":4,
  "Multiple-Services-Credit-Control":[{"Granted-Service-Unit":{"CC-Service-Specific-Units":2},
  "Rating-Group":30,"Result-Code":2001}],"Result-Code":2001,"Session-Id":"e1"}
account: 1767607320 false 2
49152 account: 1767607380 false 2
49152 buckets: (180000; 0, 0, 180000, 0)
49152 counters: 30 0 2;
49152 sessions: e1 0 1767607380 NeverOpened; x1 0 1767607380 NeverOpened;
49152 charges: 1 at 1767607380 of e1 30 2 180000 180000 0;

1767607440 sweep
= {"Accounts":2,"Result-Code":2001}
last: 1767607440
account: 1767607440 false 2
49152 account: 1767607440 false 2

1767600000 bar 49152
= {"Result-Code":2001}
last: 1767607440
account: 1767607440 false 2
49152 account: 1767607440 true 2"##;

/// A credit ends at 1767607800, and a sweep at that moment brings both accounts to it.
const SWEPT: &str = r##"1767607200 sweep
= {"Accounts":0,"Result-Code":2001}
last: 1767607200
account: no such table
charges:

1767607200 open 49151
= {"Result-Code":2001}
account: 1767607200 false 1
buckets:

1767607200 credit 49151 {"Amount":150000,"Reference":"v1","Until":1767607800}
= {"Bucket":1,"Result-Code":2001}
last: 1767607200
account: 1767607200 false 1
buckets: (150000; 150000, 0, 0, 0)
49152 account: no such table

1767607200 credit 49151 {"Amount":150000,"Reference":"v1","Until":1767607800}
= {"Bucket":1,"Result-Code":2001}
1767607200 credit 49152 {"Amount":150000,"Reference":"v1","Until":1767607800}
= {"Refusal":"O2"}
unchanged

1767607200 open 49152
= {"Result-Code":2001}
1767607260 bar 49151
= {"Result-Code":2001}
account: 1767607260 true 1
buckets: (150000; 150000, 0, 0, 0)
49152 account: 1767607200 false 1
49152 buckets:

1767607800 sweep
= {"Accounts":2,"Result-Code":2001}
last: 1767607800
account: 1767607800 true 1
buckets: (150000; 0, 0, 0, 150000)"##;

// rule: open, bar, credit, runs.serves
#[test]
fn accounts_of_operators(rt: HostRuntime) {
    let alloc = rt.alloc();
    try_all(&rt, alloc, &[OPENED]);
    try_all(&rt, alloc, &[CREDITED]);
    try_all(&rt, alloc, &[BARRED]);
    try_all(&rt, alloc, &[SWEPT]);
}
