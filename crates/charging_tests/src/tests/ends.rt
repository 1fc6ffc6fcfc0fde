//! Ends of buckets and of sessions, and sweeps.

use crate::tests::scenarios::try_all;

const OPENED: &str = r##"1767571200 open 49151
= {"Result-Code":2001}"##;

/// A grant is held by two buckets.
pub(crate) const HELD_BY_TWO: &str =
    r##"1767571200 credit 49151 {"Amount":150000,"Reference":"c1","Until":1767607800}
= {"Bucket":1,"Result-Code":2001}
1767571200 credit 49151 {"Amount":300000,"Reference":"c2"}
= {"Bucket":2,"Result-Code":2001}
1767607200 {"Session-Id":"s6","CC-Request-Type":1,"CC-Request-Number":0,
  "Subscription-Id":{"Subscription-Id-Type":0,"Subscription-Id-Data":"49151"},
  "Multiple-Services-Credit-Control":[{"Rating-Group":10,"Requested-Service-Unit":{"CC-Time":180}}]}
= {"CC-Request-Number":0,"CC-Request-Type":1,
  "Multiple-Services-Credit-Control":[{"Granted-Service-Unit":{"CC-Time":180},"Rating-Group":10,
  "Result-Code":2001,"Validity-Time":3600}],"Result-Code":2001,"Session-Id":"s6"}
buckets: (150000; 0, 150000, 0, 0) (300000; 150000, 150000, 0, 0)"##;

/// The first ends; what a session holds of it pays, and the rest of it is expired.
const ENDED: &str = r##"1767608100 {"Session-Id":"s6","CC-Request-Type":2,"CC-Request-Number":1,
  "Subscription-Id":{"Subscription-Id-Type":0,"Subscription-Id-Data":"49151"},
  "Multiple-Services-Credit-Control":[{"Rating-Group":10,"Used-Service-Unit":[{"CC-Time":60}]}]}
= {"CC-Request-Number":1,"CC-Request-Type":2,"Multiple-Services-Credit-Control":[{"Rating-Group":10,
  "Result-Code":2001}],"Result-Code":2001,"Session-Id":"s6"}
buckets: (150000; 0, 0, 100000, 50000) (300000; 300000, 0, 0, 0)
charges: 1 at 1767608100 of s6 10 1 100000 100000 0;"##;

/// A sweep at every minute before it: nobody sees them.
const SWEPT: &str = r##"1767607260 sweep
= {"Accounts":1,"Result-Code":2001}
1767607320 sweep
= {"Accounts":1,"Result-Code":2001}
1767607380 sweep
= {"Accounts":1,"Result-Code":2001}
1767607440 sweep
= {"Accounts":1,"Result-Code":2001}
1767607500 sweep
= {"Accounts":1,"Result-Code":2001}
1767607560 sweep
= {"Accounts":1,"Result-Code":2001}
1767607620 sweep
= {"Accounts":1,"Result-Code":2001}
1767607680 sweep
= {"Accounts":1,"Result-Code":2001}
1767607740 sweep
= {"Accounts":1,"Result-Code":2001}
1767607800 sweep
= {"Accounts":1,"Result-Code":2001}
last: 1767607800
buckets: (150000; 0, 150000, 0, 0) (300000; 150000, 150000, 0, 0)

1767607860 sweep
= {"Accounts":1,"Result-Code":2001}
1767607920 sweep
= {"Accounts":1,"Result-Code":2001}
1767607980 sweep
= {"Accounts":1,"Result-Code":2001}
1767608040 sweep
= {"Accounts":1,"Result-Code":2001}
1767608100 sweep
= {"Accounts":1,"Result-Code":2001}"##;

/// A session holds ten minutes.
const TEN_MINUTES: &str = r##"1767571200 open 49151
= {"Result-Code":2001}
1767571200 credit 49151 {"Amount":1000000,"Reference":"c1"}
= {"Bucket":1,"Result-Code":2001}
1767607200 {"Session-Id":"s13","CC-Request-Type":1,"CC-Request-Number":0,
  "Subscription-Id":{"Subscription-Id-Type":0,"Subscription-Id-Data":"49151"},
  "Multiple-Services-Credit-Control":[{"Rating-Group":10,"Requested-Service-Unit":{"CC-Time":600}}]}
= {"CC-Request-Number":0,"CC-Request-Type":1,
  "Multiple-Services-Credit-Control":[{"Granted-Service-Unit":{"CC-Time":600},"Rating-Group":10,
  "Result-Code":2001,"Validity-Time":3600}],"Result-Code":2001,"Session-Id":"s13"}
buckets: (1000000; 0, 1000000, 0, 0)"##;

/// It is left alone for a second less than twice the validity, 7200 seconds.
const ALMOST: &str = r##"1767614399 {"Session-Id":"s13","CC-Request-Type":2,"CC-Request-Number":1,
  "Subscription-Id":{"Subscription-Id-Type":0,"Subscription-Id-Data":"49151"},
  "Multiple-Services-Credit-Control":[{"Rating-Group":10,"Requested-Service-Unit":{"CC-Time":600}}]}
= {"CC-Request-Number":1,"CC-Request-Type":2,
  "Multiple-Services-Credit-Control":[{"Granted-Service-Unit":{"CC-Time":600},"Rating-Group":10,
  "Result-Code":2001,"Validity-Time":3600}],"Result-Code":2001,"Session-Id":"s13"}
last: 1767614399
buckets: (1000000; 0, 1000000, 0, 0)
sessions: s13 1 1767614399 Open;"##;

/// A second later its request is of no open session and changes nothing. A sweep releases what it
/// held.
const LEFT: &str = r##"1767614400 {"Session-Id":"s13","CC-Request-Type":2,"CC-Request-Number":1,
  "Subscription-Id":{"Subscription-Id-Type":0,"Subscription-Id-Data":"49151"},
  "Multiple-Services-Credit-Control":[{"Rating-Group":10,"Requested-Service-Unit":{"CC-Time":600}}]}
= {"CC-Request-Number":1,"CC-Request-Type":2,"Result-Code":5002,"Session-Id":"s13"}
unchanged
last: 1767607200

1767614400 sweep
= {"Accounts":1,"Result-Code":2001}
last: 1767614400
buckets: (1000000; 1000000, 0, 0, 0)
sessions: s13 0 1767607200 Ended;"##;

/// A moment before the last accepted one is taken as that: money that has ended stays so.
const LATER: &str = r##"1767571200 open 49151
= {"Result-Code":2001}
1767571200 credit 49151 {"Amount":90000,"Reference":"c1","Until":1767607800}
= {"Bucket":1,"Result-Code":2001}
1767607800 sweep
= {"Accounts":1,"Result-Code":2001}
buckets: (90000; 0, 0, 0, 90000)

1767607799 {"Session-Id":"b18","CC-Request-Type":4,"CC-Request-Number":0,
  "Subscription-Id":{"Subscription-Id-Type":0,"Subscription-Id-Data":"49151"},"Requested-Action":2,
  "Multiple-Services-Credit-Control":[{"Rating-Group":30,
  "Requested-Service-Unit":{"CC-Service-Specific-Units":1}}]}
= {"CC-Request-Number":0,"CC-Request-Type":4,"Check-Balance-Result":1,"Result-Code":2001,
  "Session-Id":"b18"}
unchanged
last: 1767607800
buckets: (90000; 0, 0, 0, 90000)"##;

// rule: bucket-end.rows-of
#[test]
fn ends_of_buckets_and_sessions(rt: HostRuntime) {
    let alloc = rt.alloc();
    try_all(&rt, alloc, &[OPENED, HELD_BY_TWO, ENDED]);
    try_all(&rt, alloc, &[OPENED, HELD_BY_TWO, SWEPT, ENDED]);
    try_all(&rt, alloc, &[TEN_MINUTES, ALMOST]);
    try_all(&rt, alloc, &[TEN_MINUTES, LEFT]);
    try_all(&rt, alloc, &[LATER]);
}
