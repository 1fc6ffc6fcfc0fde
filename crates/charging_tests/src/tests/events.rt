//! Events: debits, refunds, checks and enquiries.

use crate::tests::scenarios::try_all;

/// An event's price is covered or it isn't charged.
const UNCOVERED: &str = r##"1767571200 open 49151
= {"Result-Code":2001}
1767571200 credit 49151 {"Amount":89999,"Reference":"c1"}
= {"Bucket":1,"Result-Code":2001}
1767607200 {"Session-Id":"d8","CC-Request-Type":4,"CC-Request-Number":0,
  "Subscription-Id":{"Subscription-Id-Type":0,"Subscription-Id-Data":"49151"},"Requested-Action":0,
  "Multiple-Services-Credit-Control":[{"Rating-Group":30,
  "Requested-Service-Unit":{"CC-Service-Specific-Units":1}}]}
= {"CC-Request-Number":0,"CC-Request-Type":4,"Result-Code":4012,"Session-Id":"d8"}
last: 1767607200
buckets: (89999; 89999, 0, 0, 0)
counters:
charges:"##;

const COVERED: &str = r##"1767571200 open 49151
= {"Result-Code":2001}
1767571200 credit 49151 {"Amount":90000,"Reference":"c1"}
= {"Bucket":1,"Result-Code":2001}
1767607200 {"Session-Id":"d8","CC-Request-Type":4,"CC-Request-Number":0,
  "Subscription-Id":{"Subscription-Id-Type":0,"Subscription-Id-Data":"49151"},"Requested-Action":0,
  "Multiple-Services-Credit-Control":[{"Rating-Group":30,
  "Requested-Service-Unit":{"CC-Service-Specific-Units":1}}]}
= {"CC-Request-Number":0,"CC-Request-Type":4,
  "Multiple-Services-Credit-Control":[{"Granted-Service-Unit":{"CC-Service-Specific-Units":1},
  "Rating-Group":30,"Result-Code":2001}],"Result-Code":2001,"Session-Id":"d8"}
last: 1767607200
buckets: (90000; 0, 0, 90000, 0)
counters: 30 0 1;
charges: 1 at 1767607200 of d8 30 1 90000 90000 0;"##;

/// The group's slice, one event, costs one micro-unit more than there is, and then what there is. A
/// denied debit and a refund have taken their names.
const TAKEN: &str = r##"1767571200 open 49151
= {"Result-Code":2001}
1767571200 credit 49151 {"Amount":89999,"Reference":"c1"}
= {"Bucket":1,"Result-Code":2001}
buckets: (89999; 89999, 0, 0, 0)

1767607200 {"Session-Id":"p8","CC-Request-Type":4,"CC-Request-Number":0,
  "Subscription-Id":{"Subscription-Id-Type":0,"Subscription-Id-Data":"49151"},"Requested-Action":0,
  "Multiple-Services-Credit-Control":[{"Rating-Group":30,"Requested-Service-Unit":{}}]}
= {"CC-Request-Number":0,"CC-Request-Type":4,"Result-Code":4012,"Session-Id":"p8"}
last: 1767607200
buckets: (89999; 89999, 0, 0, 0)
sessions: p8 0 1767607200 NeverOpened;

1767607200 {"Session-Id":"p8","CC-Request-Type":4,"CC-Request-Number":1,
  "Subscription-Id":{"Subscription-Id-Type":0,"Subscription-Id-Data":"49151"},"Requested-Action":0,
  "Multiple-Services-Credit-Control":[{"Rating-Group":30,"Requested-Service-Unit":{}}]}
= {"CC-Request-Number":1,"CC-Request-Type":4,"Failed-AVP":"Session-Id","Result-Code":5004,
  "Session-Id":"p8"}
unchanged

1767607200 {"Session-Id":"p8a","CC-Request-Type":4,"CC-Request-Number":0,
  "Subscription-Id":{"Subscription-Id-Type":0,"Subscription-Id-Data":"49151"},"Requested-Action":0,
  "Multiple-Services-Credit-Control":[{"Rating-Group":99,"Requested-Service-Unit":{}}]}
= {"CC-Request-Number":0,"CC-Request-Type":4,"Result-Code":5031,"Session-Id":"p8a"}
buckets: (89999; 89999, 0, 0, 0)
sessions: p8 0 1767607200 NeverOpened; p8a 0 1767607200 NeverOpened;

1767607201 {"Session-Id":"p8b","CC-Request-Type":4,"CC-Request-Number":0,
  "Subscription-Id":{"Subscription-Id-Type":0,"Subscription-Id-Data":"49151"},"Requested-Action":1,
  "Requested-Service-Unit":{"CC-Money":{"Unit-Value":{"Value-Digits":1,"Exponent":-6},
  "Currency-Code":978}}}
= {"CC-Request-Number":0,"CC-Request-Type":4,"Result-Code":2001,"Session-Id":"p8b"}
buckets: (89999; 89999, 0, 0, 0) (1; 1, 0, 0, 0)

1767607202 {"Session-Id":"p8c","CC-Request-Type":4,"CC-Request-Number":0,
  "Subscription-Id":{"Subscription-Id-Type":0,"Subscription-Id-Data":"49151"},"Requested-Action":0,
  "Multiple-Services-Credit-Control":[{"Rating-Group":30,"Requested-Service-Unit":{}}]}
= {"CC-Request-Number":0,"CC-Request-Type":4,
  "Multiple-Services-Credit-Control":[{"Granted-Service-Unit":{"CC-Service-Specific-Units":1},
  "Rating-Group":30,"Result-Code":2001}],"Result-Code":2001,"Session-Id":"p8c"}
buckets: (89999; 0, 0, 89999, 0) (1; 0, 0, 1, 0)
charges: 1 at 1767607202 of p8c 30 1 90000 90000 0;"##;

/// The least amount is paid back; not again under its name, and not in another currency.
const REFUNDED: &str = r##"1767571200 open 49151
= {"Result-Code":2001}
1767607200 {"Session-Id":"r9","CC-Request-Type":4,"CC-Request-Number":0,
  "Subscription-Id":{"Subscription-Id-Type":0,"Subscription-Id-Data":"49151"},"Requested-Action":1,
  "Requested-Service-Unit":{"CC-Money":{"Unit-Value":{"Value-Digits":1,"Exponent":-6},
  "Currency-Code":978}}}
= {"CC-Request-Number":0,"CC-Request-Type":4,"Result-Code":2001,"Session-Id":"r9"}
last: 1767607200
buckets: (1; 1, 0, 0, 0)
charges:

1767607200 {"Session-Id":"r9","CC-Request-Type":4,"CC-Request-Number":1,
  "Subscription-Id":{"Subscription-Id-Type":0,"Subscription-Id-Data":"49151"},"Requested-Action":1,
  "Requested-Service-Unit":{"CC-Money":{"Unit-Value":{"Value-Digits":1,"Exponent":-6},
  "Currency-Code":978}}}
= {"CC-Request-Number":1,"CC-Request-Type":4,"Failed-AVP":"Session-Id","Result-Code":5004,
  "Session-Id":"r9"}
unchanged

1767607200 {"Session-Id":"r9a","CC-Request-Type":4,"CC-Request-Number":0,
  "Subscription-Id":{"Subscription-Id-Type":0,"Subscription-Id-Data":"49151"},"Requested-Action":1,
  "Requested-Service-Unit":{"CC-Money":{"Unit-Value":{"Value-Digits":1,"Exponent":-6},
  "Currency-Code":840}}}
= {"CC-Request-Number":0,"CC-Request-Type":4,"Failed-AVP":"Currency-Code","Result-Code":5004,
  "Session-Id":"r9a"}
unchanged"##;

/// A check of what there is enough for.
const CHECKED: &str = r##"1767607200 {"Session-Id":"b10","CC-Request-Type":4,"CC-Request-Number":0,
  "Subscription-Id":{"Subscription-Id-Type":0,"Subscription-Id-Data":"49151"},"Requested-Action":2,
  "Multiple-Services-Credit-Control":[{"Rating-Group":30,
  "Requested-Service-Unit":{"CC-Service-Specific-Units":1}}]}
= {"CC-Request-Number":0,"CC-Request-Type":4,"Check-Balance-Result":0,"Result-Code":2001,
  "Session-Id":"b10"}
unchanged
last: 1767571200"##;

/// A check of the balance and a price enquiry change nothing and are kept nowhere.
const READS: &str = r##"1767571200 open 49151
= {"Result-Code":2001}
last: 1767571200
buckets:

1767607200 {"Session-Id":"p1","CC-Request-Type":4,"CC-Request-Number":0,
  "Subscription-Id":{"Subscription-Id-Type":0,"Subscription-Id-Data":"49151"},"Requested-Action":3,
  "Multiple-Services-Credit-Control":[{"Rating-Group":30,
  "Requested-Service-Unit":{"CC-Service-Specific-Units":1}}]}
= {"CC-Request-Number":0,"CC-Request-Type":4,"Cost-Information":{"Currency-Code":978,
  "Unit-Value":{"Exponent":-6,"Value-Digits":90000}},"Result-Code":2001,"Session-Id":"p1"}
unchanged
last: 1767571200

1767571200 credit 49151 {"Amount":89999,"Reference":"c1"}
= {"Bucket":1,"Result-Code":2001}
buckets: (89999; 89999, 0, 0, 0)

1767607200 {"Session-Id":"b10","CC-Request-Type":4,"CC-Request-Number":0,
  "Subscription-Id":{"Subscription-Id-Type":0,"Subscription-Id-Data":"49151"},"Requested-Action":2,
  "Multiple-Services-Credit-Control":[{"Rating-Group":30,
  "Requested-Service-Unit":{"CC-Service-Specific-Units":1}}]}
= {"CC-Request-Number":0,"CC-Request-Type":4,"Check-Balance-Result":1,"Result-Code":2001,
  "Session-Id":"b10"}
unchanged

1767571200 credit 49151 {"Amount":1,"Reference":"c2"}
= {"Bucket":2,"Result-Code":2001}
buckets: (89999; 89999, 0, 0, 0) (1; 1, 0, 0, 0)"##;

/// The same and an enquiry of the groups' slices, one event and 600 seconds, and a check of a group
/// that the book has not.
const SLICES: &str = r##"1767607200 {"Session-Id":"p1","CC-Request-Type":4,"CC-Request-Number":0,
  "Subscription-Id":{"Subscription-Id-Type":0,"Subscription-Id-Data":"49151"},"Requested-Action":3,
  "Multiple-Services-Credit-Control":[{"Rating-Group":30,"Requested-Service-Unit":{}}]}
= {"CC-Request-Number":0,"CC-Request-Type":4,"Cost-Information":{"Currency-Code":978,
  "Unit-Value":{"Exponent":-6,"Value-Digits":90000}},"Result-Code":2001,"Session-Id":"p1"}
1767607200 {"Session-Id":"c10","CC-Request-Type":4,"CC-Request-Number":0,
  "Subscription-Id":{"Subscription-Id-Type":0,"Subscription-Id-Data":"49151"},"Requested-Action":2,
  "Multiple-Services-Credit-Control":[{"Rating-Group":30,"Requested-Service-Unit":{}}]}
= {"CC-Request-Number":0,"CC-Request-Type":4,"Check-Balance-Result":0,"Result-Code":2001,
  "Session-Id":"c10"}
1767607200 {"Session-Id":"p1","CC-Request-Type":4,"CC-Request-Number":0,
  "Subscription-Id":{"Subscription-Id-Type":0,"Subscription-Id-Data":"49151"},"Requested-Action":3,
  "Multiple-Services-Credit-Control":[{"Rating-Group":10,"Requested-Service-Unit":{}}]}
= {"CC-Request-Number":0,"CC-Request-Type":4,"Cost-Information":{"Currency-Code":978,
  "Unit-Value":{"Exponent":-6,"Value-Digits":1000000}},"Result-Code":2001,"Session-Id":"p1"}
1767607200 {"Session-Id":"c10","CC-Request-Type":4,"CC-Request-Number":0,
  "Subscription-Id":{"Subscription-Id-Type":0,"Subscription-Id-Data":"49151"},"Requested-Action":2,
  "Multiple-Services-Credit-Control":[{"Rating-Group":99,"Requested-Service-Unit":{}}]}
= {"CC-Request-Number":0,"CC-Request-Type":4,"Result-Code":5031,"Session-Id":"c10"}
unchanged
buckets: (89999; 89999, 0, 0, 0) (1; 1, 0, 0, 0)"##;

/// One bucket that covers the event.
const ENOUGH: &str = r##"1767571200 open 49151
= {"Result-Code":2001}
1767571200 credit 49151 {"Amount":90000,"Reference":"c1"}
= {"Bucket":1,"Result-Code":2001}
buckets: (90000; 90000, 0, 0, 0)"##;

// rule: refund-currency, session-names.known, database-writes.past
#[test]
fn debits_refunds_and_reads(rt: HostRuntime) {
    let alloc = rt.alloc();
    try_all(&rt, alloc, &[UNCOVERED]);
    try_all(&rt, alloc, &[COVERED]);
    try_all(&rt, alloc, &[TAKEN]);
    try_all(&rt, alloc, &[REFUNDED]);
    try_all(&rt, alloc, &[READS, CHECKED, SLICES]);
    try_all(&rt, alloc, &[ENOUGH, CHECKED]);
}
