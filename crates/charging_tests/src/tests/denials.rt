//! Unknown rating groups and a barred account.

use crate::tests::scenarios::try_all;

/// A group that the book has not is answered beside one that is granted, and alone denies the
/// session; so does a bar, which goes before the unknown group of a debit.
const BARRED: &str = r##"1767571200 open 49151
= {"Result-Code":2001}
1767571200 credit 49151 {"Amount":1000000,"Reference":"c1"}
= {"Bucket":1,"Result-Code":2001}
1767607200 {"Session-Id":"s19","CC-Request-Type":1,"CC-Request-Number":0,
  "Subscription-Id":{"Subscription-Id-Type":0,"Subscription-Id-Data":"49151"},
  "Multiple-Services-Credit-Control":[{"Rating-Group":99,"Requested-Service-Unit":{"CC-Time":600}},
  {"Rating-Group":10,"Requested-Service-Unit":{"CC-Time":600}}]}
= {"CC-Request-Number":0,"CC-Request-Type":1,"Multiple-Services-Credit-Control":[{"Rating-Group":99,
  "Result-Code":5031},{"Granted-Service-Unit":{"CC-Time":600},"Rating-Group":10,"Result-Code":2001,
  "Validity-Time":3600}],"Result-Code":2001,"Session-Id":"s19"}
1767607200 {"Session-Id":"s19b","CC-Request-Type":1,"CC-Request-Number":0,
  "Subscription-Id":{"Subscription-Id-Type":0,"Subscription-Id-Data":"49151"},
  "Multiple-Services-Credit-Control":[{"Rating-Group":99,"Requested-Service-Unit":{"CC-Time":600}}]}
= {"CC-Request-Number":0,"CC-Request-Type":1,"Result-Code":5031,"Session-Id":"s19b"}
buckets: (1000000; 0, 1000000, 0, 0)
sessions: s19 0 1767607200 Open; s19b 0 1767607200 NeverOpened;

1767607200 {"Session-Id":"s19b","CC-Request-Type":2,"CC-Request-Number":1,
  "Subscription-Id":{"Subscription-Id-Type":0,"Subscription-Id-Data":"49151"},
  "Multiple-Services-Credit-Control":[{"Rating-Group":10,"Requested-Service-Unit":{"CC-Time":600}}]}
= {"CC-Request-Number":1,"CC-Request-Type":2,"Result-Code":5002,"Session-Id":"s19b"}
unchanged

1767607200 bar 49151
= {"Result-Code":2001}
1767607200 {"Session-Id":"s19c","CC-Request-Type":1,"CC-Request-Number":0,
  "Subscription-Id":{"Subscription-Id-Type":0,"Subscription-Id-Data":"49151"},
  "Multiple-Services-Credit-Control":[{"Rating-Group":10,"Requested-Service-Unit":{"CC-Time":600}}]}
= {"CC-Request-Number":0,"CC-Request-Type":1,"Result-Code":4010,"Session-Id":"s19c"}
account: 1767607200 true 1
buckets: (1000000; 0, 1000000, 0, 0)

1767607200 {"Session-Id":"s19e","CC-Request-Type":4,"CC-Request-Number":0,
  "Subscription-Id":{"Subscription-Id-Type":0,"Subscription-Id-Data":"49151"},"Requested-Action":0,
  "Multiple-Services-Credit-Control":[{"Rating-Group":99,"Requested-Service-Unit":{}}]}
= {"CC-Request-Number":0,"CC-Request-Type":4,"Result-Code":4010,"Session-Id":"s19e"}
buckets: (1000000; 0, 1000000, 0, 0)
charges:

1767607200 unbar 49151
= {"Result-Code":2001}
1767607200 {"Session-Id":"s19d","CC-Request-Type":1,"CC-Request-Number":0,
  "Subscription-Id":{"Subscription-Id-Type":0,"Subscription-Id-Data":"49151"},
  "Multiple-Services-Credit-Control":[{"Rating-Group":10,"Requested-Service-Unit":{"CC-Time":600}}]}
= {"CC-Request-Number":0,"CC-Request-Type":1,"Result-Code":4012,"Session-Id":"s19d"}
account: 1767607200 false 1
buckets: (1000000; 0, 1000000, 0, 0)
sessions: s19 0 1767607200 Open; s19b 0 1767607200 NeverOpened;
   s19c 0 1767607200 NeverOpened; s19d 0 1767607200 NeverOpened; s19e 0 1767607200 NeverOpened;"##;

#[test]
fn unknown_groups_and_a_bar(rt: HostRuntime) {
    let alloc = rt.alloc();
    try_all(&rt, alloc, &[BARRED]);
}
