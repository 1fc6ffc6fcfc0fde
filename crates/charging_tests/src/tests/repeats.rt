//! Requests that come again.

use crate::tests::scenarios::try_all;

/// An update that comes again gets its first answer; with another use it is refused. Neither
/// changes a row.
const REPEATED: &str = r##"1767571200 open 49151
= {"Result-Code":2001}
1767571200 credit 49151 {"Amount":1000000,"Reference":"c1"}
= {"Bucket":1,"Result-Code":2001}
1767607200 {"Session-Id":"s11","CC-Request-Type":1,"CC-Request-Number":0,
  "Subscription-Id":{"Subscription-Id-Type":0,"Subscription-Id-Data":"49151"},
  "Multiple-Services-Credit-Control":[{"Rating-Group":10,"Requested-Service-Unit":{"CC-Time":600}}]}
= {"CC-Request-Number":0,"CC-Request-Type":1,
  "Multiple-Services-Credit-Control":[{"Granted-Service-Unit":{"CC-Time":600},"Rating-Group":10,
  "Result-Code":2001,"Validity-Time":3600}],"Result-Code":2001,"Session-Id":"s11"}
1767607500 {"Session-Id":"s11","CC-Request-Type":2,"CC-Request-Number":1,
  "Subscription-Id":{"Subscription-Id-Type":0,"Subscription-Id-Data":"49151"},
  "Multiple-Services-Credit-Control":[{"Rating-Group":10,"Requested-Service-Unit":{"CC-Time":60},
  "Used-Service-Unit":[{"CC-Time":60}]}]}
= {"CC-Request-Number":1,"CC-Request-Type":2,
  "Multiple-Services-Credit-Control":[{"Granted-Service-Unit":{"CC-Time":60},"Rating-Group":10,
  "Result-Code":2001,"Validity-Time":3600}],"Result-Code":2001,"Session-Id":"s11"}
last: 1767607500
buckets: (1000000; 800000, 100000, 100000, 0)
counters: 10 0 1;

1767607560 {"Session-Id":"s11","CC-Request-Type":2,"CC-Request-Number":1,
  "Subscription-Id":{"Subscription-Id-Type":0,"Subscription-Id-Data":"49151"},
  "Multiple-Services-Credit-Control":[{"Rating-Group":10,"Requested-Service-Unit":{"CC-Time":60},
  "Used-Service-Unit":[{"CC-Time":60}]}]}
= {"CC-Request-Number":1,"CC-Request-Type":2,
  "Multiple-Services-Credit-Control":[{"Granted-Service-Unit":{"CC-Time":60},"Rating-Group":10,
  "Result-Code":2001,"Validity-Time":3600}],"Result-Code":2001,"Session-Id":"s11"}
unchanged
last: 1767607500

1767607560 {"Session-Id":"s11","CC-Request-Type":2,"CC-Request-Number":1,
  "Subscription-Id":{"Subscription-Id-Type":0,"Subscription-Id-Data":"49151"},
  "Multiple-Services-Credit-Control":[{"Rating-Group":10,"Requested-Service-Unit":{"CC-Time":60},
  "Used-Service-Unit":[{"CC-Time":61}]}]}
= {"CC-Request-Number":1,"CC-Request-Type":2,"Failed-AVP":"CC-Request-Number","Result-Code":5004,
  "Session-Id":"s11"}
unchanged
last: 1767607500"##;

/// A denied initial request stays denied when money has come; a new session is granted units.
const DENIED: &str = r##"1767571200 open 49151
= {"Result-Code":2001}
1767571200 credit 49151 {"Amount":40000,"Reference":"c1"}
= {"Bucket":1,"Result-Code":2001}
1767607200 {"Session-Id":"s12","CC-Request-Type":1,"CC-Request-Number":0,
  "Subscription-Id":{"Subscription-Id-Type":0,"Subscription-Id-Data":"49151"},
  "Multiple-Services-Credit-Control":[{"Rating-Group":10,"Requested-Service-Unit":{"CC-Time":600}}]}
= {"CC-Request-Number":0,"CC-Request-Type":1,"Result-Code":4012,"Session-Id":"s12"}
last: 1767607200
buckets: (40000; 40000, 0, 0, 0)
sessions: s12 0 1767607200 NeverOpened;

1767607260 credit 49151 {"Amount":1000000,"Reference":"c2"}
= {"Bucket":2,"Result-Code":2001}
last: 1767607260

1767607320 {"Session-Id":"s12","CC-Request-Type":1,"CC-Request-Number":0,
  "Subscription-Id":{"Subscription-Id-Type":0,"Subscription-Id-Data":"49151"},
  "Multiple-Services-Credit-Control":[{"Rating-Group":10,"Requested-Service-Unit":{"CC-Time":600}}]}
= {"CC-Request-Number":0,"CC-Request-Type":1,"Result-Code":4012,"Session-Id":"s12"}
unchanged
last: 1767607260

1767607320 {"Session-Id":"s12b","CC-Request-Type":1,"CC-Request-Number":0,
  "Subscription-Id":{"Subscription-Id-Type":0,"Subscription-Id-Data":"49151"},
  "Multiple-Services-Credit-Control":[{"Rating-Group":10,"Requested-Service-Unit":{"CC-Time":600}}]}
= {"CC-Request-Number":0,"CC-Request-Type":1,
  "Multiple-Services-Credit-Control":[{"Granted-Service-Unit":{"CC-Time":600},"Rating-Group":10,
  "Result-Code":2001,"Validity-Time":3600}],"Result-Code":2001,"Session-Id":"s12b"}
buckets: (40000; 0, 40000, 0, 0) (1000000; 40000, 960000, 0, 0)"##;

// rule: changed-repeat
#[test]
fn requests_that_come_again(rt: HostRuntime) {
    let alloc = rt.alloc();
    try_all(&rt, alloc, &[REPEATED]);
    try_all(&rt, alloc, &[DENIED]);
}
