//! Balances: what became of an account's money at a moment.

use crate::tests::ends::HELD_BY_TWO;
use crate::tests::scenarios::try_all;

/// Of an account that isn't there none is answered.
const NO_BUCKETS: &str = r##"1767571200 balance 49151
= {"Refusal":"O2"}
1767571200 open 49151
= {"Result-Code":2001}
1767571200 balance 49151
= {"Account":"49151","Barred":false,"Buckets":[],"Moment":1767571200}"##;

/// Of a grant that two buckets hold, each bucket is listed as of the moment, whatever the
/// account's last command was: what a live session holds past its bucket's end is reserved, what a
/// settlement leaves of it is expired, and what is available until a bucket's end is expired from
/// it on. Buckets come by number, used up or not. Nothing of the account changes.
const BALANCES: &str = r##"1767608040 balance 49151
= {"Account":"49151","Barred":false,"Buckets":[{"Available":0,"Charged":0,"Credited":150000,
  "Expired":0,"From":1767571200,"Number":1,"Reserved":150000,"Until":1767607800},
  {"Available":150000,"Charged":0,"Credited":300000,"Expired":0,"From":1767571200,"Number":2,
  "Reserved":150000,"Until":4102444800}],"Moment":1767608040}
1767614400 balance 49151
= {"Account":"49151","Barred":false,"Buckets":[{"Available":0,"Charged":0,"Credited":150000,
  "Expired":150000,"From":1767571200,"Number":1,"Reserved":0,"Until":1767607800},
  {"Available":300000,"Charged":0,"Credited":300000,"Expired":0,"From":1767571200,"Number":2,
  "Reserved":0,"Until":4102444800}],"Moment":1767614400}
unchanged

1767608100 {"Session-Id":"s6","CC-Request-Type":2,"CC-Request-Number":1,
  "Subscription-Id":{"Subscription-Id-Type":0,"Subscription-Id-Data":"49151"},
  "Multiple-Services-Credit-Control":[{"Rating-Group":10,"Used-Service-Unit":[{"CC-Time":60}]}]}
= {"CC-Request-Number":1,"CC-Request-Type":2,
  "Multiple-Services-Credit-Control":[{"Rating-Group":10,"Result-Code":2001}],"Result-Code":2001,
  "Session-Id":"s6"}
1767608160 credit 49151 {"Amount":1000,"Reference":"c3","Scope":30,"Until":1767609000}
= {"Bucket":3,"Result-Code":2001}
1767608160 bar 49151
= {"Result-Code":2001}
last: 1767608160

1767608999 balance 49151
= {"Account":"49151","Barred":true,"Buckets":[{"Available":0,"Charged":100000,"Credited":150000,
  "Expired":50000,"From":1767571200,"Number":1,"Reserved":0,"Until":1767607800},
  {"Available":300000,"Charged":0,"Credited":300000,"Expired":0,"From":1767571200,"Number":2,
  "Reserved":0,"Until":4102444800},{"Available":1000,"Charged":0,"Credited":1000,"Expired":0,
  "From":1767608160,"Number":3,"Reserved":0,"Scope":30,"Until":1767609000}],"Moment":1767608999}
1767609000 balance 49151
= {"Account":"49151","Barred":true,"Buckets":[{"Available":0,"Charged":100000,"Credited":150000,
  "Expired":50000,"From":1767571200,"Number":1,"Reserved":0,"Until":1767607800},
  {"Available":300000,"Charged":0,"Credited":300000,"Expired":0,"From":1767571200,"Number":2,
  "Reserved":0,"Until":4102444800},{"Available":0,"Charged":0,"Credited":1000,"Expired":1000,
  "From":1767608160,"Number":3,"Reserved":0,"Scope":30,"Until":1767609000}],"Moment":1767609000}
1767571200 balance 49151
= {"Account":"49151","Barred":true,"Buckets":[{"Available":0,"Charged":100000,"Credited":150000,
  "Expired":50000,"From":1767571200,"Number":1,"Reserved":0,"Until":1767607800},
  {"Available":300000,"Charged":0,"Credited":300000,"Expired":0,"From":1767571200,"Number":2,
  "Reserved":0,"Until":4102444800},{"Available":1000,"Charged":0,"Credited":1000,"Expired":0,
  "From":1767608160,"Number":3,"Reserved":0,"Scope":30,"Until":1767609000}],"Moment":1767608160}
unchanged"##;

// rule: eligible.used-in-its-time, balance, balance.told-by-number
#[test]
fn balances_at_moments(rt: HostRuntime) {
    let alloc = rt.alloc();
    try_all(&rt, alloc, &[NO_BUCKETS, HELD_BY_TWO, BALANCES]);
}
