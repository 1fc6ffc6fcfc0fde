//! What the tests of the crates above share: the tariff book of the worked sessions that they tell,
//! tables of cases, and a writer that fails.
#![tactic(auto)]

mod cases;
mod slow;

pub use crate::cases::{changed, joined};
pub use crate::slow::Slow;

/// Two periods by weekday and hour. Group 10: seconds in blocks of 60 at 100000 micro-units on
/// weekdays from 08:00 to 20:00, else at 50000. Group 20: octets in blocks of 1048576, of which the
/// first 100 of a month are free and the others cost 10000. Group 30: events at 90000.
pub const BOOK: &str = r#"zone = "+00:00"
currency = 978
validity = 3600
periods = ["off", "peak"]
[[week]]
period = "peak"
days = [1, 2, 3, 4, 5]
from = "08:00"
to = "20:00"
[[week]]
period = "off"
days = [1, 2, 3, 4, 5]
from = "00:00"
to = "08:00"
[[week]]
period = "off"
days = [1, 2, 3, 4, 5]
from = "20:00"
to = "24:00"
[[week]]
period = "off"
days = [6, 7]
from = "00:00"
to = "24:00"
[[group]]
id = 10
unit = "time"
block = 60
slice = 600
max_grant = 3600
cycle = "none"
final = "terminate"
price = [{period = "off", tiers = [{price = 50000}]}, {period = "peak", tiers = [{price = 100000}]}]
[[group]]
id = 20
unit = "octets"
block = 1048576
slice = 10485760
max_grant = 1048576000
cycle = "month"
final = "redirect"
redirect = "http://topup.example/"
price = [{period = "off", tiers = [{upto = 100, price = 0}, {price = 10000}]}, {period = "peak", tiers = [{upto = 100, price = 0}, {price = 10000}]}]
[[group]]
id = 30
unit = "events"
block = 1
slice = 1
max_grant = 100
cycle = "none"
final = "terminate"
price = [{period = "off", tiers = [{price = 90000}]}, {period = "peak", tiers = [{price = 90000}]}]
"#;
