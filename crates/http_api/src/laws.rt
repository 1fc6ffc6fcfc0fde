//! Laws of the definitions by which a connection is served: functions that do nothing.

ghost use Rattle.http_api.specs.OneText.{DueTurnsAreTurns, TextIsOne, TurnsAreOne};

use http_messages::next_is_one;

/// As long as neither memory nor the store fails, what is written of a connection and what it
/// leaves accepted is one function of three: the bytes that are read, the commands accepted before,
/// and the clock's moments. So is the number of requests that are answered to its end (RFC 9112
/// section 9.3).
// rule: http-text
pub fn text_is_one()
    ensures turns { DueTurnsAreTurns }
    ensures text { TextIsOne }
    ensures count { TurnsAreOne }
{
    next_is_one();
}
