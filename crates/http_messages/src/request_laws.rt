//! Laws of the definitions by which a stream is read: functions that do nothing.

ghost use Rattle.http_messages.specs.Shortest.{AreShortest, NextIsOne};

/// A head part is the shortest beginning of its stream that ends with an empty line, within 8,192
/// bytes. It is too long exactly where the first 8,192 bytes have no such beginning, and cut where
/// a shorter stream has none (RFC 9112 section 2.1; the bound: profile).
// rule: http-head.shortest
pub fn first_parts_are_shortest()
    ensures { AreShortest }
{}

/// What comes next in a stream is one thing: a request, a refusal or the stream's end, as a head
/// part is one head at most (RFC 9112 section 2.1).
// rule: http-head.next-is-one
pub fn next_is_one()
    ensures { NextIsOne }
{}
