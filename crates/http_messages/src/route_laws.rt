//! A law of the table of routes: a function that does nothing.

ghost use Rattle.http_messages.specs.Table.{AreRoutesPaths};

/// A path of bytes has a row of the table exactly where it is, in words, one of that row's: its
/// parts in braces are any that aren't empty and have no slash (profile).
// rule: http-path.part
pub fn routes_are_paths()
    ensures { AreRoutesPaths }
{}
