//! What the client does with its last units used.

use identifiers::RedirectAddress;

/// What the client does when its last granted units are used (Final-Unit-Action, RFC 8506 section
/// 8.35).
#[derive(Clone, Debug)]
pub enum FinalAction {
    /// TERMINATE: it ends the service.
    Terminate,
    /// REDIRECT: it sends the user to this address.
    Redirect(RedirectAddress),
}

// It is written out, so that a caller doesn't prove again how each part is dropped.
impl Drop for FinalAction {
    fn drop(self) {
        match self {
            FinalAction::Terminate => {}
            FinalAction::Redirect(_) => {}
        }
    }
}
