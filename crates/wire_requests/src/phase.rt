//! Where a request is in its session.

/// Where a session's request is in its session.
#[derive(Clone, Copy)]
pub(crate) enum Phase {
    Initial,
    Update,
    Termination,
}
