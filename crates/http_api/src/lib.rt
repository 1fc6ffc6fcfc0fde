//! Serves connections of HTTP/1.1 over any keeper: what is written is a function of the bytes that
//! are read and of the clock's moments.
#![tactic(auto)]

mod answering;
mod clock;
mod fault;
mod hearing;
mod joining;
mod laws;
mod patient_socket;
mod patient_stream;
mod serving;
mod socket;
mod stating;
mod telling;

pub use crate::clock::{Clock, FixedClock};
pub use crate::fault::ServeFault;
pub use crate::joining::MAX_WAITING;
pub use crate::laws::text_is_one;
pub use crate::patient_socket::REQUEST_SECONDS;
pub use crate::patient_stream::{CONNECTION_SECONDS, SOCKET_SECONDS};
pub use crate::serving::{MAX_REQUESTS, Served, serve};
pub use crate::socket::serve_socket;
