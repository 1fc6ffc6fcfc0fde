//! Messages of HTTP/1.1 (RFC 9112): requests taken off a stream, one after another, what one asks
//! by the table of routes, and the bytes of its answer.
#![tactic(auto)]

mod asking;
mod buffers;
mod fields;
mod head;
mod head_part;
mod refusal;
mod request_laws;
mod requests;
mod route_laws;
mod routes;
mod text;

pub use crate::asking::{HttpAsked, StatementAsked, ask};
pub use crate::buffers::Buffers;
pub use crate::head::HttpHead;
pub use crate::head_part::{HeadPart, MAX_HEAD_PART, next_head_part};
pub use crate::refusal::{HttpRefusal, tell_refusal};
pub use crate::request_laws::{first_parts_are_shortest, next_is_one};
pub use crate::requests::{HttpRequest, Taken, next_request};
pub use crate::route_laws::routes_are_paths;
pub use crate::routes::{Route, known_router};
pub use crate::text::{Media, response, tell_fault, tell_json, tell_text, tell_unable, write_text};
pub use matchit::Router;
