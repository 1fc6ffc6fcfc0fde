//! Requests and their answers.

use std::alloc::Global;
use std::process::Abort;

/// A request for a path that there isn't.
pub(crate) const UNKNOWN: &str = "GET /nothing HTTP/1.1\r\n\r\n";

/// Its answer.
pub(crate) const NOT_FOUND: &str =
    "HTTP/1.1 404 Not Found\r\nContent-Type: application/json\r\nContent-Length: 2\r\n\r\n{}";

/// An account is opened.
pub(crate) const OPEN: &str = "PUT /accounts/49151 HTTP/1.1\r\nContent-Length: 0\r\n\r\n";

/// It is opened twice.
pub(crate) const OPEN_TWICE: &str = "PUT /accounts/49151 HTTP/1.1\r\nContent-Length: 0\r\n\r\n\
     PUT /accounts/49151 HTTP/1.1\r\nContent-Length: 0\r\n\r\n";

/// The answer where the account is new.
pub(crate) const OPENED: &str =
    "HTTP/1.1 200 OK\r\nContent-Type: application/json\r\nContent-Length: 20\r\n\r\n\
     {\"Result-Code\":2001}";

/// The answer where it exists.
pub(crate) const EXISTS: &str =
    "HTTP/1.1 200 OK\r\nContent-Type: application/json\r\nContent-Length: 16\r\n\r\n\
     {\"Refusal\":\"O1\"}";

/// The two answers.
pub(crate) const OPENED_THEN_EXISTS: &str =
    "HTTP/1.1 200 OK\r\nContent-Type: application/json\r\nContent-Length: 20\r\n\r\n\
     {\"Result-Code\":2001}\
     HTTP/1.1 200 OK\r\nContent-Type: application/json\r\nContent-Length: 16\r\n\r\n\
     {\"Refusal\":\"O1\"}";

/// The answer where a bucket is the account's first.
pub(crate) const FIRST_BUCKET: &str =
    "HTTP/1.1 200 OK\r\nContent-Type: application/json\r\nContent-Length: 31\r\n\r\n\
     {\"Bucket\":1,\"Result-Code\":2001}";

/// A request without a body, and its answer.
pub(crate) const EMPTY_BODY: &str = "POST /ccr HTTP/1.1\r\nContent-Length: 0\r\n\r\n";

pub(crate) const NO_REQUEST: &str =
    "HTTP/1.1 400 Bad Request\r\nContent-Type: application/json\r\nContent-Length: 20\r\n\r\n\
     {\"Result-Code\":5012}";

/// The answer where the store or the clock fails.
pub(crate) const UNABLE: &str =
    "HTTP/1.1 503 Service Unavailable\r\nContent-Type: application/json\r\n\
     Content-Length: 20\r\n\r\n{\"Result-Code\":5012}";

/// The request of a line `METHOD PATH BODY`, with the length of its body.
pub(crate) fn request(rt: &impl Abort, alloc: Global, line: &str) -> String {
    let (method, rest) = line.split_once(" ").expect(rt, "a method");
    let (path, body) = rest.split_once(" ").expect(rt, "a path");
    let length = body.len();
    format!(in alloc; "{method} {path} HTTP/1.1\r\nContent-Length: {length}\r\n\r\n{body}").expect(
        rt, "memory",
    )
}
