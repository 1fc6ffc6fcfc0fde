//! A connection over the loopback address in one process.

use crate::tests::accounts::{TEN, clock, shelf};
use crate::tests::connections::with_ending;
use crate::tests::requests::{OPEN_TWICE, OPENED_THEN_EXISTS};
use http_api::serve_socket;
use keepers::MemoryKeeper;
use std::io;
use std::io::Write;
use std::net::{Shutdown, TcpListener, TcpStream};
use std::process::Abort;

/// How the engine ends the connection.
fn ending(rt: &impl Abort, host: &HostRuntime, stream: &TcpStream) -> String {
    let alloc = host.alloc();
    let shelf = shelf(rt, alloc);
    let mut keeper = MemoryKeeper::new(alloc);
    let served = serve_socket(host, stream, &mut keeper, &shelf, &mut clock(rt, TEN));
    with_ending(rt, alloc, b"", served)
}

/// The client's side connects, writes and ends its writing; the engine serves; the client's side
/// reads.
// rule: port
#[test]
fn over_loopback(rt: HostRuntime) {
    let alloc = rt.alloc();
    let listener = TcpListener::bind(&rt, "127.0.0.1:0").expect(&rt, "a port");
    let place = listener.local_addr().expect(&rt, "its place");
    let mut client = TcpStream::connect(&rt, place).expect(&rt, "a connection");
    client
        .write_all(OPEN_TWICE.as_bytes())
        .expect(&rt, "a request");
    client.shutdown(Shutdown::Write).expect(&rt, "an end");
    let (stream, _) = listener.accept().expect(&rt, "a stream");
    let ending = ending(&rt, &rt, &stream);
    drop(stream);
    let text = io::read_to_string(alloc, &client).expect(&rt, "answers");
    assert_eq!(rt; text.as_str(), OPENED_THEN_EXISTS);
    assert_eq!(rt; ending.as_str(), "\nserved 2");
}
