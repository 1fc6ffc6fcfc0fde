//! Connections of a listener, one after another.

ghost use Rattle.charging.specs.Continued.{GoesOn};
ghost use Rattle.service.specs.ServingTold.{ServesConnections};

use crate::telling::tell_fault;
use http_api::{Clock, ServeFault, Served, serve_socket};
use keepers::ChargeSource;
use shelves::TariffShelf;
use std::io::Write;
use std::net::TcpListener;

/// The connections that are served: so many of a listener.
#[derive(Clone, Copy)]
pub struct Connections<'a> {
    /// The socket that listens.
    pub listener: &'a TcpListener,
    /// How many of its connections are served.
    pub count: u32,
}

/// Serves so many connections of a listener, one after another, each as `serve_socket` does, and
/// answers how many of them ended in a fault. A connection's fault is one line on `errors`, as far
/// as that can be written, and the next connection is served; one that the listener couldn't hand
/// over counts as one whose socket failed.
// rule: port
pub fn serve_connections<K: ChargeSource, C: Clock, E: Write>(
    rt: &HostRuntime,
    connections: Connections<'_>,
    keeper: &mut K,
    shelf: &TariffShelf,
    clock: &mut C,
    errors: &mut E,
) -> u32
    ensures { ServesConnections E.contents shelf.now connections.entry.count
        (K.seen keeper.old) (K.seen keeper.new) errors.old errors.new result }
{
    let mut failed = 0;
    for _served in 0..connections.count {
        failed += serve_next(rt, connections.listener, keeper, shelf, clock, errors);
    }
    failed
}

/// Serves the next connection of a listener, and reports its fault: how many there were, none or
/// one.
fn serve_next<K: ChargeSource, C: Clock, E: Write>(
    rt: &HostRuntime,
    listener: &TcpListener,
    keeper: &mut K,
    shelf: &TariffShelf,
    clock: &mut C,
    errors: &mut E,
) -> u32
    ensures { ServesConnections E.contents shelf.now 1 (K.seen keeper.old) (K.seen keeper.new)
        errors.old errors.new result }
{
    match serve_accepted(rt, listener, keeper, shelf, clock) {
        Ok(_) => 0,
        Err(fault) => {
            tell_fault(errors, fault);
            1
        }
    }
}

/// Serves the next connection of a listener.
fn serve_accepted<K: ChargeSource, C: Clock>(
    rt: &HostRuntime,
    listener: &TcpListener,
    keeper: &mut K,
    shelf: &TariffShelf,
    clock: &mut C,
) -> Result<Served, ServeFault>
    ensures { GoesOn shelf.now (K.seen keeper.old) (K.seen keeper.new) }
{
    let Ok((stream, _)) = listener.accept() else {
        return Err(ServeFault::Read);
    };
    serve_socket(rt, &stream, keeper, shelf, clock)
}
