//! A request taken off a stream, with what it asks.

ghost use Rattle.std.specs.Prelude.{◌≡◌, ℕ, List, Option, Err, IfOk, OnErr, IsErrOf, IfSome};
ghost use Rattle.http_messages.specs.Requests.{Next};
ghost use Rattle.http_messages.specs.RequestsGiven.{IsNextTaken, seen};
ghost use Rattle.http_messages.specs.Asking.{IsAskingGiven};
ghost use Rattle.http_messages.specs.Table.{route_table, asked_of};
ghost use Rattle.http_api.specs.Hearing.{IsOfHead, Hears, HearsNext};

use http_messages::{
    Buffers, HttpAsked, HttpRefusal, HttpRequest, Route, Router, Taken, ask, known_router,
    next_request,
};
use std::alloc::Global;
use std::io::BufRead;
use texts::StreamFault;
use wire::Scratch;

/// A request: what it asks, and whether the connection ends after it.
#[derive(Drop)]
pub(crate) struct Heard {
    pub(crate) asked: HttpAsked,
    pub(crate) closes: bool,
}

/// What the requests of a connection are read with: the table of routes, and the memory of a
/// request and of the members of its body.
#[derive(Drop)]
pub(crate) struct RequestParser {
    router: Router<Route>,
    buffers: Buffers,
    scratch: Scratch,
    ghost known: { router ≡ route_table },
}

impl RequestParser {
    /// The parser of a connection, of which nothing was read yet.
    ///
    /// # Errors
    /// `Memory` where a growth was refused.
    pub(crate) fn new(alloc: Global) -> Result<RequestParser, StreamFault>
        ensures { OnErr result (result ≡ Err StreamFault.Memory) }
    {
        let router = known_router(alloc)?;
        let buffers = Buffers::empty(alloc)?;
        Ok(RequestParser {
            router,
            buffers,
            scratch: Scratch::new(alloc),
        })
    }

    /// Takes the next request off a stream, and gives what it asks; None where the stream ends
    /// before a request does.
    ///
    /// # Errors
    /// `Memory` where a growth was refused, `Read` where the reader failed.
    pub(crate) fn hear<R: BufRead>(
        &mut self,
        alloc: Global,
        reader: &mut R,
    ) -> Result<Option<Heard>, StreamFault>
        ensures heard { IfOk result (λ heard. IfSome (R.remaining reader.old)
            (λ stream. Hears stream heard (R.remaining reader.new))) }
        ensures fault { IsErrOf result StreamFault.Write → ⊥ }
    {
        let taken = next_request(alloc, reader, &mut self.buffers)?;
        Ok(heard_of(
            alloc,
            &self.router,
            taken,
            &mut self.buffers,
            &mut self.scratch,
        ))
    }
}

/// What a request that was taken asks. A refusal ends the connection.
fn heard_of(
    alloc: Global,
    router: &Router<Route>,
    taken: Taken,
    buffers: &mut Buffers,
    scratch: &mut Scratch,
) -> Option<Heard>
    requires { router.now ≡ route_table }
    ensures { (next : Next) (left : Option (List ℕ)) → IsOfHead next → IsNextTaken next taken left →
        HearsNext next result left }
{
    match taken {
        Taken::Request(request) => {
            let heard = heard_request(alloc, router, &request, scratch);
            buffers.keep(request);
            Some(heard)
        }
        Taken::Refused(status) => Some(Heard {
            asked: HttpAsked::Refused(HttpRefusal::of_head(status)),
            closes: true,
        }),
        Taken::Ended => None,
    }
}

/// What a request asks.
fn heard_request(
    alloc: Global,
    router: &Router<Route>,
    request: &HttpRequest,
    scratch: &mut Scratch,
) -> Heard
    requires { router.now ≡ route_table }
    ensures asked { IsAskingGiven (asked_of (seen request.now)) result.asked }
    ensures closes { result.closes ≡ request.now.closes }
{
    Heard {
        asked: ask(alloc, router, request, scratch),
        closes: request.closes,
    }
}
