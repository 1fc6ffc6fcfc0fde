//! The requests of a connection, one after another.

ghost use Rattle.std.specs.Prelude.{◌≡◌, ◌<◌, ◌+◌};
ghost use Rattle.std.specs.Io.Buffered.{reader_remaining};
ghost use Rattle.http_api.specs.Connections.{ServesConnection};
ghost use Rattle.http_api.specs.ReplyParts.{requests_left_after};
ghost use Rattle.http_api.specs.Words.{most_requests};

use crate::answering::answer_request;
use crate::clock::Clock;
use crate::fault::ServeFault;
use crate::hearing::{Heard, RequestParser};
use crate::telling::Following;
use keepers::ChargeSource;
use shelves::TariffShelf;
use std::alloc::Global;
use std::io::{BufReader, Read, Write};

/// The most requests of a connection.
pub const MAX_REQUESTS: u32 = 1000;

/// What was served.
#[derive(Clone, Copy)]
pub struct Served {
    /// How many requests were answered, refusals among them.
    pub requests: u32,
}

/// Serves the requests of a connection, one after another (RFC 9112 section 9.3): each is taken off
/// the reader with its body, answered at the clock's moment, and its answer written before the next
/// is read. The writer is flushed after an answer, but where more bytes have come already. At most
/// 1,000 are answered.
///
/// Over a reader that doesn't show its bytes, as a socket, the keeper's tables are still those of
/// dated commands.
///
/// # Errors
/// `Memory` where a growth was refused for the buffers, a head or a body, `Read` where the reader
/// failed: then all answers are written, and nothing is done for the next request. `Write` where
/// the writer failed: then all but the last are, and a beginning of that, or all of it where it
/// couldn't be flushed. What was accepted stays so.
// rule: http-end
pub fn serve<R: Read, W: Write, K: ChargeSource, C: Clock>(
    alloc: Global,
    reader: &mut R,
    writer: &mut W,
    keeper: &mut K,
    shelf: &TariffShelf,
    clock: &mut C,
) -> Result<Served, ServeFault>
    ensures { ServesConnection C.gives shelf.now (R.remaining reader.old) clock.old clock.new
        (W.contents writer.old) (W.contents writer.new) (K.seen keeper.old) (K.seen keeper.new)
        result }
{
    let mut parser = RequestParser::new(alloc)?;
    let Ok(mut buffered) = BufReader::new(alloc, reader) else {
        return Err(ServeFault::Memory);
    };
    serve_requests(
        alloc,
        &mut parser,
        &mut buffered,
        writer,
        keeper,
        shelf,
        clock,
    )
}

/// What was served with one request more.
fn one_more(served: u32) -> Served
    requires { served < most_requests }
    ensures { result.requests ≡ served + 1 }
{
    Served {
        requests: served + 1,
    }
}

/// How many requests a connection takes after one.
fn left_after(closes: bool, left: u32) -> u32
    requires { 0 < left }
    ensures { result ≡ requests_left_after closes left }
{
    if closes { 0 } else { left - 1 }
}

/// Serves the requests of a connection.
// rule: http-end, http-leave
fn serve_requests<R: Read, W: Write, K: ChargeSource, C: Clock>(
    alloc: Global,
    parser: &mut RequestParser,
    reader: &mut BufReader<R>,
    writer: &mut W,
    keeper: &mut K,
    shelf: &TariffShelf,
    clock: &mut C,
) -> Result<Served, ServeFault>
    ensures { ServesConnection C.gives shelf.now (reader_remaining R.remaining reader.old) clock.old
        clock.new (W.contents writer.old) (W.contents writer.new) (K.seen keeper.old)
        (K.seen keeper.new) result }
{
    let mut left = MAX_REQUESTS;
    for served in 0..MAX_REQUESTS {
        let Some(heard) = parser.hear(alloc, reader)? else {
            return Ok(Served { requests: served });
        };
        let Heard { asked, closes } = heard;
        left = left_after(closes, left);
        let following = Following {
            closes: left == 0,
            more: !reader.buffer().is_empty(),
        };
        answer_request(alloc, writer, keeper, shelf, clock, asked, following)?;
        if left == 0 {
            return Ok(one_more(served));
        }
    }
    Ok(Served {
        requests: MAX_REQUESTS,
    })
}
