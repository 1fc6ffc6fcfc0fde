//! The requests of a socket.

ghost use Rattle.http_api.specs.Sockets.{ServesSocket};

use crate::clock::Clock;
use crate::fault::ServeFault;
use crate::patient_socket::{Coming, JoinedAnswers, PatientReader, PatientWriter};
use crate::patient_stream::PatientStream;
use crate::serving::{Served, serve};
use keepers::ChargeSource;
use shelves::TariffShelf;
use std::cell::{Cell, RefCell};
use std::net::TcpStream;

/// Serves the requests of a socket, as `serve`. Answers leave it without delay, and a read or a
/// write that takes more than 30 seconds is a fault. So is a read 60 seconds after the first bytes
/// of a request, so that one request that is sent byte by byte keeps the next peer waiting for no
/// more than 90 seconds, or 120 where its first bytes came together with the request before. And so
/// is each once all have taken 300 seconds, so that a connection keeps it waiting for no longer,
/// besides the work of its requests.
///
/// An answer leaves at once where no more bytes have come. Where more requests have come already
/// (RFC 9112 section 9.3.2) their answers are written together: such an answer waits until the
/// last of them is answered, or the socket is read again, or the connection ends, or more than
/// 8,192 bytes would wait.
///
/// # Errors
/// As `serve`, and `Read` where the socket can't be set so; then nothing is read. `Write` where the
/// socket failed as answers were written together: then a beginning of all answers is written.
pub fn serve_socket<K: ChargeSource, C: Clock>(
    rt: &HostRuntime,
    stream: &TcpStream,
    keeper: &mut K,
    shelf: &TariffShelf,
    clock: &mut C,
) -> Result<Served, ServeFault>
    ensures { ServesSocket shelf.now (K.seen keeper.old) (K.seen keeper.new) result }
{
    let Ok(patient) = PatientStream::new(rt, stream) else {
        return Err(ServeFault::Read);
    };
    let answers = JoinedAnswers {
        stream: &patient,
        waiting: RefCell::new(Vec::new(rt.alloc())),
        failed: Cell::new(false),
    };
    let served = serve_joined(rt, &answers, keeper, shelf, clock);
    answers.write().map_err(|_| ServeFault::Write)?;
    served
}

/// Serves the requests of a socket that is set, whose answers wait for each other.
fn serve_joined<K: ChargeSource, C: Clock>(
    rt: &HostRuntime,
    answers: &JoinedAnswers<'_>,
    keeper: &mut K,
    shelf: &TariffShelf,
    clock: &mut C,
) -> Result<Served, ServeFault>
    ensures { ServesSocket shelf.now (K.seen keeper.old) (K.seen keeper.new) result }
{
    let coming = Cell::new(Coming::Nothing);
    let mut reader = PatientReader {
        rt: *rt,
        coming: &coming,
        answers,
    };
    let mut writer = PatientWriter {
        coming: &coming,
        answers,
    };
    serve(rt.alloc(), &mut reader, &mut writer, keeper, shelf, clock)
}
