//! A socket that doesn't wait for a request that comes byte by byte, and whose answers leave
//! together where more requests have come already.

use crate::joining::{join, write_waiting};
use crate::patient_stream::PatientStream;
use std::cell::{Cell, RefCell};
use std::io::{self, ErrorKind, Read, Write};
use std::time::{Duration, Instant};

/// How long the bytes of a request may take from its first ones, in seconds (profile). Of a request
/// whose first bytes came together with the one before they are counted from the next ones.
pub const REQUEST_SECONDS: u64 = 60;

/// The answers of a socket that aren't written yet, and whether a write of them failed.
#[derive(Drop)]
pub(crate) struct JoinedAnswers<'s> {
    pub(crate) stream: &'s PatientStream<'s>,
    pub(crate) waiting: RefCell<Vec<u8>>,
    pub(crate) failed: Cell<bool>,
}

/// How far a request has come.
#[derive(Clone, Copy)]
pub(crate) enum Coming {
    /// Nothing was read since the last answer.
    Nothing,
    /// Bytes were read once.
    Begun,
    /// More bytes were asked for since this moment.
    Since(Instant),
}

/// What is read of a socket, with how far a request has come since the last answer. A read fails
/// once its bytes have taken longer than they may. Most requests come by one read, whose beginning
/// isn't noted. The answers that wait are written before a read: the peer may wait for them,
/// too.
#[derive(Drop)]
pub(crate) struct PatientReader<'s, 'b> {
    pub(crate) rt: HostRuntime,
    pub(crate) coming: &'b Cell<Coming>,
    pub(crate) answers: &'b JoinedAnswers<'s>,
}

/// What is written to that socket: it waits until it is flushed, or the socket is read again, or
/// there is no room for more. After it the next request may begin.
#[derive(Drop)]
pub(crate) struct PatientWriter<'s, 'b> {
    pub(crate) coming: &'b Cell<Coming>,
    pub(crate) answers: &'b JoinedAnswers<'s>,
}

impl<'s> JoinedAnswers<'s> {
    ghost use Rattle.std.specs.Prelude.{◌≡◌, length, IfOk};

    /// Adds bytes to those that wait, and answers how many there are; where they find no room, all
    /// are written.
    fn add(&self, bytes: &[u8]) -> io::Result<usize>
        ensures { IfOk result (λ count. count ≡ length bytes.now) }
    {
        let Ok(mut waiting) = self.waiting.try_borrow_mut() else {
            return Err(io::Error::from(ErrorKind::Other));
        };
        let mut stream = self.stream;
        join(&mut stream, &mut waiting, bytes).map_err(|_| self.failure())?;
        Ok(bytes.len())
    }

    /// Writes those that wait; no more once a write failed.
    pub(crate) fn write(&self) -> io::Result<()> {
        if self.failed.get() {
            return Err(io::Error::from(ErrorKind::Other));
        }
        let Ok(mut waiting) = self.waiting.try_borrow_mut() else {
            return Err(io::Error::from(ErrorKind::Other));
        };
        let mut stream = self.stream;
        write_waiting(&mut stream, &mut waiting).map_err(|_| self.failure())
    }

    /// Sees that a write failed.
    fn failure(&self) -> io::Error {
        self.failed.set(true);
        io::Error::from(ErrorKind::Other)
    }
}

impl<'s, 'b> PatientReader<'s, 'b> {
    /// Whether the request that is being read has taken longer than it may, where bytes of it were
    /// read before.
    fn is_late(&self) -> io::Result<bool> {
        match self.coming.get() {
            Coming::Nothing => Ok(false),
            Coming::Begun => {
                self.coming.set(Coming::Since(Instant::now(&self.rt)?));
                Ok(false)
            }
            Coming::Since(begun) => {
                Ok(begun.elapsed(&self.rt)? > Duration::from_secs(REQUEST_SECONDS))
            }
        }
    }

    /// Sees that bytes of a request have come.
    fn begin(&self) {
        if let Coming::Nothing = self.coming.get() {
            self.coming.set(Coming::Begun);
        }
    }
}

impl<'s, 'b> Read for PatientReader<'s, 'b> {
    fn read(&mut self, buf: &mut [u8]) -> io::Result<usize> {
        if self.is_late()? {
            return Err(io::Error::from(ErrorKind::TimedOut));
        }
        self.answers.write()?;
        let count = (&mut &*self.answers.stream).read(buf)?;
        self.begin();
        Ok(count)
    }
}

impl<'s, 'b> Write for PatientWriter<'s, 'b> {
    fn write(&mut self, buf: &[u8]) -> io::Result<usize> {
        self.coming.set(Coming::Nothing);
        self.answers.add(buf)
    }

    fn flush(&mut self) -> io::Result<()> {
        self.answers.write()
    }
}
