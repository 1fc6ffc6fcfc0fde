//! A socket that waits for its peer, but not for ever.

ghost use Rattle.std.specs.Prelude.{◌≡◌, ◌-◌, ◌*◌, ◌<◌, min, MatchOption};
ghost use Rattle.std.specs.Duration.{as_nanos};
ghost use Rattle.http_api.specs.Words.{socket_seconds};

use std::cell::Cell;
use std::io::{self, ErrorKind, Read, Write};
use std::net::TcpStream;
use std::time::{Duration, Instant};

/// How long a read or a write of a socket may take, in seconds (profile).
pub const SOCKET_SECONDS: u64 = 30;

/// How long all reads and writes of a connection may take together, in seconds (profile): those
/// that wait for a request, within one, and for room for an answer. A peer that asks four times a
/// second comes to its last request first; the connection of one that asks less often ends while it
/// is idle.
pub const CONNECTION_SECONDS: u64 = 300;

/// A socket with how long its reads and writes may still take, and how long one of them may, as it
/// is set. What is done between them isn't counted. Reads leave the last 30 seconds to writes, so
/// that what a request that was read is answered finds time to leave.
#[derive(Drop)]
pub(crate) struct PatientStream<'s> {
    rt: HostRuntime,
    stream: &'s TcpStream,
    left: Cell<Duration>,
    longest: Cell<Duration>,
}

impl<'s> PatientStream<'s> {
    /// A socket of a new connection, whose writes leave without delay.
    pub(crate) fn new(rt: &HostRuntime, stream: &'s TcpStream) -> io::Result<PatientStream<'s>> {
        let longest = Duration::from_secs(SOCKET_SECONDS);
        stream.set_nodelay(true)?;
        let patient = PatientStream {
            rt: *rt,
            stream,
            left: Cell::new(Duration::from_secs(CONNECTION_SECONDS)),
            longest: Cell::new(longest),
        };
        patient.set_longest(longest)?;
        Ok(patient)
    }

    /// Sets how long a read or a write may take.
    fn set_longest(&self, longest: Duration) -> io::Result<()> {
        self.stream.set_read_timeout(Some(longest))?;
        self.stream.set_write_timeout(Some(longest))?;
        self.longest.set(longest);
        Ok(())
    }

    /// The moment at which a read or a write begins, which may take no longer than what is left
    /// beside what is kept.
    fn begin(&self, kept: Duration) -> io::Result<Instant> {
        let Some(longest) = next_wait(left_after(self.left.get(), kept)) else {
            return Err(io::Error::from(ErrorKind::TimedOut));
        };
        if longest != self.longest.get() {
            self.set_longest(longest)?;
        }
        Instant::now(&self.rt)
    }

    /// Counts a read or a write that began at that moment.
    fn end(&self, begun: Instant) -> io::Result<()> {
        let taken = begun.elapsed(&self.rt)?;
        self.left.set(left_after(self.left.get(), taken));
        Ok(())
    }
}

/// How long the next read or write may take, of what is left for all; nothing if nothing is left.
// rule: http-waiting
fn next_wait(left: Duration) -> Option<Duration>
    ensures { MatchOption result (as_nanos left ≡ 0)
        (λ wait. (0 < as_nanos wait) × (as_nanos wait ≡ min (as_nanos left) (socket_seconds * 1_000_000_000))) }
{
    let longest = Duration::from_secs(SOCKET_SECONDS);
    if left.is_zero() {
        return None;
    }
    match left.checked_sub(longest) {
        Some(_) => Some(longest),
        None => Some(left),
    }
}

/// What is left after a read or a write that took so long.
// rule: http-waiting
fn left_after(left: Duration, taken: Duration) -> Duration
    ensures { as_nanos result ≡ as_nanos left - as_nanos taken }
{
    left.saturating_sub(taken)
}

impl<'s> Read for &PatientStream<'s> {
    fn read(&mut self, buf: &mut [u8]) -> io::Result<usize> {
        let begun = self.begin(Duration::from_secs(SOCKET_SECONDS))?;
        let mut stream = self.stream;
        let count = stream.read(buf)?;
        self.end(begun)?;
        Ok(count)
    }
}

impl<'s> Write for &PatientStream<'s> {
    fn write(&mut self, buf: &[u8]) -> io::Result<usize> {
        let begun = self.begin(Duration::ZERO)?;
        let mut stream = self.stream;
        let count = stream.write(buf)?;
        self.end(begun)?;
        Ok(count)
    }

    fn flush(&mut self) -> io::Result<()> {
        Ok(())
    }
}
