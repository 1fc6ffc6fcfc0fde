//! Why an operator's command wasn't done or answered.

ghost use Rattle.std.specs.Prelude.{◌≡◌};
ghost use Rattle.operations.specs.Told.{about_office, store_line, stream_line};

use keepers::StoreFault;
use texts::StreamFault;
use thiserror::Error;

/// Why an operator's command wasn't done, or its answer not printed.
#[derive(Clone, Copy, Debug, Drop, Error, PartialEq, Eq)]
pub enum OfficeFault {
    /// The keeper didn't do what it was asked: nothing has changed, but of vouchers a beginning was
    /// added.
    #[error("store fault {}", .0.number())]
    Store(StoreFault),
    /// The command was carried out, and its answer isn't written to its end.
    #[error("the answer was not written: {0}")]
    Write(StreamFault),
}

impl OfficeFault {
    /// The line that reports it on standard error, without its number and its line feed.
    pub fn line(self) -> &'static str
        ensures { result.now ≡ (about_office self).line }
    {
        match self {
            OfficeFault::Store(_) => store_line(),
            OfficeFault::Write(fault) => stream_line(fault),
        }
    }

    /// Its number, where it has one.
    pub fn number(self) -> Option<u8>
        ensures { result ≡ (about_office self).number }
    {
        match self {
            OfficeFault::Store(fault) => Some(fault.number()),
            OfficeFault::Write(_) => None,
        }
    }
}

impl From<StoreFault> for OfficeFault {
    ghost use Rattle.operations.specs.declared.fault.OfficeFault.TheVariants.{Store};

    ghost from_gives = { λ fault e. e ≡ Store fault };

    fn from(fault: StoreFault) -> OfficeFault {
        OfficeFault::Store(fault)
    }
}

impl From<StreamFault> for OfficeFault {
    ghost use Rattle.operations.specs.declared.fault.OfficeFault.TheVariants.{Write};

    ghost from_gives = { λ fault e. e ≡ Write fault };

    fn from(fault: StreamFault) -> OfficeFault {
        OfficeFault::Write(fault)
    }
}

/// The line that reports a fault of a store, without its number and its line feed.
pub fn store_line() -> &'static str
    ensures { result.now ≡ store_line }
{
    "ocs: store fault"
}

/// The line that reports a fault of a stream, without its line feed. It has no number.
pub fn stream_line(fault: StreamFault) -> &'static str
    ensures { result.now ≡ stream_line fault }
{
    match fault {
        StreamFault::Memory => "ocs: memory fault",
        StreamFault::Read => "ocs: file fault",
        StreamFault::Write => "ocs: file fault",
    }
}
