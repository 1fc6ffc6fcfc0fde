//! Why lines weren't answered to their end.

ghost use Rattle.std.specs.Prelude.{◌≡◌};
ghost use Rattle.operations.specs.LinesFaults.{about_lines};

use crate::fault::{store_line, stream_line};
use keepers::StoreFault;
use std::alloc::AllocError;
use texts::StreamFault;
use thiserror::Error;

/// Why lines weren't answered to their end: how far it came, and what failed there.
#[derive(Clone, Copy, Debug, Drop, Error, PartialEq, Eq)]
pub enum LinesFault {
    /// The lines weren't read: nothing is accepted, and nothing is written.
    #[error("the lines were not read: {0}")]
    Read(StreamFault),
    /// The keeper didn't do what it was asked: the answers before that are written.
    #[error("store fault {}", .0.number())]
    Store(StoreFault),
    /// The keeper didn't do what it was asked, and the answers before that aren't written to their
    /// end.
    #[error("store fault {}, and the answers were not written", .0.number())]
    Both(StoreFault),
    /// All was done that was asked, and the answers weren't written to their end.
    #[error("the answers were not written: {0}")]
    Write(StreamFault),
}

impl LinesFault {
    /// The line that reports it on standard error, without its number and its line feed.
    pub fn line(self) -> &'static str
        ensures { result.now ≡ (about_lines self).line }
    {
        match self {
            LinesFault::Read(fault) => stream_line(fault),
            LinesFault::Store(_) => store_line(),
            LinesFault::Both(_) => store_line(),
            LinesFault::Write(fault) => stream_line(fault),
        }
    }

    /// Its number, where it has one.
    pub fn number(self) -> Option<u8>
        ensures { result ≡ (about_lines self).number }
    {
        match self {
            LinesFault::Read(_) => None,
            LinesFault::Store(fault) => Some(fault.number()),
            LinesFault::Both(fault) => Some(fault.number()),
            LinesFault::Write(_) => None,
        }
    }
}

impl From<AllocError> for LinesFault {
    ghost use Rattle.std.specs.Prelude.{◌≡◌};
    ghost use Rattle.operations.specs.LinesFaults.{before_reading};

    ghost from_gives = { λ _ e. e ≡ before_reading };

    fn from(_error: AllocError) -> LinesFault {
        LinesFault::Read(StreamFault::Memory)
    }
}

impl From<StreamFault> for LinesFault {
    ghost use Rattle.std.specs.Prelude.{◌≡◌};
    ghost use Rattle.operations.specs.declared.lines_fault.LinesFault.TheVariants.{Read};

    ghost from_gives = { λ fault e. e ≡ Read fault };

    /// One of reading the lines, as each is that `?` hands on.
    fn from(fault: StreamFault) -> LinesFault {
        LinesFault::Read(fault)
    }
}
