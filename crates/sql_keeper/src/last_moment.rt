//! The last moment that a keeper knows, after a call that writes one.

ghost use Rattle.std.specs.Prelude.{◌≡◌, ◌==◌, nat_le, OnErr, OnOk};

use sql_tables::ReadFault;
use units::Moment;

/// The last moment after a call: that of the call where it answered, else the one before.
pub(crate) fn last_after<T>(made: &Result<T, ReadFault>, last: Moment, moment: Moment) -> Moment
    ensures made { OnOk made.now (result ≡ moment) }
    ensures kept { OnErr made.now (result ≡ last) }
{
    match made {
        Ok(_) => moment,
        Err(_) => last,
    }
}

/// Whether a moment is the last one that a keeper knows.
pub(crate) fn is_last(last: Moment, moment: Moment) -> bool
    ensures { result ≡ (last == moment) }
{
    last == moment
}

/// Whether a moment isn't before the last one that a keeper knows.
pub(crate) fn is_not_before(last: Moment, moment: Moment) -> bool
    ensures { result ≡ nat_le last moment }
{
    last.seconds() <= moment.seconds()
}
