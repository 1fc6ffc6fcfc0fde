//! A line with a moment in front.

ghost use Rattle.std.specs.Prelude.{◌≡◌};
ghost use Rattle.operator.specs.Lines.{moment_said, IsDated};

use texts::number;
use units::Moment;

/// A line of dated requests: when its command came, and the command's text.
#[derive(Clone, Copy)]
pub struct DatedLine<'a> {
    /// When the command came, 0 to 4,102,444,799 seconds since 1970.
    pub moment: Moment,
    /// The text of the command: the rest of the line after the space.
    pub body: &'a str,
}

/// The moment and the body of a line: a moment of 1 to 10 digits, of a command (0 to
/// 4,102,444,799), one space, and the rest. None for any other line.
// rule: written-numbers, dated-lines
pub fn dated_line<'a>(line: &'a str) -> Option<DatedLine<'a>>
    ensures { IsDated line.entry.now result }
{
    let (digits, body) = line.split_once(' ')?;
    let moment = moment(digits)?;
    Some(DatedLine { moment, body })
}

/// The moment of a command that 1 to 10 digits say.
fn moment(digits: &str) -> Option<Moment>
    ensures { result ≡ moment_said digits.now }
{
    if digits.len() > 10 {
        return None;
    }
    Moment::of_command(number(digits)?)
}
