//! A number as it is written.

ghost use Rattle.std.specs.Prelude.{◌≡◌};
ghost use Rattle.std.specs.List.{list_all};
ghost use Rattle.std.specs.Char.{is_ascii_digit};
ghost use Rattle.texts.specs.Numbers.{number_of};

/// The most digits of a number: its value fits 64 bits.
const MOST_DIGITS: usize = 16;

fn is_digits(text: &str) -> bool
    ensures { result ≡ list_all is_ascii_digit text.now }
{
    text.as_bytes().iter().all(|b| b.is_ascii_digit())
}

/// The number that a word says: 1 to 16 digits without a sign; None for any other word.
// rule: written-numbers
pub fn number(text: &str) -> Option<u64>
    ensures { result ≡ number_of text.now }
{
    if text.is_empty() || text.len() > MOST_DIGITS || !is_digits(text) {
        return None;
    }
    text.parse::<u64>().ok()
}
