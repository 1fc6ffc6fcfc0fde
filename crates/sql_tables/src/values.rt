//! Parameters of statements.

ghost use Rattle.std.specs.Prelude.{◌≡◌, ◌<◌, ◌≤◌, ◌^◌, pos, MatchResult, if◌then◌else◌};
ghost use Rattle.sqlite.specs.Values.{bound_value, or_null};
ghost use Rattle.sqlite_value.specs.Value.{owned};
ghost use Rattle.sqlite_value.specs.declared.value.Value.TheVariants.{Int, Null, Text};

use sqlite::Error;
use sqlite::types::ValueRef;

/// A text as a statement's parameter.
pub fn text(words: &str) -> ValueRef<'_>
    ensures { owned result ≡ Text words.now }
{
    ValueRef::Text(words.as_bytes())
}

/// NULL as a statement's parameter.
pub fn null<'a>() -> ValueRef<'a>
    ensures { owned result ≡ Null }
{
    ValueRef::Null
}

/// A number as a statement's parameter.
pub fn whole<'a>(number: u32) -> ValueRef<'a>
    ensures { owned result ≡ Int (pos number) }
{
    ValueRef::Int(i64::from(number))
}

/// 1 for true and 0 for false, as a statement's parameter.
// rule: statements-of-tables
pub fn flag<'a>(is_set: bool) -> ValueRef<'a>
    ensures { owned result ≡ Int (pos (if is_set then 1 else 0)) }
{
    if is_set {
        ValueRef::Int(1)
    } else {
        ValueRef::Int(0)
    }
}

/// A number that SQL's integers have, as a statement's parameter.
pub fn large<'a>(number: u64) -> ValueRef<'a>
    requires { number < 2 ^ 63 }
    ensures { owned result ≡ Int (pos number) }
{
    ValueRef::Int(number as i64)
}

/// A number as the parameter of this place.
///
/// # Errors
/// `IntegralValueOutOfRange`, of the place, where the number is 2^63 or more: SQL's integers don't
/// have it.
pub fn checked<'a>(number: u128, place: usize) -> Result<ValueRef<'a>, Error>
    ensures { MatchResult result (λ value. owned value ≡ Int (pos number)) (λ _. 2 ^ 63 ≤ number) }
{
    let Ok(number) = i64::try_from(number) else {
        return Err(Error::IntegralValueOutOfRange(place));
    };
    Ok(ValueRef::Int(number))
}

/// A number or NULL as a statement's parameter.
// rule: statements-of-tables
pub fn optional<'a>(number: Option<u32>) -> ValueRef<'a>
    ensures { bound_value (owned result) ≡ or_null (λ n. Int (pos n)) number }
{
    match number {
        Some(n) => ValueRef::Int(i64::from(n)),
        None => ValueRef::Null,
    }
}
