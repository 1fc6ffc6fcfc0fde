//! Members written as tokens.

ghost use Rattle.std.specs.Prelude.{◌≡◌, ◌≤◌, [], IfSome, OnOk, option_map, string_bytes};
ghost use Rattle.units.specs.Words.{latest_moment};
ghost use Rattle.serde_json.specs.Data.{Data, string};
ghost use Rattle.serde_json.specs.Written.{compact_text};
ghost use Rattle.json_fields.specs.Spelling.{whole, value_data, money_data};
ghost use Rattle.json_fields.specs.Tokens.{Adds, tokens_of, member_tokens, perhaps_tokens};

use commands::Avp;
use json::Writer;
use std::alloc::AllocError;
use units::Moment;

/// Writes a member that is a whole number.
///
/// # Errors
/// Out of memory.
pub fn put_number(out: &mut Writer, name: &str, n: u64) -> Result<(), AllocError>
    ensures { Adds result out.old out.new (member_tokens name.now (whole n)) }
{
    out.key(name)?;
    out.u64(n)?;
    Ok(())
}

/// Writes a member that is a whole number, where there is one.
///
/// # Errors
/// Out of memory.
pub fn put_perhaps(out: &mut Writer, name: &str, n: Option<u64>) -> Result<(), AllocError>
    ensures { Adds result out.old out.new (perhaps_tokens name.now (option_map whole n)) }
{
    match n {
        None => Ok(()),
        Some(n) => put_number(out, name, n),
    }
}

/// Writes a member that is a moment, where there is one.
///
/// # Errors
/// Out of memory.
pub fn put_moment(out: &mut Writer, name: &str, moment: Option<Moment>) -> Result<(), AllocError>
    ensures adds { Adds result out.old out.new (perhaps_tokens name.now (option_map whole moment)) }
    ensures rule { OnOk result (IfSome moment (λ m. m ≤ latest_moment)) }
{
    let Some(moment) = moment else {
        return Ok(());
    };
    put_number(out, name, moment.seconds())
}

/// Writes a member that is a text.
///
/// # Errors
/// Out of memory.
pub fn put_text(out: &mut Writer, name: &str, text: &str) -> Result<(), AllocError>
    ensures { Adds result out.old out.new (member_tokens name.now (string text.now)) }
{
    out.key(name)?;
    out.string(text)?;
    Ok(())
}

#[tactic(auto, unfolding(crate::specs::Spelling::value_data))]
fn put_value(out: &mut Writer, micros: u64) -> Result<(), AllocError>
    ensures { Adds result out.old out.new (tokens_of (value_data micros)) }
{
    out.begin_object()?;
    out.key(Avp::Exponent.name())?;
    out.i64(-6)?;
    put_number(out, Avp::ValueDigits.name(), micros)?;
    out.end_object()?;
    Ok(())
}

/// Writes micro-units of a currency as a value (CC-Money, RFC 8506 section 8.22).
///
/// # Errors
/// Out of memory.
#[tactic(auto, unfolding(crate::specs::Spelling::money_data))]
pub fn put_money(out: &mut Writer, micros: u64, currency: u16) -> Result<(), AllocError>
    ensures { Adds result out.old out.new (tokens_of (money_data micros currency)) }
{
    out.begin_object()?;
    put_number(out, Avp::CurrencyCode.name(), currency as u64)?;
    out.key(Avp::UnitValue.name())?;
    put_value(out, micros)?;
    out.end_object()?;
    Ok(())
}

/// The text of the value that a new writer wrote.
#[tactic(auto, using(crate::proofs::Tokens::printed))]
pub fn text_of(out: Writer) -> String
    requires { out.before ≡ [] }
    ensures { (d : Data) → out.tokens ≡ tokens_of d → string_bytes result ≡ compact_text d }
{
    let bytes = out.into_inner();
    unsafe { String::from_utf8_unchecked(bytes) }
}
