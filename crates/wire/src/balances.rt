//! Balances as JSON.

ghost use Rattle.std.specs.Prelude.{◌≡◌, ◌≤◌, IfSome, OnOk};
ghost use Rattle.std.specs.List.{AllByRecursion};
ghost use Rattle.units.specs.Words.{greatest_number, most_of_64_bits};
ghost use Rattle.serde_json.specs.Data.{array, boolean};
ghost use Rattle.commands.specs.Names.{buckets, unit};
ghost use Rattle.json_fields.specs.Spelling.{whole};
ghost use Rattle.json_fields.specs.Tokens.{Adds, tokens_of, item_tokens, member_tokens};
ghost use Rattle.json_fields.specs.Tokens.{perhaps_tokens};
ghost use Rattle.wire.specs.SpelledBalances.{balance_data, bucket_data, bucket_items, unit_data};
ghost use Rattle.wire.specs.Rules.{IsAccountBalance, IsBucketBalance};

use commands::names::{
    ACCOUNT, AVAILABLE, BARRED, BLOCKS_UNIT, BUCKETS, CHARGED, CREDITED, EXPIRED, MOMENT, NUMBER,
    RESERVED, UNIT,
};
use commands::{AccountBalance, Avp, BucketBalance, BucketBalances, BucketUnit};
use json::Writer;
use json_fields::{put_number, put_perhaps, put_text};
use std::alloc::AllocError;

fn put_flag(out: &mut Writer, name: &str, flag: bool) -> Result<(), AllocError>
    ensures { Adds result out.old out.new (member_tokens name.now (boolean flag)) }
{
    out.key(name)?;
    out.boolean(flag)?;
    Ok(())
}

fn put_amount(out: &mut Writer, name: &str, amount: u64) -> Result<(), AllocError>
    ensures adds { Adds result out.old out.new (member_tokens name.now (whole amount)) }
    ensures rule { amount ≤ most_of_64_bits }
{
    put_number(out, name, amount)
}

fn scope_of(bucket: &BucketBalance) -> Option<u64>
    ensures value { result ≡ bucket.now.scope }
    ensures within { IfSome result (λ g. g ≤ greatest_number) }
{
    match bucket.scope {
        None => None,
        Some(group) => Some(group as u64),
    }
}

// rule: balance-text
fn put_unit(out: &mut Writer, counted: BucketUnit) -> Result<(), AllocError>
    ensures { Adds result out.old out.new (perhaps_tokens unit (unit_data counted)) }
{
    match counted {
        BucketUnit::MicroUnits => Ok(()),
        BucketUnit::Blocks => put_text(out, UNIT, BLOCKS_UNIT),
    }
}

// rule: balance-text
#[tactic(auto, using(json_fields::proofs::Tokens::perhaps_front), unfolding(crate::specs::SpelledBalances::bucket_data))]
fn put_bucket(out: &mut Writer, bucket: &BucketBalance) -> Result<(), AllocError>
    ensures adds { Adds result out.old out.new (tokens_of (bucket_data bucket.now)) }
    ensures rule { OnOk result (IsBucketBalance bucket.now) }
{
    out.begin_object()?;
    put_amount(out, AVAILABLE, bucket.available)?;
    put_amount(out, CHARGED, bucket.charged)?;
    put_amount(out, CREDITED, bucket.credited)?;
    put_amount(out, EXPIRED, bucket.expired)?;
    put_number(out, Avp::From.name(), bucket.from.seconds())?;
    put_number(out, NUMBER, bucket.number as u64)?;
    put_amount(out, RESERVED, bucket.reserved)?;
    put_perhaps(out, Avp::Scope.name(), scope_of(bucket))?;
    put_unit(out, bucket.unit)?;
    put_number(out, Avp::Until.name(), bucket.until.seconds())?;
    out.end_object()?;
    Ok(())
}

fn put_buckets(out: &mut Writer, list: &[BucketBalance]) -> Result<(), AllocError>
    ensures adds { Adds result out.old out.new (item_tokens (bucket_items list.now)) }
    ensures rule { OnOk result (AllByRecursion IsBucketBalance list.now) }
{
    for bucket in list {
        put_bucket(out, bucket)?;
    }
    Ok(())
}

fn put_array(out: &mut Writer, list: &BucketBalances) -> Result<(), AllocError>
    ensures adds { Adds result out.old out.new
        (member_tokens buckets (array (bucket_items list.now))) }
    ensures rule { OnOk result (AllByRecursion IsBucketBalance list.now) }
{
    out.key(BUCKETS)?;
    out.begin_array()?;
    put_buckets(out, list.as_slice())?;
    out.end_array()?;
    Ok(())
}

/// The text of a balance.
#[tactic(auto, unfolding(crate::specs::SpelledBalances::balance_data))]
pub(crate) fn put_balance(out: &mut Writer, balance: &AccountBalance) -> Result<(), AllocError>
    ensures adds { Adds result out.old out.new (tokens_of (balance_data balance.now)) }
    ensures rule { OnOk result (IsAccountBalance balance.now) }
{
    out.begin_object()?;
    put_text(out, ACCOUNT, balance.account.as_str())?;
    put_flag(out, BARRED, balance.barred)?;
    put_array(out, &balance.buckets)?;
    put_number(out, MOMENT, balance.moment.seconds())?;
    out.end_object()?;
    Ok(())
}
