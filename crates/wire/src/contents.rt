//! What is kept of a command, as a text.

ghost use Rattle.std.specs.Prelude.{◌≡◌, IfOk, Ok, string_bytes};
ghost use Rattle.serde_json.specs.Find.{get};
ghost use Rattle.commands.specs.Names.{name_of};
ghost use Rattle.commands.specs.Keys.{account_of};
ghost use Rattle.json_fields.specs.Gives.{Gives};
ghost use Rattle.json_fields.specs.View.{view};
ghost use Rattle.wire.specs.Credits.{credit_data};
ghost use Rattle.wire.specs.Allowances.{allowance_data};
ghost use Rattle.wire.specs.Redeemed.{redemption_data};
ghost use Rattle.wire.specs.Contents.{content_text, content_of, request_content_in};
ghost use Rattle.wire.specs.Contents.{credit_content_in, allowance_content_in};
ghost use Rattle.wire.specs.Contents.{redemption_content_in, given_content_when};
ghost use Rattle.wire.specs.Contents.{operator_content_when, content_when};
ghost use Rattle.wire.specs.Contents.{ContentsReadAgain, ReadsContent};
ghost use Rattle.wire.specs.Contents.{CreditsAreInOrder};
ghost use Rattle.wire.specs.Contents.{AllowancesAreInOrder, RedemptionsAreInOrder};

use crate::allowances::{allowance_in, allowance_written};
use crate::credits::{credit_in, credit_written};
use crate::redeeming::{kept_redemption_in, redemption_written};
use commands::{Allowance, Avp, Content, KeptCredit, Request, VoucherRedemption};
use identifiers::AccountNumber;
use json_fields::{Scratch, Tree, WireFault, document, get, is_text};
use std::alloc::{AllocError, Global};
use wire_requests::{request, write_request};

fn write_credit(alloc: Global, credit: &KeptCredit) -> Result<String, AllocError>
    ensures text { IfOk result (λ s. string_bytes s ≡ content_text (Content.Credit credit.now)) }
    ensures read_again { IfOk result
        (λ s. content_of credit.now.account (string_bytes s) ≡ Ok (Content.Credit credit.now)) }
{
    let text = credit_written(alloc, credit)?;
    Ok(text)
}

fn write_allowance(alloc: Global, allowance: &Allowance) -> Result<String, AllocError>
    ensures text { IfOk result (λ s. string_bytes s ≡ content_text (Content.Allow allowance.now)) }
    ensures read_again { IfOk result
        (λ s. content_of allowance.now.account (string_bytes s)
        ≡ Ok (Content.Allow allowance.now)) }
{
    let text = allowance_written(alloc, allowance)?;
    Ok(text)
}

fn write_kept_request(alloc: Global, request: &Request) -> Result<String, AllocError>
    ensures text { IfOk result (λ s. string_bytes s ≡ content_text (Content.Request request.now)) }
    ensures read_again { IfOk result
        (λ s. content_of request.now.account (string_bytes s) ≡ Ok (Content.Request request.now)) }
{
    let text = write_request(alloc, request)?;
    Ok(text)
}

fn write_redemption(alloc: Global, redemption: &VoucherRedemption) -> Result<String, AllocError>
    ensures text { IfOk result
        (λ s. string_bytes s ≡ content_text (Content.Redeem redemption.now)) }
    ensures read_again { IfOk result
        (λ s. content_of redemption.now.account (string_bytes s)
        ≡ Ok (Content.Redeem redemption.now)) }
{
    let text = redemption_written(alloc, redemption)?;
    Ok(text)
}

/// The text that is kept of an accepted command: of a request its text, of a credit or an allowance
/// its body, of a redemption its body with its voucher's code, as compact JSON with the members in
/// the byte order of their names. It is read again as the same content.
///
/// # Errors
/// Out of memory.
pub fn write_content(alloc: Global, content: &Content) -> Result<String, AllocError>
    ensures text { IfOk result (λ s. string_bytes s ≡ content_text content.now) }
    ensures read_again { IfOk result
        (λ s. content_of (account_of content.now) (string_bytes s) ≡ Ok content.now) }
{
    match content {
        Content::Request(request) => write_kept_request(alloc, request),
        Content::Credit(credit) => write_credit(alloc, credit),
        Content::Allow(allowance) => write_allowance(alloc, allowance),
        Content::Redeem(redemption) => write_redemption(alloc, redemption),
    }
}

#[tactic(auto, unfolding(crate::specs::Contents::request_content_in))]
fn request_content(
    alloc: Global,
    account: AccountNumber,
    parent: &Tree<'_>,
) -> Result<Content, WireFault>
    ensures { Gives (λ c. c) result (request_content_in account (view parent.now)) }
{
    let request = request(alloc, parent)?;
    if request.account == account {
        Ok(Content::Request(request))
    } else {
        Err(WireFault::Invalid(Avp::SubscriptionIdData))
    }
}

#[tactic(auto, using(crate::proofs::ContentsAgain::credit_some), unfolding(crate::specs::Contents::credit_content_in))]
fn credit_content(
    alloc: Global,
    account: AccountNumber,
    parent: &Tree<'_>,
) -> Result<Content, WireFault>
    ensures { Gives (λ c. c) result (credit_content_in account (view parent.now)) }
{
    let credit = credit_in(alloc, account, parent)?;
    Ok(Content::Credit(KeptCredit::new(credit)))
}

#[tactic(auto, unfolding(crate::specs::Contents::allowance_content_in))]
fn allowance_content(
    alloc: Global,
    account: AccountNumber,
    parent: &Tree<'_>,
) -> Result<Content, WireFault>
    ensures { Gives (λ c. c) result (allowance_content_in account (view parent.now)) }
{
    Ok(Content::Allow(allowance_in(alloc, account, parent)?))
}

#[tactic(auto, unfolding(crate::specs::Contents::redemption_content_in))]
fn redemption_content(
    alloc: Global,
    account: AccountNumber,
    parent: &Tree<'_>,
) -> Result<Content, WireFault>
    ensures { Gives (λ c. c) result (redemption_content_in account (view parent.now)) }
{
    let redemption = kept_redemption_in(alloc, parent)?;
    if redemption.account == account {
        Ok(Content::Redeem(redemption))
    } else {
        Err(WireFault::Invalid(Avp::SubscriptionIdData))
    }
}

/// What a kept object without a Voucher-Code is, by the member that is there.
fn given_content(
    alloc: Global,
    account: AccountNumber,
    parent: &Tree<'_>,
) -> Result<Content, WireFault>
    ensures { Gives (λ c. c) result
        (given_content_when account (view parent.now)
        (get (name_of Avp.Blocks) (view parent.now))) }
{
    match get(parent, Avp::Blocks.name()) {
        Some(_) => allowance_content(alloc, account, parent),
        None => credit_content(alloc, account, parent),
    }
}

/// What a kept object of an operator's command is, by the member that is there.
fn operator_content(
    alloc: Global,
    account: AccountNumber,
    parent: &Tree<'_>,
) -> Result<Content, WireFault>
    ensures { Gives (λ c. c) result
        (operator_content_when account (view parent.now)
        (get (name_of Avp.VoucherCode) (view parent.now))) }
{
    match get(parent, Avp::VoucherCode.name()) {
        Some(_) => redemption_content(alloc, account, parent),
        None => given_content(alloc, account, parent),
    }
}

/// What a kept object of this account is, by the member that is there.
fn content_in(
    alloc: Global,
    account: AccountNumber,
    parent: &Tree<'_>,
) -> Result<Content, WireFault>
    ensures { Gives (λ c. c) result
        (content_when account (view parent.now) (get (name_of Avp.SessionId) (view parent.now))) }
{
    match get(parent, Avp::SessionId.name()) {
        Some(_) => request_content(alloc, account, parent),
        None => operator_content(alloc, account, parent),
    }
}

#[tactic(auto, unfolding(crate::specs::Contents::content_of))]
fn content(
    alloc: Global,
    account: AccountNumber,
    bytes: &[u8],
    scratch: &mut Scratch,
) -> Result<Content, WireFault>
    ensures { Gives (λ c. c) result (content_of account bytes.now) }
{
    let parent = document(bytes, scratch)?;
    content_in(alloc, account, &parent)
}

/// The content of this account whose text the bytes are, as `write_content` writes it.
///
/// # Errors
/// The first fault of the request, where the text has a Session-Id; else of the redemption, where
/// it has a Voucher-Code; else of the allowance, where it has Blocks; else of the credit.
/// `NotRequest` also where the bytes say a content and aren't its text. `Memory` where memory ran
/// out.
// rule: kept-content.reads-content
pub fn read_content(
    alloc: Global,
    account: AccountNumber,
    bytes: &[u8],
) -> Result<Content, WireFault>
    ensures { ReadsContent account bytes.now result }
{
    let mut scratch = Scratch::new(alloc);
    read_content_with(alloc, account, bytes, &mut scratch)
}

/// What `read_content` gives, read with memory that is lent, for many texts one after another: new
/// memory is cleared before it is used. Whatever was read with it before, the text alone decides.
///
/// # Errors
/// Those of `read_content`.
// rule: kept-content.reads-content
pub fn read_content_with(
    alloc: Global,
    account: AccountNumber,
    bytes: &[u8],
    scratch: &mut Scratch,
) -> Result<Content, WireFault>
    ensures { ReadsContent account bytes.now result }
{
    let content = content(alloc, account, bytes, scratch)?;
    let text = write_content(alloc, &content)?;
    if is_text(&text, bytes) {
        Ok(content)
    } else {
        Err(WireFault::NotRequest)
    }
}

/// A content that is written is read again as the same content.
// rule: kept-content
#[tactic(auto, using(crate::proofs::ContentsAgain::contents_again))]
pub fn content_again()
    ensures { ContentsReadAgain content_text }
{}

/// The members of a credit as it is kept are in the byte order of their names.
// rule: kept-content.in-byte-order
#[tactic(auto, using(crate::proofs::ContentsAgain::credits_in_order))]
pub fn credit_in_order()
    ensures { CreditsAreInOrder credit_data }
{}

/// The members of an allowance as it is kept are in the byte order of their names.
// rule: kept-content.in-byte-order
#[tactic(auto, using(crate::proofs::AllowancesAgain::allowances_in_order))]
pub fn allowance_in_order()
    ensures { AllowancesAreInOrder allowance_data }
{}

/// The members of a redemption as it is kept are in the byte order of their names.
// rule: kept-content.in-byte-order
#[tactic(auto, using(crate::proofs::RedeemedAgain::redemptions_in_order))]
pub fn redemption_in_order()
    ensures { RedemptionsAreInOrder redemption_data }
{}
