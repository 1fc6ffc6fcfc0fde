//! Commands, and what is kept of them.

ghost use Rattle.std.specs.Prelude.{◌≡◌, ◌↔◌, ◌≤◌, IsSome, IfSome, IfOk, IsTrue, unwrap_or};
ghost use Rattle.units.specs.Words.{no_end, latest_command};
ghost use Rattle.commands.specs.Kept.{is_kept};
ghost use Rattle.commands.specs.Keys.{account_of, key_of, lent_key};

use crate::allowance::Allowance;
use crate::copies::{copy_allowance, copy_credit, copy_redemption, copy_request};
use crate::key::KeyRef;
use crate::request::Request;
use identifiers::{AccountNumber, Reference, VoucherCode};
use std::alloc::AllocError;
use std::marker::Model;
use units::{Moment, Money};
use voucher_rules::VoucherTerms;

/// From when a credit or an allowance can be used: a moment of a command, 0 to 4,102,444,799.
///
/// Contracts see the moment.
#[derive(Clone, Copy, Debug, PartialEq, Eq)]
pub struct CreditStart {
    moment: Moment,
}

impl Model for CreditStart {
    ghost use Rattle.std.specs.Prelude.{ℕ, ◌≤◌};
    ghost use Rattle.units.specs.Words.{latest_command};

    ghost Value = { ℕ };

    ghost view = { λ s. s.moment };

    ghost invariant = { λ s. s.moment ≤ latest_command };

    ghost inverse = { λ n. record { moment = n } };
}

impl CreditStart {
    /// The start at this moment; None from 4,102,444,800 on.
    pub fn new(moment: Moment) -> Option<CreditStart>
        ensures in_range { IsSome result ↔ (moment ≤ latest_command) }
        ensures value { IfSome result (λ s. s ≡ moment) }
    {
        if moment < Moment::no_end() {
            Some(CreditStart { moment })
        } else {
            None
        }
    }

    /// The moment.
    pub fn moment(self) -> Moment
        ensures value { result ≡ self }
        ensures in_range { result ≤ latest_command }
    {
        self.moment
    }
}

/// Until when a credit or an allowance can be used: 1 to 4,102,444,799, or 4,102,444,800, which is
/// "no end".
///
/// Contracts see the moment.
#[derive(Clone, Copy, Debug, PartialEq, Eq)]
pub struct CreditEnd {
    moment: Moment,
}

impl Model for CreditEnd {
    ghost use Rattle.std.specs.Prelude.{ℕ, ◌≤◌};
    ghost use Rattle.units.specs.Words.{no_end};

    ghost Value = { ℕ };

    ghost view = { λ e. e.moment };

    ghost invariant = { λ e. (1 ≤ e.moment) × (e.moment ≤ no_end) };

    ghost inverse = { λ n. record { moment = n } };
}

impl CreditEnd {
    /// The end at this moment; None at 0 and above 4,102,444,800.
    pub fn new(moment: Moment) -> Option<CreditEnd>
        ensures in_range { IsSome result ↔ ((1 ≤ moment) × (moment ≤ no_end)) }
        ensures value { IfSome result (λ e. e ≡ moment) }
    {
        if Moment::first() < moment && moment <= Moment::no_end() {
            Some(CreditEnd { moment })
        } else {
            None
        }
    }

    /// The moment.
    pub fn moment(self) -> Moment
        ensures value { result ≡ self }
        ensures in_range { (1 ≤ result) × (result ≤ no_end) }
    {
        self.moment
    }
}

/// A credit by an operator: a new bucket for the account.
#[derive(Clone, Debug, PartialEq, Eq)]
pub struct Credit {
    /// The account that gets the bucket.
    // rule: database-reads
    pub account: AccountNumber,
    /// What the bucket is opened with, in micro-units.
    pub amount: Money,
    /// From when it can be used; None: from the moment of the command.
    pub from: Option<CreditStart>,
    /// Until when it can be used; None: without an end.
    pub until: Option<CreditEnd>,
    /// The rating group that it pays for; None: all.
    pub scope: Option<u32>,
    /// The operator's name for it: a credit with the same reference is a repeat.
    pub reference: Reference,
}

// It is written out, so that a caller doesn't prove again how each part is dropped.
impl Drop for Credit {
    fn drop(self) {
        let Credit {
            account: _,
            amount: _,
            from: _,
            until: _,
            scope: _,
            reference: _,
        } = self;
    }
}

impl Credit {
    /// From when it can be used, as a command of this moment.
    pub fn from_at(&self, moment: Moment) -> Moment
        ensures { result ≡ unwrap_or self.now.from moment }
    {
        match self.from {
            None => moment,
            Some(start) => start.moment(),
        }
    }

    /// Whether it can be kept: a credit of nothing is refused.
    pub fn can_be_kept(&self) -> bool
        ensures { result ≡ is_kept self.now }
    {
        1 <= self.amount.micros()
    }

    /// Until when it can be used.
    pub fn end(&self) -> Moment
        ensures { result ≡ unwrap_or self.now.until no_end }
    {
        match self.until {
            None => Moment::no_end(),
            Some(end) => end.moment(),
        }
    }
}

/// A credit that was accepted: it is of 1 micro-unit or more.
///
/// Contracts see the credit.
#[derive(Clone, Debug)]
pub struct KeptCredit {
    credit: Credit,
}

// It is written out, so that a caller doesn't prove again how each part is dropped.
impl Drop for KeptCredit {
    fn drop(self) {
        let KeptCredit { credit: _ } = self;
    }
}

impl Model for KeptCredit {
    ghost use Rattle.std.specs.Prelude.{IsTrue};
    ghost use Rattle.commands.specs.declared.command.Credit.{Credit};
    ghost use Rattle.commands.specs.Kept.{is_kept};

    ghost Value = { Credit };

    ghost view = { λ k. k.credit };

    ghost invariant = { λ k. IsTrue (is_kept k.credit) };
}

impl KeptCredit {
    /// This credit.
    pub fn new(credit: Credit) -> KeptCredit
        requires { IsTrue (is_kept credit) }
        ensures { result ≡ credit }
    {
        KeptCredit { credit }
    }

    /// The credit.
    pub fn credit(&self) -> &Credit
        ensures value { result.now ≡ self.now }
        ensures rule { IsTrue (is_kept self.now) }
    {
        &self.credit
    }
}

impl PartialEq for KeptCredit {
    ghost use Rattle.std.specs.Cmp.{partial_equiv_from_equiv};
    ghost use Rattle.commands.specs.contracts.command.CreditEq.TheImpl.Laws.{laws-law};

    ghost eq = { ⟦<Credit as PartialEq>⟧.eq };

    ghost laws = { partial_equiv_from_equiv laws-law };

    fn eq(&self, other: &KeptCredit) -> bool {
        self.credit == other.credit
    }
}

impl Eq for KeptCredit {
    ghost use Rattle.commands.specs.contracts.command.CreditEq.TheImpl.Laws.{laws-law};

    ghost laws = { laws-law };
}

/// A voucher that an operator adds (profile).
#[derive(Drop)]
pub struct VoucherAddition {
    /// The code under which it is.
    pub code: VoucherCode,
    /// What it gives to the account that redeems it.
    pub terms: VoucherTerms,
}

/// A voucher that an account redeems: a new bucket for the account, by the voucher's terms
/// (profile).
#[derive(Clone, Debug, PartialEq, Eq)]
pub struct VoucherRedemption {
    /// The code of the voucher.
    pub code: VoucherCode,
    /// The account that gets the bucket.
    pub account: AccountNumber,
    /// The operator's name for it: a redemption with the same reference is a repeat.
    pub reference: Reference,
}

// It is written out, so that a caller doesn't prove again how each part is dropped.
impl Drop for VoucherRedemption {
    fn drop(self) {
        let VoucherRedemption {
            code: _,
            account: _,
            reference: _,
        } = self;
    }
}

/// A command of the charging system.
#[derive(Drop)]
pub enum Command {
    /// A request for credit control.
    Ccr(Request),
    /// Opens an account.
    OpenAccount(AccountNumber),
    /// Gives an account money.
    Credit(Credit),
    /// Gives an account blocks of a rating group, which are used before money.
    Allow(Allowance),
    /// Bars an account: initial requests and direct debits are denied, and updates are granted
    /// nothing. What running sessions report is still charged.
    Bar(AccountNumber),
    /// Lifts the bar of an account.
    Unbar(AccountNumber),
    /// Adds a voucher.
    AddVoucher(VoucherAddition),
    /// Redeems a voucher for an account.
    Redeem(VoucherRedemption),
    /// Brings each account to the moment of the command.
    Sweep,
    /// Asks what became of an account's money. It is a read: it changes nothing.
    Balance(AccountNumber),
}

/// What is kept of an accepted command beside its answer, so that a repeat of it is known.
#[derive(Debug, PartialEq, Eq)]
pub enum Content {
    /// Of a request, under its session and number.
    Request(Request),
    /// Of a credit, under its reference.
    Credit(KeptCredit),
    /// Of an allowance, under its reference.
    Allow(Allowance),
    /// Of a redemption, under its reference.
    Redeem(VoucherRedemption),
}

// It is written out, so that a caller doesn't prove again how each part is dropped.
impl Drop for Content {
    fn drop(self) {
        match self {
            Content::Request(_) => {}
            Content::Credit(_) => {}
            Content::Allow(_) => {}
            Content::Redeem(_) => {}
        }
    }
}

impl Content {
    /// The account of the command.
    pub fn account(&self) -> &AccountNumber
        ensures { result.now ≡ account_of self.now }
    {
        match self {
            Content::Request(request) => &request.account,
            Content::Credit(kept) => &kept.credit().account,
            Content::Allow(allowance) => &allowance.account,
            Content::Redeem(redemption) => &redemption.account,
        }
    }

    /// The key under which the command's answer is kept.
    // rule: database-reads
    pub fn key(&self) -> KeyRef<'_>
        ensures { lent_key result ≡ key_of self.now }
    {
        match self {
            Content::Request(request) => KeyRef::Request {
                session: &request.session,
                number: request.number,
            },
            Content::Credit(kept) => KeyRef::Reference(&kept.credit().reference),
            Content::Allow(allowance) => KeyRef::Reference(&allowance.reference),
            Content::Redeem(redemption) => KeyRef::Reference(&redemption.reference),
        }
    }

    /// The same content once more.
    ///
    /// # Errors
    /// Out of memory.
    // rule: database-reads
    pub fn copy(&self) -> Result<Content, AllocError>
        ensures { IfOk result (λ copy. copy ≡ self.now) }
    {
        match self {
            Content::Request(request) => Ok(Content::Request(copy_request(request)?)),
            Content::Credit(credit) => Ok(Content::Credit(copy_credit(credit)?)),
            Content::Allow(allowance) => Ok(Content::Allow(copy_allowance(allowance)?)),
            Content::Redeem(redemption) => Ok(Content::Redeem(copy_redemption(redemption)?)),
        }
    }
}

/// Whether two credits are the same: a credit that comes again with the same content is a repeat
/// (profile).
pub fn same_credit(a: &Credit, b: &Credit) -> bool
    ensures { IsTrue result ↔ (a.now ≡ b.now) }
{
    a == b
}

/// Whether what is kept is this credit.
#[tactic(auto, using(crate::proofs::Exact::credit_exact))]
pub fn is_kept_credit(kept: &Content, credit: &Credit) -> bool
    ensures { IsTrue result ↔ (kept.now ≡ Content.Credit credit.now) }
{
    match kept {
        Content::Request(_) => false,
        Content::Credit(one) => same_credit(one.credit(), credit),
        Content::Allow(_) => false,
        Content::Redeem(_) => false,
    }
}

/// Whether two allowances are the same: an allowance that comes again with the same content is a
/// repeat (profile).
pub fn same_allowance(a: &Allowance, b: &Allowance) -> bool
    ensures { IsTrue result ↔ (a.now ≡ b.now) }
{
    a == b
}

/// Whether what is kept is this allowance.
#[tactic(auto, using(crate::proofs::Exact::allowance_exact))]
pub fn is_kept_allowance(kept: &Content, allowance: &Allowance) -> bool
    ensures { IsTrue result ↔ (kept.now ≡ Content.Allow allowance.now) }
{
    match kept {
        Content::Request(_) => false,
        Content::Credit(_) => false,
        Content::Allow(one) => same_allowance(one, allowance),
        Content::Redeem(_) => false,
    }
}

/// Whether two redemptions are the same: a redemption that comes again with the same content is a
/// repeat (profile).
pub fn same_redemption(a: &VoucherRedemption, b: &VoucherRedemption) -> bool
    ensures { IsTrue result ↔ (a.now ≡ b.now) }
{
    a == b
}

/// Whether what is kept is this redemption.
#[tactic(auto, using(crate::proofs::Exact::redemption_exact))]
pub fn is_kept_redemption(kept: &Content, redemption: &VoucherRedemption) -> bool
    ensures { IsTrue result ↔ (kept.now ≡ Content.Redeem redemption.now) }
{
    match kept {
        Content::Request(_) => false,
        Content::Credit(_) => false,
        Content::Allow(_) => false,
        Content::Redeem(one) => same_redemption(one, redemption),
    }
}

/// Whether what is kept of two commands is the same.
#[tactic(auto, using(crate::proofs::Exact::request_exact, crate::proofs::Exact::credit_exact, crate::proofs::Exact::allowance_exact, crate::proofs::Exact::redemption_exact))]
pub fn same_content(one: &Content, other: &Content) -> bool
    ensures { IsTrue result ↔ (one.now ≡ other.now) }
{
    one == other
}
