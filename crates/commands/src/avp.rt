//! Names of members that can be at fault.

ghost use Rattle.std.specs.Prelude.{◌≡◌, nat_eq};
ghost use Rattle.std.specs.List.{find};
ghost use Rattle.std.specs.Cmp.Lexicographic.{pointwise};
ghost use Rattle.commands.specs.Names.{name_of, avp_named};

/// A member of a request or an operator's body, or a part of a path, that can be at fault: an AVP
/// of RFC 8506 by its name, or a member of the profile.
#[derive(Clone, Copy, Debug)]
pub enum Avp {
    /// Session-Id (RFC 6733 section 8.8): the name of a session.
    SessionId,
    /// CC-Request-Type (RFC 8506 section 8.3): whether a session begins, goes on or ends, or it is
    /// an event.
    RequestType,
    /// CC-Request-Number (RFC 8506 section 8.2): the number of a request in its session.
    RequestNumber,
    /// Subscription-Id (RFC 8506 section 8.46): whose account is charged.
    SubscriptionId,
    /// Subscription-Id-Type (RFC 8506 section 8.47), in a Subscription-Id.
    SubscriptionIdType,
    /// Subscription-Id-Data (RFC 8506 section 8.48): the number of an account.
    SubscriptionIdData,
    /// Requested-Action (RFC 8506 section 8.41): what an event asks for.
    RequestedAction,
    /// Multiple-Services-Credit-Control (RFC 8506 section 8.16): the services of a request.
    Services,
    /// Rating-Group (RFC 8506 section 8.29) of a service.
    RatingGroup,
    /// Requested-Service-Unit (RFC 8506 section 8.18): what a service or a refund asks for.
    RequestedUnit,
    /// Used-Service-Unit (RFC 8506 section 8.19): what a service reports.
    UsedUnit,
    /// CC-Money (RFC 8506 section 8.22): the money of a refund.
    Money,
    /// Unit-Value (RFC 8506 section 8.8): an amount, by its digits and their exponent.
    UnitValue,
    /// Value-Digits (RFC 8506 section 8.10), in a Unit-Value.
    ValueDigits,
    /// Exponent (RFC 8506 section 8.9), in a Unit-Value: the power of ten of the digits.
    Exponent,
    /// Currency-Code (RFC 8506 section 8.11): the number of a currency in ISO 4217.
    CurrencyCode,
    /// Amount (profile): what a credit gives, in micro-units.
    Amount,
    /// Blocks (profile): how many blocks of its rating group an allowance gives.
    Blocks,
    /// From (profile): from when a credit, an allowance or a bucket can be used, in seconds since
    /// 1970.
    From,
    /// Until (profile): until when a credit, an allowance or a bucket can be used, in seconds since
    /// 1970.
    Until,
    /// Scope (profile): the one rating group that a credit, an allowance or a bucket pays for.
    Scope,
    /// Reference (profile): the operator's name for a credit, an allowance or a redemption.
    Reference,
    /// Voucher-Code (profile): the code of a voucher.
    VoucherCode,
    /// Month (profile): the civil month of a statement, YYYYMM.
    Month,
}

/// All members, in the order of the type.
const ALL: [Avp; 24] = [
    Avp::SessionId,
    Avp::RequestType,
    Avp::RequestNumber,
    Avp::SubscriptionId,
    Avp::SubscriptionIdType,
    Avp::SubscriptionIdData,
    Avp::RequestedAction,
    Avp::Services,
    Avp::RatingGroup,
    Avp::RequestedUnit,
    Avp::UsedUnit,
    Avp::Money,
    Avp::UnitValue,
    Avp::ValueDigits,
    Avp::Exponent,
    Avp::CurrencyCode,
    Avp::Amount,
    Avp::Blocks,
    Avp::From,
    Avp::Until,
    Avp::Scope,
    Avp::Reference,
    Avp::VoucherCode,
    Avp::Month,
];

fn first_of(all: &[Avp], name: &str) -> Option<Avp>
    ensures { result ≡ find (λ a. pointwise nat_eq (name_of a) name.now) all.now }
{
    all.iter().copied().find(|avp| avp.name() == name)
}

impl Avp {
    /// The name that is in the text.
    pub fn name(self) -> &'static str
        ensures { result.now ≡ name_of self }
    {
        match self {
            Avp::SessionId => "Session-Id",
            Avp::RequestType => "CC-Request-Type",
            Avp::RequestNumber => "CC-Request-Number",
            Avp::SubscriptionId => "Subscription-Id",
            Avp::SubscriptionIdType => "Subscription-Id-Type",
            Avp::SubscriptionIdData => "Subscription-Id-Data",
            Avp::RequestedAction => "Requested-Action",
            Avp::Services => "Multiple-Services-Credit-Control",
            Avp::RatingGroup => "Rating-Group",
            Avp::RequestedUnit => "Requested-Service-Unit",
            Avp::UsedUnit => "Used-Service-Unit",
            Avp::Money => "CC-Money",
            Avp::UnitValue => "Unit-Value",
            Avp::ValueDigits => "Value-Digits",
            Avp::Exponent => "Exponent",
            Avp::CurrencyCode => "Currency-Code",
            Avp::Amount => "Amount",
            Avp::Blocks => "Blocks",
            Avp::From => "From",
            Avp::Until => "Until",
            Avp::Scope => "Scope",
            Avp::Reference => "Reference",
            Avp::VoucherCode => "Voucher-Code",
            Avp::Month => "Month",
        }
    }

    /// The member whose name in the text this is; None for any other name.
    pub fn named(name: &str) -> Option<Avp>
        ensures { result ≡ avp_named name.now }
    {
        first_of(&ALL, name)
    }
}
