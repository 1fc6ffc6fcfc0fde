//! The names of members that can't be at fault: those of answers, and one inside a report.

ghost use Rattle.commands.specs.Inverse.{AreTables};

/// In a report of used units (RFC 8506 section 8.27); a fault is reported of the whole report.
pub const TARIFF_CHANGE_USAGE: &str = "Tariff-Change-Usage";

/// How a request or a command ended (RFC 6733 section 7.1, RFC 8506 section 9).
pub const RESULT_CODE: &str = "Result-Code";

/// The member that is at fault, by its name (RFC 6733 section 7.5).
pub const FAILED_AVP: &str = "Failed-AVP";

/// The units that a service is granted (RFC 8506 section 8.17).
pub const GRANTED_UNIT: &str = "Granted-Service-Unit";

/// When the price changes, in seconds since 1970 (RFC 8506 section 8.20).
pub const TARIFF_TIME_CHANGE: &str = "Tariff-Time-Change";

/// How long a grant is valid, in seconds (RFC 8506 section 8.33).
pub const VALIDITY_TIME: &str = "Validity-Time";

/// What happens when the granted units are used up (RFC 8506 section 8.34).
pub const FINAL_UNIT: &str = "Final-Unit-Indication";

/// In a Final-Unit-Indication: whether the service ends or the user is redirected (RFC 8506 section
/// 8.35).
pub const FINAL_UNIT_ACTION: &str = "Final-Unit-Action";

/// In a Final-Unit-Indication: where the user is redirected (RFC 8506 section 8.37).
pub const REDIRECT_SERVER: &str = "Redirect-Server";

/// In a Redirect-Server: of what kind its address is (RFC 8506 section 8.38).
pub const REDIRECT_ADDRESS_TYPE: &str = "Redirect-Address-Type";

/// In a Redirect-Server: its URL (RFC 8506 section 8.39).
pub const REDIRECT_SERVER_ADDRESS: &str = "Redirect-Server-Address";

/// Whether an account can pay (RFC 8506 section 8.6).
pub const CHECK_BALANCE_RESULT: &str = "Check-Balance-Result";

/// What units would cost (RFC 8506 section 8.7).
pub const COST_INFORMATION: &str = "Cost-Information";

/// The number of the bucket that a credit or a redemption opened (profile).
pub const BUCKET: &str = "Bucket";

/// How many accounts a sweep brought to its moment (profile).
pub const ACCOUNTS: &str = "Accounts";

/// Why an operator's command is refused, `O1` to `O7` (profile).
pub const REFUSAL: &str = "Refusal";

/// The number of the account that a balance is of (profile).
pub const ACCOUNT: &str = "Account";

/// Whether the account is barred (profile).
pub const BARRED: &str = "Barred";

/// The buckets of the account, by number (profile).
pub const BUCKETS: &str = "Buckets";

/// The moment of a balance, in seconds since 1970 (profile).
pub const MOMENT: &str = "Moment";

/// The number of a bucket within its account (profile).
pub const NUMBER: &str = "Number";

/// What the amounts of a bucket count, where they aren't micro-units (profile).
pub const UNIT: &str = "Unit";

/// The unit of a bucket whose amounts are blocks (profile).
pub const BLOCKS_UNIT: &str = "blocks";

/// What a bucket was credited, in its unit (profile).
pub const CREDITED: &str = "Credited";

/// What of a bucket may still be used, in its unit (profile).
pub const AVAILABLE: &str = "Available";

/// What reservations of live sessions hold of a bucket, in its unit (profile).
pub const RESERVED: &str = "Reserved";

/// What of a bucket was charged, in its unit (profile).
pub const CHARGED: &str = "Charged";

/// What was left of a bucket at its end, or given up after it, in its unit (profile).
pub const EXPIRED: &str = "Expired";

/// Each name and each number is that of one value: what is written is found again, and what is
/// found is written so.
// rule: codes
pub fn tables_are_inverse()
    ensures { AreTables }
{}
