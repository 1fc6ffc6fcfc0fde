//! The greatest numbers (profile): what a field, a row or a book may have at most.

/// What ends at this moment has no end, in seconds since 1970: the moments of commands are before
/// it.
pub const NO_END: u64 = 4_102_444_800;

/// The last moment of a command, and of what begins.
pub const LATEST_COMMAND: u64 = 4_102_444_799;

/// The last moment of all: a civil day or a validity time may end so much after `NO_END`.
pub const LATEST_MOMENT: u64 = 4_102_488_000;

/// The greatest number of a rating group, a bucket, a charge or a request.
pub const GREATEST_NUMBER: u64 = 4_294_967_295;

/// The number after it: once it is the next, all are given.
pub const END_OF_NUMBERS: u64 = 4_294_967_296;

/// The most seconds of CC-Time and of Validity-Time: both are of 32 bits (RFC 8506 sections 8.21
/// and 8.33).
pub const MOST_SECONDS: u64 = 4_294_967_295;

/// The longest validity time of a tariff book, in seconds: twelve hours.
pub const LONGEST_VALIDITY: u64 = 43_200;

/// The most days for which what a voucher gives can be used.
pub const MOST_DAYS: u64 = 3650;

/// The greatest number of a currency (ISO 4217).
pub const GREATEST_CURRENCY: u64 = 999;

/// The most money of a credit, a voucher, a refund or a hold, in micro-units; the most that a
/// bucket of either kind was credited.
pub const MOST_MONEY: u64 = 1_000_000_000_000_000;

/// The greatest price of a block, in micro-units.
pub const GREATEST_PRICE: u64 = 1_000_000_000;

/// The most units that a session may use of a rating group.
pub const MOST_USED: u64 = 1_000_000_000_000_000_000;

/// The most units of a block, a slice or a grant.
pub const MOST_GRANTED: u64 = 1_000_000_000_000_000;

/// The most blocks of an allowance, and the most that one use or one event may start.
pub const MOST_BLOCKS: u64 = 1_000_000_000;

/// The most blocks that a counter may count.
pub const MOST_COUNTED: u64 = 4_000_000_000_000_000_000;
