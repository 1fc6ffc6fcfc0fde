//! Money, moments and blocks: the numbers of online charging, each with its range; and a count of
//! steps.
#![tactic(auto)]

mod blocks;
mod limits;
mod moment;
mod money;
mod steps;

pub use crate::blocks::{
    Blocks, TariffChangeUsage, UnitKind, Units, UsedPart, blocks_started, cutting,
};
pub use crate::limits::{
    END_OF_NUMBERS, GREATEST_CURRENCY, GREATEST_NUMBER, GREATEST_PRICE, LATEST_COMMAND,
    LATEST_MOMENT, LONGEST_VALIDITY, MOST_BLOCKS, MOST_COUNTED, MOST_DAYS, MOST_GRANTED,
    MOST_MONEY, MOST_SECONDS, MOST_USED, NO_END,
};
pub use crate::moment::Moment;
pub use crate::money::{Amount, Money, UnitFault};
pub use crate::steps::Steps;
