//! The tariff book of an online charging system: rating groups with their prices by period and
//! tier, read from TOML; and the book of one price.
#![tactic(auto)]

mod book;
mod book_fields;
mod fault;
mod final_action;
mod group_fields;
mod group_prices;
mod names;
mod one_price;
mod price_fields;
mod tariff;
mod tiers;
mod week_fields;

pub use crate::book::TariffBook;
pub use crate::fault::BookFault;
pub use crate::final_action::FinalAction;
pub use crate::group_prices::{Prices, Side};
pub use crate::one_price::once_book;
pub use crate::price_fields::priced_once;
pub use crate::tariff::Tariff;
pub use crate::tiers::Tier;
