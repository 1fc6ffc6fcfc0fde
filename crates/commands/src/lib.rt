//! The commands of the charging system and their answers, as plain data.
//!
//! Each type holds only what a text of the interface can say, so that a text is one value and a
//! value one text.
#![tactic(auto)]

mod allowance;
mod answer;
mod avp;
mod balance;
mod command;
mod copies;
mod key;
pub mod names;
mod quantity;
mod request;
mod service;
mod used;

pub use crate::allowance::{Allowance, AllowanceBlocks};
pub use crate::answer::{
    Answer, Balance, Cost, Failure, FinalUnit, GrantedServiceUnit, Outcome, Refusal, RequestAnswer,
    ServiceAnswer, ServiceAnswers, ServiceFailure, ServiceOutcome,
};
pub use crate::avp::Avp;
pub use crate::balance::{AccountBalance, BucketBalance, BucketBalances, BucketUnit};
pub use crate::command::{
    Command, Content, Credit, CreditEnd, CreditStart, KeptCredit, VoucherAddition,
    VoucherRedemption, is_kept_allowance, is_kept_credit, is_kept_redemption, same_allowance,
    same_content, same_credit, same_redemption,
};
pub use crate::key::{Key, KeyRef};
pub use crate::quantity::Quantity;
pub use crate::request::{Ask, Event, EventAction, Refund, Request, RequestKind, same_request};
pub use crate::service::{
    InitialServices, Requested, Service, TerminationServices, UpdateServices,
};
pub use crate::used::{UsedParts, usage_number, usage_numbered};
