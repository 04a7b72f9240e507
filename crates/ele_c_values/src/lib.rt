//! What crosses between C and a store: what the arguments of a call ask for, and an answer as a code, numbers and copied bytes.
//! A contract sees numbers and bytes.
#![tactic(auto)]

pub mod asks;
pub mod bytes;
pub mod call;
pub mod codes;
pub mod copies;
pub mod event;
mod fates;
mod groups;
pub mod kept;
pub mod kind;
pub mod limits;
mod names;
mod numbers;
mod stats;

pub use limits::LimitFields;
pub use numbers::Numbers;
