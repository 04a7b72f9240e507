//! The texts of `elephant help TOPIC`: the commands of scripts, policies, limits, refusals, and each command.
//! A contract says which words have help. What a text says is tested.
#![tactic(auto)]

mod errors;
mod pages;
mod paragraphs;
mod script;
mod topics;
mod wrapped;

pub use topics::topic_help;
