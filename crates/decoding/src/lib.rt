#![tactic(auto)]

pub mod endings;
mod kind;

pub use endings::{ending_above, ending_passed};
pub use kind::Kind;
