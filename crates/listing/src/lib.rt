#![tactic(auto)]

mod area;
mod contents;
mod decimals;
mod lines;
mod names;
mod refusal;
mod room;
mod shape;
mod sink;
mod strings;
mod text;
mod words;

pub use lines::{ending_line, fault_line, fault_line_at, token_line};
pub use refusal::Refusal;
