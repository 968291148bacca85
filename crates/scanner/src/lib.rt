#![tactic(auto)]

mod bytes;
mod class;
mod content;
mod digits;
mod failure;
mod hex;
mod integers;
mod kinds;
mod pieces;
mod radix;
mod reals;
mod runs;
mod spaces;
mod strings;
mod tokens;
mod words;

pub use failure::Failure;
pub use kinds::{Kind, Token};
pub use tokens::read_token;
