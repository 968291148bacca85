#![tactic(auto)]

mod bytes;
mod ending;
mod fault;
mod hex;
mod interface;
mod memory;

pub use bytes::{digit, is_white};
pub use ending::{Damage, Ending, NoDamage};
pub use fault::Fault;
pub use hex::{HexByte, HexTurn, hex_pair, hex_turn};
pub use interface::Source;
pub use memory::Memory;
