// What the programs that run tables of cases share: a source as a case gives it, and the reading of its ending and bytes.
#![tactic(auto)]

mod lent;
mod reading;

pub use lent::Given;
pub use reading::{ReadError, read_bytes, read_ending};
