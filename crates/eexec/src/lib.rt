#![tactic(auto)]

mod cipher;
mod cipherbytes;
mod eexec;
mod head;
mod plain;

pub use cipher::Cipher;
pub use eexec::Eexec;
