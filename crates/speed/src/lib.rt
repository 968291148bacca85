#![tactic(auto)]

mod decoders;
mod filling;

pub use decoders::{
    decode_ascii_85, decode_ascii_hex, decode_eexec, decode_four_deep, decode_subfile,
};
pub use filling::fill;
