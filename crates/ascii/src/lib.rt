#![tactic(auto)]

mod ascii85;
mod asciihex;
mod made;
mod ready4;

pub use ascii85::Ascii85;
pub use asciihex::AsciiHex;
