#![tactic(auto)]

mod any;
mod filter;
mod layer;

pub use any::AnyKind;
pub use ascii::{Ascii85, AsciiHex};
pub use decoding::Kind;
pub use eexec::Eexec;
pub use filter::Filter;
pub use layer::Layer;
pub use subfile::{Mark, MarkTooLong, SubFile};
