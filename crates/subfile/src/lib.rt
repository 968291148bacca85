#![tactic(auto)]

mod mark;
mod subfile;
mod window;

pub use mark::{Mark, MarkTooLong};
pub use subfile::SubFile;
