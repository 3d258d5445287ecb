//! Common parts of the libraries for C: the structs that their callers own, the return codes, and the meaning of the
//! numbers of an opening and of a packet. The crate exports no symbol, so a program may link both libraries.
#![tactic(auto)]

pub mod choices;
pub mod code;
pub mod event;
pub mod opening;
pub mod packet;
pub mod params;
mod stats;
mod writing;

pub use stats::PieStats;
pub use writing::write_text;
