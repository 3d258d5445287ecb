//! The beginning of a text: the state of a core before its first event, and the packets that wait.
//!
//! pie_book defines their meaning (`CoreSnapshot`, `Core::resume`). This crate writes them as the preamble of an excerpt
//! (`add_resume`, `add_queue`, and a whole excerpt by `write_excerpt`). It reads the beginning of a text, a whole
//! history or an excerpt, by `begin`; `beginning_of` defines it.
#![tactic(auto)]

mod beginning;
mod excerpt_text;
pub mod law;
mod number_ranges;
mod preamble_reader;
mod reading;
mod resume;
mod writing;

pub use beginning::{TextBeginning, begin};
pub use excerpt_text::{add_queue, add_resume, resume_of_excerpt, write_excerpt};
pub use number_ranges::{params_are_good, resume_fits};
pub use preamble_reader::fault_within;
pub use reading::read_resume;
pub use resume::Resume;
pub use writing::{make_resume, put_queued};
