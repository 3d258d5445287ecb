//! The reasons for which a text of recorded steps cannot be read to its end.
use crate::columns::name_of;
use crate::step::QueueName;
use pie_record::TraceFault;
use std::fmt;

/// A fault of a text of recorded steps.
#[derive(Clone, Copy)]
pub enum StepsFault {
    /// A record has this fault, the reader or the writer failed, or there was no memory.
    Trace(TraceFault),
    /// The first row lacks the column with this place among the columns that are read.
    NoColumn(usize),
    /// The queue of this step has no row of the type `init` or `resume` before it, or steps were lost before it.
    NoStart {
        /// The number of the record, counted from 1.
        row: u64,
        /// The name of the queue.
        queue: QueueName,
        /// The number of the step in its queue.
        step: u64,
    },
}

impl fmt::Display for StepsFault {
    fn fmt<W: fmt::Write>(&self, f: &mut fmt::Formatter<W>) -> fmt::Result {
        match self {
            StepsFault::Trace(why) => write!(f, "{why}"),
            StepsFault::NoColumn(place) => {
                let name = name_of(*place);
                write!(f, "the first row has no column {name}")
            }
            StepsFault::NoStart { queue, step, .. } => write!(
                f,
                "step {step} of queue {queue}: no row of the type init or resume is before it"
            ),
        }
    }
}
