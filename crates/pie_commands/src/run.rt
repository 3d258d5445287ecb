//! `pie run`: runs a trace or an excerpt, and writes its history. `pie migrate`: writes a history of version one in version two.

use crate::call::Call;
use crate::end::End;
use crate::files::Output;
use crate::line::Part::{Number, Text};
use crate::line::say_parts;
use crate::options::flag;
use pie_trace::run_trace;

/// `pie run`: runs the trace or the excerpt in the file that the options name, or in standard input, and writes its history.
/// Writes a fault to the error stream; after a run without a fault also its numbers of events and of refused records, if the
/// options request them.
// (within `dispatch`, the loop over records would share its registers with the other subcommands)
#[inline(never)]
pub(crate) fn run(call: &Call<'_, '_>, output: &mut Output) -> End {
    let Some(watched) = call.open() else {
        return End::Unopened;
    };
    match run_trace(call.alloc, watched, output) {
        Ok(end) => {
            if flag(call.options, "count") {
                say_parts! { call.errors;
                    Number(end.events), Text(" events, "), Number(end.refused), Text(" refused records")
                };
            }
            End::Done
        }
        Err(why) => call.end_at_fault(why),
    }
}

/// `pie migrate`: writes the history in the file that the options name, or in standard input, in version two. Writes a fault
/// to the error stream.
pub(crate) fn migrate(call: &Call<'_, '_>, output: &mut Output) -> End {
    let Some(watched) = call.open() else {
        return End::Unopened;
    };
    match pie_trace::migrate(call.alloc, watched, output) {
        Ok(_) => End::Done,
        Err(why) => call.end_at_fault(why),
    }
}
