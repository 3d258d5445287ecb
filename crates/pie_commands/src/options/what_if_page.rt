//! The page of `pie what-if`: its arguments and its help.

/// Returns the page of `pie what-if`.
pub(crate) fn what_if_page() -> &'static [u8] {
    b"Decides a history again with other parameters from a moment on
--from MOMENT | Change the parameters from this moment on. Required | Change the parameters at this moment, such as 400ms, or wall-clock time. Default: none, it is required
--target TIME | Reference delay, such as 5ms | Reference delay, such as 5ms. Default: that of the history
--tupdate TIME | Least time between updates | Least time between updates. Default: that of the history
--max_burst TIME | Burst allowance | Burst allowance. Default: that of the history
--alpha 0-32 | Gain alpha of tc, 0 to 32 | Gain alpha of tc, 0 to 32. Default: that of the history
--beta 0-32 | Gain beta of tc, 0 to 32 | Gain beta of tc, 0 to 32. Default: that of the history
--mean_pkt 1-65535 | Mean packet size in bytes | Mean packet size in bytes. Default: that of the history
--limit 1-1073741824 | Limit of the queue in bytes | Limit of the queue in bytes. Default: that of the history
--mark_ecnth 0-1000000000000 | No marks from this probability on, in 10^-12 | Probability from which ECN-capable packets are dropped, in units of 10^-12. Default: that of the history
--dq_threshold 1024-65536 | Bytes in a cycle of the rate, a power of two | Bytes in a cycle of the departure rate, a power of two. Default: that of the history
--csv | Write the comparison as CSV with a header | Write the comparison as CSV with a header. Default: words
--json | Write the comparison as objects of JSON | Write the comparison as objects of JSON. Default: words
progress
--output FILE | Write the other history to FILE, once it is complete | Write the other history to FILE, which is created or replaced when it is complete. Default: compare both
force
file

The input is a history or an excerpt. pie what-if audits it and decides its commands again, with other
parameters from a moment on. The result is another history, which audits clean. Without -o the
output compares the numbers of summaries. With -o FILE the output is the other history, and with -o -
it is written to standard output once it is complete.

A comparison has a line for each number that is not 0 in all of these columns:
- recorded: the events of the history from the first event at MOMENT or later on.
- control: their commands, decided again after a record params with the unchanged parameters. Any
  record params clears the estimate of the departure rate, if the delay is computed from it: the delay
  then counts as 0 until the next measurement. The control has this effect too.
- other: their commands, decided again after this record with the parameters of the options.
- difference: other - control. This is the effect of the parameters. If the options give the
  unchanged parameters, each difference is 0.
The inserted record is not one of the compared events. The numbers .._above_target use the target of
their column, which the last line names. The numbers omitted_.. count commands, see below. pie explain
--help describes the other numbers. Times are in milliseconds, and probabilities in per cent, rounded
down. With --csv there is a header, field,recorded,control,other,difference, and a record for each
number, with times in nanoseconds and probabilities in units of 10^-12. With --json each number is an
object on its own line, in the same units. A comparison reads its input into memory, and decides the
control and the other history there.

The first line says that senders do not react. A sender of TCP, for example, slows down after a loss
or a mark, but here it sends the packets of the history. With -o, --csv or --json this line is on
standard error. The following is assumed:
- Each packet arrives at the moment of the history, with the same random word.
- The link is ready at the moments of the recorded departures, and only then. The oldest packet of
  the other queue leaves. If that queue is empty, nothing leaves, and the event is recorded as empty.
  The link is not ready earlier for a shorter packet, or later for a longer one.
- Updates and resets come at the moments of the history. With a shorter --tupdate there are no more
  updates than in the history.
- A command that the controller refuses is omitted and counted: an update before the due moment, or a
  command beyond the limit of events in the first record. With -o standard error has the counts.
- A record params in the history changes the parameters that have no option here.

The events before the first event at MOMENT or later are those of the history. A record params of
caller 0 follows. Then each command is decided from the controller's state at that time. Nothing else
is reset. Clock records are copied, and so are notes before the inserted record: later notes are
about the recorded history. Without a parameter, -o writes the control.

MOMENT is written as for pie explain: 400ms, 1.5ms or 1500000, which are nanoseconds, is a moment of
the trace, and 2026-11-26T20:00:00Z a wall-clock time. A wall-clock time is compared with that of an
event's own moment, by the last clock record before the event. The inserted record has the moment
MOMENT, or that of the first event at a wall-clock time. The other times need a unit, as for pie
params. alpha and beta are in sixteenths per second, as for pie params. --limit is in bytes: the
capacity of the queue in packets cannot change. The profile and the elements of RFC 8033 cannot change
either, because the first record of a history chooses them for all its events.

If an event is not the one that the rules give at its place, a record cannot be read, or no event is
at MOMENT or later, the status is 1, and there is no output. With -o FILE the output is moved to FILE
only if the other history is complete. pie run --help describes -o.

Example: what if the target had been 5 ms from 400 ms on?

  pie what-if --from 400ms --target 5ms examples/ignored_marks.history"
}
