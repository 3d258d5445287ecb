//! The pages of `pie audit`, `pie explain`, `pie cut` and `pie migrate`: their arguments and their help.

/// Returns the page of `pie audit`.
pub(crate) fn audit_page() -> &'static [u8] {
    b"Decides events of histories again, and reports the first that differs
--joined | The files are one history's segments: report if they fit | The files are the segments of one history, in order: report if they fit together. Default: off
--json | Write an object of JSON for each file | Write an object of JSON for each file. Default: text
--queue NAME | Take only the steps of this queue of pie-watch's text | Of a text of pie-watch, take only the steps of this queue. Default: all queues
progress
file .. | Files to audit; - is standard input. Default: standard input

A history is the output of pie run: the first record of a trace, and then each record with its
answer. An audit decides each event again, from the opening and the events before it, and compares
the answers.

Events are the records arrive, depart, update, reset and params, numbered from 1. The records
refused, folded, shown and tallied are notes. A note may occur anywhere after the first record, and
only its form is checked.

The output is one line:
  clean,<events>   Each event is the one that the rules give at its place. <events> is the number of
                   the last event. Status 0.
  differs,<event>  The number of the first event that is not: its command would be refused there,
                   its answer is another one, or it sets parameters out of range. Status 2.
                   For a named file, standard error then has the event's record, the record
                   that the rules give there, and the command that explains it.

A full event log is no reason to refuse a command in an audit, because a fold can make room at any
time. A history that begins with open2 or open3 is decided with the profile and the elements of that
record. Any other history is decided with profile 1 and the usual elements. A record that cannot be
read ends the audit with status 1 and without a line of output, even if an earlier event differs.
pie run --help lists the records.

If files are named, all are audited in the order of the command line, and each line begins with the
name of its file, such as NAME: clean,11. If a file cannot be opened or read, or has a record that
cannot be read, standard error has a line such as pie: NAME: record 12: unknown kind, and the audit
continues with the next file. The status is 1 if a file could not be audited, otherwise 2 if an
event of a file differs, otherwise 0.

With --joined the files are the segments of one history, in order, as pie cut --every writes them.
If the file before is clean, a second line follows the line of each file except the first:
  NAME: follows             The file continues exactly where the file before it ends.
  NAME: gap,<last>,<first>  The file before ends with event <last>, and the first event of this file
                            has the number <first>, or would have it. The events between are
                            missing, or are in both files. Status 2.
  NAME: unlike,<last>       The numbers meet after event <last>, but the opening, a register, a
                            statistic or a queued packet differs. Status 2.
For a gap, standard error has the numbers of the events that are missing or in both files; for
unlike, the first field of the records resume and queued that differs, with both values. If all
files are clean and follow each other, they are one history with the opening of the first file.

With --json each file that could be audited has one object of JSON on a line, with the members file,
finding, events or event, and with --joined joint, last and first. For an event of a named file that
differs, recorded and right are its record and the record that the rules give there. If they give
none, reason says why. Without a file, file is -.

A text that pie-watch wrote has the steps of pie and fq_pie of a Linux kernel. Each step is decided
again by the kernel's rules. The events are the rows after the first, numbered from 1. After
differs,<event> standard error has the queue, its step, the column, the recorded number and the one
that the rules give. The queue's later events are not decided up to its next row init or resume. If
several events differ, their number follows, and the others, queue by queue; the first 100 are named.
For a clean text it has the number of steps that the recorder lost, if any. --joined is not for such
texts.

Example: the output of pie run is clean, and the line is clean,2:

  printf 'open,0,4,16,100\\narrive,1,10,7,1500,ect0,0\\ndepart,2,25\\n' |
    pie run | pie audit

The audit finds a changed verdict, and the line is differs,1:

  printf 'open,0,4,16,100\\narrive,1,10,7,1500,ect0,0\\ndepart,2,25\\n' |
    pie run | sed s/enqueue/mark/ | pie audit"
}

/// Returns the page of `pie explain`.
pub(crate) fn explain_page() -> &'static [u8] {
    b"Explains why the events of a history were decided as they were
--event 1-18446744073709551615 | Select event N, counted from 1 | Select event N, counted from 1. Default: none
--tag 0-18446744073709551615 | Select the events of the packets with tag N | Select the events of the packets with tag N. Default: none
--lost | Select the arrivals of dropped packets | Select the arrivals of dropped packets. Default: off
--marked | Select the arrivals of marked packets | Select the arrivals of marked packets. Default: off
--all | Select all events; on without another selection | Select all events. Default: off, but on without another selection
--queue NAME | Take only the steps of this queue of pie-watch's text | Of a text of pie-watch, take only the steps of this queue. Default: all queues
--from MOMENT | Exclude events before this moment or UTC, such as 1.5ms | Exclude events before this moment or time in UTC, such as 1.5ms. Default: the first event
--to MOMENT | Exclude events after this moment or time in UTC | Exclude events after this moment or time in UTC. Default: the last event
--summary | Write one summary of the selected events, or of all | Write one summary of the selected events. Default: an explanation of each; on without a selection
--every TIME | Write a line for each interval, such as 100ms or 1m | Write one line for each interval of this length, such as 100ms or 1m. Default: off
--full | With --every, write several lines for each interval | With --every, write several lines for each interval. Default: off
--flows 1-1000 | Write sums of the N flows with the most bytes | Write a summary of each of the N flows with the most bytes, and one of all others. Default: off
--digest | Write summaries, and explain lost and marked packets | Write summaries, and between them an explanation of each lost or marked packet. Default: off
--csv | Write CSV with a header | Write CSV with a header. Default: words
--json | Write an object of JSON for each CSV record | Write one object of JSON a line for each CSV record. Default: words
--wall | Write moments as wall-clock times in UTC | Write moments as wall-clock times in UTC, if the history has them. Default: off
progress
output
force
file

At most one of --event, --tag, --lost, --marked and --all selects events. Each event of the history
is decided again, as by pie audit. The explanation of a selected event names the rule that decided
it, and the numbers before the event that the rule used. Without a selection the output is a
summary of all events, as with --summary.

--from and --to restrict the selection to events whose effective moments lie between them, both ends
included. --from must not be after --to. A moment is a number of nanoseconds, or a number with the
unit ns, us, ms, s, m (minutes) or h (hours): 1500000, 1500us, 1.5ms and 0.0015s are equal. The
longer units of tc, such as msec, and upper-case letters are accepted too.

A history of version three can contain wall-clock times, in clock records. With --wall the moments
are written as wall-clock times in UTC, computed from the last clock record before the event. CSV
then has one more field, wall, for the effective moment. Before the first clock record, words have
the moments, and the field is empty. --from and --to also accept times in UTC, such as
2026-11-24T20:00:00Z, with up to nine decimals of a second. Events before the first clock record are
then excluded. A summary in words has the wall-clock times of its first and last event with a known
time. In CSV it has the first.

With --summary the output is one summary of the selected events, or of all events if no option
selects. It has:
- the verdicts of the arrivals, and the share of arrivals with each cause (the field cause);
- the waiting times of the packets that departed;
- the delays of the updates, and the probabilities after the events;
- the moments at which the controller turned on and off.
A summary covers the events before the first fault and the first event that differs.

With --every there is one line for each interval with a selected event: with 100ms, one for the
events before 100 ms, one for those from 100 ms to before 200 ms, and so on. A header comes first,
and again after each 40 lines on a terminal. The columns are:
- time: the start of the interval, in seconds or milliseconds, as the header says; with --wall the
  time in UTC of its first event with a known time;
- arrived, marks, early, tail: arrivals, marked packets, packets dropped early, packets without room;
- mean, 99th: the mean wait of the packets that departed, and the wait that 99 of 100 did not exceed;
- delay, prob: the delay of the last update, and the probability after the last event;
- bytes: the bytes of the packets that departed.
Waits and delays are in milliseconds, rounded down to microseconds. A dash replaces a wait without a
departure, and a delay without an update. With --full there is a summary of several lines for each
interval. With --csv there is a header, and one record for each summary.

With --flows N there is a summary of each of the N flows with the most bytes that arrived, and one
of all other flows together, for the history or for each interval. It has the arrivals, their
verdicts, the waiting times of the packets that departed, and the share of the queue: bytes times
the microseconds that they waited. The flow of a packet is the upper 32 bits of its tag, in
hexadecimal digits. The program that wrote the history writes the addresses and ports of each flow
with its option --flows. With --csv there is one record for each flow and interval. --flows cannot
be combined with --digest.

With --digest the history is read once for summaries and explanations. The explanations are those of
--lost and --marked, for the selected events in their order. A summary precedes the explanation of
the first event of the next interval. Explanations are in words, also with --csv. A CSV record then
begins with a digit, and a line of words with the word event or with two spaces.

An explanation in words has several lines. Moments are in milliseconds, with all decimals, and
probabilities in per cent, rounded down. With --csv all numbers are exact, and there is a header, and
one record for each event:
  number,kind,caller,moment,effective_moment,tag,size,verdict,cause,bytes,packets,delay,
  probability,accumulated_probability,burst_allowance,ecn,word,waited,active,set_by,bytes_after,
  packets_after,delay_after,probability_after,accumulated_probability_after,
  burst_allowance_after,active_after
Times are in nanoseconds, and probabilities in units of 10^-12. A field that an event does not have
is empty.

If an event is not the one that the rules give at its place, the selected events before it are
explained, standard error names the event, and the status is 2. For a named file, standard error
then has the event's record, the record that the rules give there, and the explanation of that
event. If a record cannot be read, the status is 1. It is also 1 if the event of --event or each
packet of --tag is missing, or lies outside --from and --to. With -o FILE the output is moved to
FILE when it is complete, also with status 2. pie run --help describes -o.

A text of pie-watch has the steps of Linux's own pie and fq_pie. Event N is the row N after the first.
Moments are times since boot. Explanations in words name Linux's rules: --lost explains each packet
that the kernel dropped, also by a lower limit or a reset, --marked each that it marked, --tag T each
arrival with this tag, and --all each arrival and each dropped packet. All other output has the form
for a history:
- enq is an arrival, deq a departure, calc an update, change new parameters, reset and destroy a reset;
- the tag of a packet is its flow of fq_pie times 2^32, and 0 for pie;
- caller is 0, and ecn is not for each departure, because it is not recorded;
- packets that a lower limit or a reset dropped are not counted;
- sums over several queues or flows add their packets, and a last value is that of the last step.
With --queue NAME only the steps of the queue with this name, as in the column qid, are decided. With
dq_rate_estimator the kernel keeps no times of arrival: a wait is then the time between two rows.

Example: why was a packet lost? The file trace has the trace of the example of pie run --help:

  pie run < trace | pie explain --lost

The output is why the last packet of that trace was dropped:

  event 11: packet 6, 500 bytes, Not-ECT: DROPPED early
    at 1.001003 ms, by caller 2
    picked: its random word, 0.0000 %, is below the probability, 90.3954 %
    dropped: its endpoints do not understand a mark
    before it: 3 packets, 2548 bytes, a delay of 2.488281 ms
    probability 90.3954 %, set by event 9; last update at 1.001002 ms; burst allowance 0.000000 ms"
}

/// Returns the page of `pie cut`.
pub(crate) fn cut_page() -> &'static [u8] {
    b"Writes some events of a history as an excerpt
--from MOMENT | Start with the first event at this moment or later | Start with the first event at or after this moment or time in UTC. Default: the first event
--to MOMENT | End before the next event after this moment or UTC | End before the next event after this moment or time in UTC. Default: the last event
--event 1-18446744073709551615 | Select event N, counted from 1 | Select event N, counted from 1. Default: none
--around 0-18446744073709551615 | Also select N events before it and N after it | Also select this number of events before and after event N. Default: 0
--last 1-18446744073709551615 | Select the last N events of a file | Select the last N events of a file. Default: none
--every 1-18446744073709551615 | Cut all events into segments of N | Cut all events into segments of N, written one after another. Default: off
progress
output
force
file

The output is an excerpt. It begins with the state of the controller before the first selected event
(the record resume), the packets in the queue at that time (records queued), and the last wall-clock
time before it (a record clock). The selected events and the clock records between them follow as
they were read. Notes are omitted. pie audit and pie explain read an excerpt as they read a whole
history, and give the same results for its events. Events keep their numbers: in clean,<events> the
number is that of the last event.

With --from, --to or both, the excerpt has the events whose effective moments lie between them, both
ends included. --from must not be after --to. Bounds are written as for pie explain: 1500000,
1500us, 1.5ms, 2m, or a time in UTC such as 2026-11-24T20:00:00Z, which the last clock record before
an event determines. No event before the first clock record lies within a bound in UTC. The excerpt
begins with the first event within the bounds. It ends before the next event after --to. If a clock
was set back, events between these two are included even if they are before --from.

With --event N it has event N, and with --around M also the M events before it and the M events
after it. With --last N it has the last N events, or all if there are fewer. --last reads a file
twice, so the input cannot be standard input.

With --every N all events are cut into segments of N, of which the last can be shorter. The segments
are written one after another. Each is an excerpt that begins where the one before it ends.

The input can be an excerpt too. Its events are decided again, as by pie audit, up to the end of the
output. If an event there is not the one that the rules give, the excerpt ends with it, standard
error names it, and the status is 2. If a record cannot be read, wherever it is, or no event is
selected, the status is 1. With -o FILE the output is moved to FILE when it is complete, also with
status 2. pie run --help describes -o.

Of a text that pie-watch wrote, event N is the row N after the first, and moments are times since
boot. The output, and each segment, begins with the first row; rows resume, flow and wait follow,
with the numbers of each queue before the selected rows. Its events are numbered anew.

Example: why were packets lost in one minute of a day? The file day has the history of the day:

  pie cut --from 2026-11-24T20:00:00Z --to 2026-11-24T20:01:00Z -o minute day
  pie explain --lost minute

Files of a million events each, day.0000 and so on, and their audit:

  pie cut --every 1000000 day | csplit -z -n 4 -f day. - '/^resume,/' '{*}'
  pie audit day.*"
}

/// Returns the page of `pie migrate`.
pub(crate) fn migrate_page() -> &'static [u8] {
    b"Rewrites a history of version one in version two
progress
output
force
file

A history of version one begins with open or rolling. In version two it begins with open2,1,bounded
or open2,1,rolling, and each record shown has 1 as its last field, because the controller is always
active. All other records are copied. A history of version two or three is copied. pie audit has the
same result for both histories. pie run --help lists the records.

If a record cannot be read, the status is 1. The records before it have been written. With -o FILE
the output is moved to FILE when it is complete. pie run --help describes -o.

Example:

  printf 'open,0,4,16,100\\narrive,1,10,7,1500,ect0,0\\nshow\\n' |
    pie run | pie migrate

The output is

  open2,1,bounded,0,4,16,100
  arrive,1,10,7,1500,ect0,0,enqueue
  shown,1,10,1,1500,0,0,0,150000000,0,0,0,1"
}
