//! The pages of `pie run`, `pie storm` and `pie params`: their arguments and their help.

/// Returns the page of `pie run`.
pub(crate) fn run_page() -> &'static [u8] {
    b"Runs a trace and writes its history
--count | Print the numbers of events and of refused records | Print the numbers of events and of refused records to standard error. Default: off
progress
output
force
file

A trace is a CSV text with one record on each line. pie run writes each record again, followed by
the controller's answer. Moments and times are whole nanoseconds from a start of your choice, at
most 2^60 - 1. Probabilities are in units of 10^-12.

The first record opens the controller:
  open,<moment>,<packets>,<tail>,<events>[,<nine>]
      <packets>  capacity of the queue in packets, 1 to 65536.
      <tail>     capacity of the event log, 1 to 1048576.
      <events>   greatest number of events, 1 to 1099511627776.
  rolling,..
      The same fields. If the event log is full, its oldest event is removed, and no command is
      refused.
  open2,<profile>,<mode>,<moment>,<packets>,<tail>,<events>[,<nine>]
      Version two. <mode> is bounded (as open) or rolling. With <profile> 1 the controller is always
      active. With 2 it is inactive at first. It activates itself when a third of limit_bytes is
      queued, and deactivates itself at an update with probability 0 and low delays (RFC 8033,
      section 5.3).
  open3,<profile>,<delay>,<picking>,<step>,<size>[,<decay>],<mode>,<moment>,<packets>,<tail>,<events>[,<nine>]
      Version three: up to 1048576 packets and 2^47 events, and the optional elements of RFC 8033.
      The first keyword of each is the usual one.
      <delay>    rate: the delay is computed from the departure rate (5.2). stamp: it is the waiting
                 time of the packet that departed last (4.3), which does not change while the link
                 stalls.
      <picking>  derandomized: probabilities accumulate (5.4). random: the random word alone
                 decides.
      <step>     capped: a rise is at most 0.02 from a probability of 0.1 on (5.5). uncapped: it has
                 no such limit.
      <size>     unscaled. scaled: a packet below mean_pkt is picked less often.
      <decay>    zero: the probability decays if both delays are 0 (4.2). half: if both are below
                 half the target. Default: zero.
  resume,..
      An excerpt: resume, and a record queued for each queued packet. The run continues from the
      middle of a history, with other commands or parameters. pie cut writes such excerpts.
      docs/FORMATS.md describes the fields.

<nine> is target,t_update,max_burst,alpha,beta,mean_pkt,limit_bytes,mark_ecnth,dq_threshold
(RFC 8033), with these ranges and defaults:
  target        reference delay in ns, 2 to 10^10. Default: 15000000.
  t_update      time between updates in ns, 1 to 10^10. Default: 15000000.
  max_burst     burst allowance in ns, 0 to 10^12. Default: 150000000.
  alpha, beta   gains in thousandths per second, 0 to 10^6. Default: 125, 1250.
  mean_pkt      mean packet size in bytes, 1 to 65535. Default: 1024.
  limit_bytes   limit of the queue in bytes, 1 to 2^30. Default: 262144.
  mark_ecnth    probability from which ECN-capable packets are dropped, 0 to 10^12. Default:
                100000000000.
  dq_threshold  bytes in a cycle of the departure rate, a power of two from 1024 to 65536. Default:
                16384.

Set limit_bytes well above rate x target. Otherwise the queue is full before the delay reaches the
target, and all losses are tail drops:
                 10 Mbit/s  100 Mbit/s    1 Gbit/s   10 Gbit/s   100 Gbit/s
  rate x 15 ms       18750      187500     1875000    18750000    187500000
  for 200 ms        250000     2500000    25000000   250000000   1073741824 (the greatest: 86 ms)

Then, in any order:
  arrive,<caller>,<moment>,<tag>,<size>,<ecn>,<word>
      A packet of 1 to 65535 bytes arrives. <ecn> is not, ect1, ect0 or ce. <word> is a random
      number below 2^64. The answer is enqueue, mark, early (early drop), bytes or packets (tail
      drop by that limit).
  depart,<caller>,<moment>
      The link takes the oldest packet: left,<tag>,<size>,<ecn>, or empty.
  update,<caller>,<moment>
      The probability is updated: <delay>,<prob>,<burst>.
  reset,<caller>,<moment>
      Probability, delays and rate estimate are reset: done.
  params,<caller>,<moment>,<nine>
      The parameters change: done.
  fold,<n>
      The oldest <n> events are removed from the event log: folded,<n>.
  show
      shown,<count>,<moment>,<packets>,<bytes>,<prob>,<old delay>,<accumulated prob>,<burst>,
      <last update>,<average>,<measuring>; from version two on also <active>, 1 if the controller
      is active, otherwise 0.
  tally
      tallied,<arrivals>,<enqueued>,<marked>,<early>,<over bytes>,<over packets>,<left>,
      <left bytes>,<empty>,<updates>,<resets>,<parameter changes>,<largest queue>,
      <largest delay>,<time waited>.
  clock,<moment>,<unix>
      In version three: the wall-clock time at that moment, in nanoseconds since 1970. It has no
      effect on decisions.

The answer to a refused record is refused,<record>,<code>, and the run continues. The codes are:
  1 the moment is above 2^60 - 1.  2 the size is out of range.
  3 the update is not yet due.     4 the number of events is at its limit.
  5 the event log is full.         6 the event log has fewer events to fold.
  7 a parameter is out of range.

A record that cannot be read ends the run with status 1. The answers to earlier records have been
written. Otherwise the status is 0, also if records were refused. With --count, standard error has a
line such as pie: 11 events, 2 refused records.

With -o FILE the history is written to FILE.partial in the same folder, or to FILE.partial.2 and so
on if that name exists. The file is renamed to FILE after all output was written and synced to disk.
The folder is not synced: after a power failure FILE is complete or unchanged (or empty, if the file
system has no hard links). After a fault, a full disk or Ctrl-C the output up to then remains in the
partial file, and FILE is unchanged. Except after Ctrl-C, standard error names the partial file. An
existing FILE is replaced only with --force, and never if it is also the input. /dev/stdout, pipes
and devices are written directly. -o - means standard output.

If the reader of standard output has ended, as with head, pie ends without a message and with status
141, the status of a program that SIGPIPE ended.

Example: three updates raise the probability until one packet is marked and one is dropped early:

  printf '%s\\n' open,0,8,32,100,2,1,0,850000,0,1,100000,1000000000000,1024 \\
    arrive,1,0,1,1024,not,0 arrive,1,0,2,1024,not,0 arrive,1,0,3,1024,not,0 \\
    arrive,1,0,4,1024,not,0 depart,3,1000 depart,3,1001000 update,4,1001000 \\
    update,4,1001001 update,4,1001002 arrive,1,1001003,5,500,ect0,0 \\
    arrive,2,1001003,6,500,not,0 | pie run

The last lines of the output are

  update,4,1001000,2000000,830077294,0
  update,4,1001001,2000000,53955024169,0
  update,4,1001002,2000000,903954174169,0
  arrive,1,1001003,5,500,ect0,0,mark
  arrive,2,1001003,6,500,not,0,early"
}

/// Returns the page of `pie storm`.
pub(crate) fn storm_page() -> &'static [u8] {
    b"Runs one controller under many threads at once and writes its history
--senders 2-8 | Number of senders, 2 to 8. Default: 2
--packets 1-10000 | Packets of each sender. Default: 100 | Number of packets of each sender, 1 to 10000. Default: 100
--burst 1-1024 | Packets in one call. Default: 1 | Number of packets in one call of a sender, 1 to 1024. Default: 1
--seed 0-18446744073709551615 | Seed of the random words. Default: 1 | Seed of the random words, 0 to 2^64 - 1. Default: 1
--load 50-200 | Load in per cent, 50 to 200. Default: 100 | Arriving packets in per cent of the link's capacity, 50 to 200. Default: 100
--changes 0-100 | Changes of the parameters. Default: 0 | Number of changes of the parameters, 0 to 100. Default: 0
--folds 0-100 | Removals from the event log. Default: 0 | Number of removals of events from the event log, 0 to 100. Default: 0
--profile 1-2 | 2 turns itself on and off. Default: 1 | 1: the controller is always active; 2: it turns itself on and off (5.3). Default: 1
--delay rate|stamp | Source of the delay. Default: rate | Source of the delay: departure rate (5.2) or time stamps (4.3). Default: rate
--picking derandomized|random | Choice of packets. Default: derandomized | Probabilities accumulate (5.4), or the random word alone decides. Default: derandomized
--step capped|uncapped | Limit of a rise. Default: capped | A rise is at most 0.02 from a probability of 0.1 on (5.5), or has no limit. Default: capped
--size unscaled|scaled | Scaling by size. Default: unscaled | scaled: packets below mean_pkt are picked less often, in proportion. Default: unscaled
--decay zero|half | Delays at which it decays. Default: zero | The probability decays at delays of 0 (4.2), or below half the target. Default: zero
--count | Print numbers of events and of changes | Print the numbers of events and of changes of caller to standard error. Default: off

Each sender sends a packet each millisecond, in a thread of its own. A thread makes as many
departures as packets are sent, spread evenly over that time. Another thread makes an update each 15
milliseconds. With --load 120 the intervals between departures are 1.2 times as long, so packets
wait, and some are marked or dropped early. With --changes a thread sets a reference delay of 5 ms
and the default one in turn. With --folds a thread removes the oldest events from the event log, in
total as many as packets are sent. Changes and folds are spread evenly over the time too.

All moments are planned, and no clock is read. The random words follow from the seed. The order of
the threads is not planned, so two storms can have different histories. The threads start together.
None is more than four milliseconds of the plan ahead of another, unless the other thread is not
scheduled.

With --burst 32 a sender passes 32 packets in one call. All arrive at the moment of the last one,
with no event of another thread between them. The last burst can be shorter. Each departure is a
call of its own.

--profile, --delay, --picking, --step, --size and --decay choose elements of RFC 8033, in the
sections given above. With time stamps the delay does not change while the link stalls, because no
packet departs.

The history opens with the default parameters, in the format of pie run. It has the folded events
and the events left in the log. They are audited before the history is written.

Example: three senders with ten packets each, and the audit of the history:

  pie storm --senders 3 --packets 10 | pie audit"
}

/// Returns the page of `pie params`.
pub(crate) fn params_page() -> &'static [u8] {
    b"Converts options of tc to the first record of a trace
--rate RATE | Rate of the link, such as 100mbit | Rate of the link, such as 100mbit: the limits are 200 ms at it. Default: 262144 bytes, 1000 packets
--target TIME | Reference delay. Default: 15ms
--tupdate TIME | Time between updates. Default: 15ms
--limit PACKETS | Capacity of the queue, such as 1000p | Capacity of the queue in packets, such as 1000p. Default: limit_bytes / 64, or 1000 without --rate
--alpha 0-32 | Gain alpha of tc, 0 to 32. Default: 2
--beta 0-32 | Gain beta of tc, 0 to 32. Default: 20
--ecn | Mark packets of ECN-capable endpoints | Mark packets of ECN-capable endpoints. Default: off, they are dropped
--bytemode | Pick small packets less often | Pick a packet below the MTU less often, in proportion to its size. Default: off
--mtu 1-65535 | MTU of the link in bytes. Default: 1514 | MTU of the link in bytes, for --bytemode and the warnings about --limit. Default: 1514
--dq_rate_estimator | Compute delays from the departure rate | Compute delays from the departure rate. Default: off, from time stamps
--no_derandomization | Pick packets by the random word alone | Pick packets by the random word alone. Default: off
--no_cap_drop_adjustment | Do not cap a rise of the probability | Do not cap a rise of the probability. Default: off
--decay zero|half | Delays at which it decays. Default: zero | Decay at delays of 0, or below half the target. Default: zero
--overhead BYTES | Bytes added to each packet. Default: 0 | Bytes that the link adds to each packet, -65535 to 65535. Default: 0
--mpu 0-65535 | Least size in bytes. Default: 0 | Least size of a packet on the link, in bytes. Default: 0
--linklayer ethernet|atm|adsl | Format of the link. Default: ethernet | Format of the link; atm and adsl are cells of 53 bytes. Default: ethernet

The record opens a rolling book of version three with at most 2^47 events:
open3,1,<delay>,<picking>,<step>,<size>,rolling,0,<packets>,<tail>,<events>. The keyword half
follows <size> if it is the decay. The nine parameters follow unless all have their defaults. pie
run --help describes the fields.

TIME, RATE and PACKETS are written as for tc, in upper or lower case:
  TIME     a number with ns, us, ms or s, such as 20ms or 1.5msec.
  RATE     a number with bit, kbit, mbit, gbit or tbit; with kibit, mibit, gibit or tibit (powers of
           1024); or in bytes per second with bps, kbps, kibps and so on. Examples: 100mbit,
           12.5mbps.
  PACKETS  a number of packets, with or without p.
Values are not rounded: 1.5ns and 0.5bit are errors. A negative overhead needs an equals sign:
--overhead=-14.

alpha and beta are in sixteenths per second, as for tc: 2 and 20 are 125 and 1250 thousandths, the
values of RFC 8033. With --ecn, packets of ECN-capable endpoints are marked while the probability is
below 10 per cent.

Without --rate, the limits are 262144 bytes and 1000 packets. With --rate, limit_bytes is 200 ms at
the rate, at least 25000 and at most 2^30, and the limit in packets is limit_bytes / 64, at most
2^20. --limit replaces the limit in packets. Standard error has a warning
if limit_bytes is below rate x target, and if --limit, in packets of --mtu, is below rate x (target +
burst allowance) or above one second at the rate. The burst allowance is 150 ms.

By default the delay is the waiting time of the packet that departed last. With --dq_rate_estimator
it is computed from an estimate of the departure rate. Too few bytes in the queue can stop the
estimate from changing. Standard error has a warning if dq_threshold, 16384, is above half of rate x
target.

--bytemode scales the probability of a packet below the MTU by its size. --no_derandomization and
--no_cap_drop_adjustment switch UseDerandomization and UseCapDropAdjustment of ns-3 off, which are
always on with tc. With --decay half the probability decays at delays below half the target, as in
DPDK's rte_pie; tc decays at delays of 0.

--overhead, --mpu and --linklayer are those of tc stab. The packets of the trace must then have their
sizes on the link, as examples/link records them. mean_pkt is the size on the link of a packet of
1024 bytes, or with --bytemode of the MTU, as tc stab computes it. limit_bytes is 200 ms of bytes on
the link.

Example: the options of tc qdisc add dev eth0 root pie target 20ms limit 2000p ecn, at 100 Mbit/s:

  pie params --rate 100mbit --target 20ms --limit 2000p --ecn

The output is one line:

  open3,1,stamp,derandomized,capped,unscaled,rolling,0,2000,2000,140737488355328,20000000,15000000,150000000,125,1250,1024,2500000,100000000000,16384"
}
