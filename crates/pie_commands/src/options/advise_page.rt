//! The page of `pie advise`: its arguments and its help.

/// Returns the page of `pie advise`.
pub(crate) fn advise_page() -> &'static [u8] {
    b"Advises on the parameters of a queue for a link
--rate RATE | Rate of the link, such as 20mbit. Required
--rtt RANGE | Round-trip times, such as 10ms-100ms. Required | Round-trip times without the queue, such as 10ms-100ms. Required
--flows RANGE | Numbers of flows, such as 1-16. Required | Numbers of flows that send at the same time, such as 1-16. Required
--overhead BYTES | Bytes that the link adds to a packet. Default: 0 | Bytes that the link adds to each packet, -65535 to 65535. Default: 0
--ecn | Mark packets of ECN-capable endpoints | Mark packets of ECN-capable endpoints. Default: off, they are dropped

RATE is written as for pie params, such as 20mbit. RANGE is a value, or the least and the greatest one
with a dash between them: --rtt 10ms-100ms, --flows 1-16. A round-trip time is that of the path
without the queue. --flows counts the TCP flows that send at the same time.

The advice has
  - each parameter with its reason;
  - complete lines for tc (pie of Linux, and pie_recorded of this project; DEV is the device), for
    programs in C, for the stage for DPDK and DPDK's own rte_pie, and the record that opens a
    trace, which is the one of pie params --rate RATE;
  - the margins of stability by a linear model of Reno flows (docs/GUARANTEES.md): those of the link
    or, for ranges, the least ones of all their round-trip times and numbers of flows, rounded down.
    The model has windows of 2 to 1,000,000 packets and round-trip times up to 10 s. The margins are
    tested, and not proved;
  - the decay half, if the phase margin is below 10 degrees;
  - the predicted mean wait;
  - warnings.

Parameters are the defaults of RFC 8033. limit_bytes is 200 ms at the rate, at least 25000 and at
most 2^30, as for pie params and the libraries. A queue whose only limit is in packets (pie, rte_pie)
gets the number of packets of 1514 bytes in limit_bytes, and rte_pie at most 65535, with a warning.

The predicted mean wait is the square root of target^2 + t^2. t is the time of two packets of mean_pkt
bytes at the rate. There is no prediction if the loop of the model is unstable, above the model's
round-trip times and windows, for a single flow, and if a packet of 1500 bytes of each flow is more
than limit_bytes. Otherwise the prediction is within 20 per cent of the mean wait of the stored runs
(docs/PARAMETERS.md), except for 4 flows at 50 Mbit/s and 20 ms.

There is a warning if limit_bytes is below rate x (target + max_burst), or above a second at the rate.

Example:

  pie advise --rate 20mbit --rtt 10ms-50ms --flows 4-16 --ecn"
}
