//! The link for callers in C: a static library that `include/pie_link.h` declares.
//!
//! A port is one caller of a link, and belongs to one thread at a time; other threads have ports of their own, which
//! `pie_link_share_port` makes. C holds a port as a struct with a pointer, which is null if the port is closed. A call
//! at a closed port returns the code `CLOSED` and changes nothing. A port owns a box with the caller and a share of the
//! link; their ownership goes with the struct (`specs/Owned.antt`). `ports_cross_threads` checks that a port and an
//! excerpt may go to another thread; that only one thread uses a pointer is the caller's duty. Closing the last port
//! frees the link.
//!
//! The clause of each call is pie_link's clause about the caller: in contracts an open port is its caller's front and
//! numbers. No call waits. `pie_link_open_port` promises the headline: whenever the link's lock is free, there is one
//! history behind all its ports. Contracts state each field that a call writes to its caller's event
//! (`specs/Calls.antt`), and each record of an excerpt's text (`specs/Bursts.antt`).
#![tactic(auto)]

mod burst;
mod calls;
mod code;
mod event_results;
mod excerpt;
mod handle;
mod port;
mod ports;
mod readings;
