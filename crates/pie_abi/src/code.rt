//! Return codes of the calls, with their numbers in `include/pie.h`.
ghost use Rattle.std.specs.Prelude.{◌≡◌};
ghost use Rattle.pie_abi.specs.Structs.{verdict_number};

use pie_event::Verdict;

/// The call is done. For an arrival: the caller queues the packet unchanged.
pub const DONE: u32 = 0;

/// The caller queues the packet with its ECN field set to CE.
pub const MARK: u32 = 1;

/// The caller drops the packet: early drop picked it.
pub const EARLY: u32 = 2;

/// The caller drops the packet: the queue would exceed the byte limit.
pub const OVER_BYTES: u32 = 3;

/// The caller drops the packet: its ring is full.
pub const OVER_PACKETS: u32 = 4;

/// The queue is empty: no packet departs.
pub const NONE: u32 = 5;

/// Refused: a moment above `2^60 - 1`.
pub const BAD_MOMENT: u32 = 101;

/// Refused: a size outside 1 to 65535.
pub const BAD_SIZE: u32 = 102;

/// Refused: an update before the due moment.
pub const TOO_SOON: u32 = 103;

/// Refused: a parameter out of its range.
pub const BAD_PARAMS: u32 = 107;

/// Refused: a state whose fields are out of range or contradict each other.
pub const BAD_STATE: u32 = 110;

/// Refused: an ECN field above 3.
pub const BAD_ECN: u32 = 111;

/// Refused: more than 2^30 bytes in the queue.
pub const BAD_QUEUE: u32 = 112;

/// Refused: a profile that is neither 1 nor 2.
pub const BAD_PROFILE: u32 = 113;

/// Refused: a text that is not a number with a unit of its kind.
pub const NOT_A_NUMBER: u32 = 114;

/// Refused: a text that is more precise than a whole number.
pub const TOO_PRECISE: u32 = 115;

/// Refused: a text of a number above `2^60 - 1`.
pub const TOO_GREAT: u32 = 116;

/// Refused: choices with an unknown flag.
pub const BAD_CHOICES: u32 = 117;

/// Refused: a packet that arrived later than the state's moment.
pub const BAD_ARRIVED: u32 = 118;

/// Refused: a departure without the packet's arrival, at a state whose delay comes from time stamps.
pub const NOT_WAITED: u32 = 119;

/// Refused: a mode or a limit of an opening out of its range.
pub const BAD_LIMITS: u32 = 120;

/// Returns the code of a verdict.
pub fn of_verdict(verdict: Verdict) -> u32
    ensures { result ≡ verdict_number verdict }
{
    match verdict {
        Verdict::Enqueued => DONE,
        Verdict::Marked => MARK,
        Verdict::DroppedEarly => EARLY,
        Verdict::DroppedBytes => OVER_BYTES,
        Verdict::DroppedPackets => OVER_PACKETS,
    }
}
