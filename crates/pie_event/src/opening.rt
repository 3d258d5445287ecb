//! The opening of a book.
//! The times at which a controller is active.
ghost use Rattle.std.specs.Prelude.{◌≡◌};
ghost use Rattle.pie_event.specs.Event.{are_in_range, are_of_version_two, Bounded, One};
ghost use Rattle.pie_params.specs.Params.{usual};

pub use pie_params::Elements;
use pie_params::Params;

/// The limits of a book (this project's own), not yet checked.
#[derive(Clone, Copy, Debug, PartialEq, Eq)]
pub struct Limits {
    /// The greatest number of packets in the ring: 1 to `2^20`.
    pub packets: u32,
    /// The greatest number of events in the event log: 1 to 1048576.
    pub tail: u32,
    /// The greatest number of events in all: 1 to `2^47`.
    pub events: u64,
}

impl Limits {
    /// The greatest ring, in packets.
    pub const MAX_PACKETS: u32 = 1_048_576;
    /// The longest event log, in events.
    pub const MAX_TAIL: u32 = 1_048_576;
    /// The greatest number of events: about 55 days of the smallest frames at 10 Gbit/s, each with its
    /// departure.
    pub const MAX_EVENTS: u64 = 1 << 47;

    /// Returns true if each limit is in its range.
    pub fn are_in_range(self) -> bool
        ensures { result ≡ are_in_range self }
    {
        (1 <= self.packets && self.packets <= Self::MAX_PACKETS)
            && (1 <= self.tail && self.tail <= Self::MAX_TAIL)
            && (1 <= self.events && self.events <= Self::MAX_EVENTS)
    }

    /// Returns true if a text of version one or two can open with these limits: at most 65536 packets and at most
    /// `2^40` events. The limits are in their ranges.
    pub fn are_of_version_two(self) -> bool
        ensures { result ≡ are_of_version_two self }
    {
        self.packets <= 65536 && self.events <= 1 << 40
    }
}

/// The behaviour of a full event log (this project's own).
#[derive(Clone, Copy, Debug, PartialEq, Eq)]
pub enum Mode {
    /// A command that would add an event to a full event log is refused. Only folds remove events from the event log.
    Bounded,
    /// The oldest event of a full event log moves into the checkpoint. The caller does not receive it.
    Rolling,
}

/// Further choices of an opening, fixed for the life of the book (this project's own).
#[derive(Clone, Copy, Debug, PartialEq, Eq)]
pub struct Choices {
    /// The behaviour of a full event log.
    pub mode: Mode,
    /// The times at which the controller is active.
    pub profile: Profile,
    /// Optional elements of RFC 8033 (section 5).
    pub elements: Elements,
}

/// The opening of a book, stored unchanged.
#[derive(Clone, Copy, Debug, PartialEq, Eq)]
pub struct Opening {
    /// The opening moment, in nanoseconds: at most `2^60 - 1`.
    pub moment: u64,
    /// The limits, each in its range.
    pub limits: Limits,
    /// The parameters.
    pub params: Params,
    /// The behaviour of a full event log, the times at which the controller is active, and its optional elements.
    pub choices: Choices,
}

impl Opening {
    /// Returns an opening with the default choices: a bounded event log, profile one, and the default elements.
    pub fn usual(limits: Limits, params: Params, moment: u64) -> Opening
        ensures { result ≡ record { moment = moment; limits = limits; params = params; choices = record { mode = Bounded; profile = One; elements = usual } } }
    {
        Opening {
            moment,
            limits,
            params,
            choices: Choices {
                mode: Mode::Bounded,
                profile: Profile::One,
                elements: Elements::usual(),
            },
        }
    }
}

/// The times at which the controller is active (after RFC 8033, section 5.3; the conditions for switching, and the
/// state that is reset, are this project's own).
#[derive(Clone, Copy, Debug, PartialEq, Eq)]
pub enum Profile {
    /// Always.
    One,
    /// Inactive at the opening. An arrival after which a third of `limit_bytes` is queued activates the controller, and
    /// so does a reset. A calm update deactivates it. While it is inactive, no packet is marked or dropped early, and
    /// updates compute nothing.
    Two,
}
