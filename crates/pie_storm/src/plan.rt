//! The plan of a storm.
//! The numbers of a storm.
ghost use Rattle.std.specs.Prelude.{◌≡◌, ◌≤◌, ◌^◌, ◌-◌, ◌↔◌, IsTrue, All, Option, drop, length, map, min, slice_get, take, ◌+◌};
ghost use Rattle.pie_storm.specs.Plans.{IsMoment, IsSoundArrival, IsSound, arriving, calls_after_senders, calls_of, changing, opening_of, planned, senders, turn_of};

use pie_book::{Choices, Command, Elements, Limits, Mode, Opening, Profile};
use pie_fixed::MAX_NANOS;
use pie_link::Arrival;
use pie_params::Params;
use pie_queue::MAX_SIZE;

/// The greatest number of arrivals of a sender's call.
pub const LONGEST_BURST: u16 = 1024;

/// New parameters from a moment on (this project's own).
#[derive(Clone, Copy)]
pub struct Change {
    /// The moment in nanoseconds, at most `2^60 - 1`.
    pub moment: u64,
    /// The new parameters.
    pub params: Params,
}

impl Change {
    // Returns the change as a call.
    fn call(&self) -> Call
        ensures { result ≡ changing self.now }
    {
        Call::Apply(Command::SetParams {
            moment: self.moment,
            params: self.params,
        })
    }
}

/// A call of a storm's caller (this project's own).
#[derive(Clone, Copy)]
pub enum Call {
    /// A command.
    Apply(Command),
    /// A fold of this number of events.
    Fold(u64),
}

/// The calls of each worker of a storm (this project's own). Moments are nanoseconds, at most `2^60 - 1`; those of a
/// list may fall. With N lists of arrivals, callers 1 to N send them, caller N + 1 makes the departures, N + 2 the
/// updates, N + 3 the changes of the parameters, and N + 4 the folds.
#[derive(Drop)]
pub struct Plan {
    /// The limits of the book. Tail and events have room for all arrivals, departures, updates and changes.
    pub limits: Limits,
    /// The parameters at the opening.
    pub params: Params,
    /// The moment of the opening.
    pub moment: u64,
    /// The profile of the controller.
    pub profile: Profile,
    /// The optional elements (RFC 8033, section 5).
    pub elements: Elements,
    /// The packets of each sender: 2 to 8 lists.
    pub arrivals: Vec<Vec<Arrival>>,
    /// The number of packets in a sender's call of `Link::arrive_all`, 1 to 1024; the last call may have fewer. In
    /// bursts of 1 a sender calls `Link::arrive`.
    pub burst: u16,
    /// The moments of the departures.
    pub departs: Vec<u64>,
    /// The moments of the updates.
    pub updates: Vec<u64>,
    /// The changes of the parameters.
    pub changes: Vec<Change>,
    /// The number of events of each fold.
    pub folds: Vec<u64>,
}

// Returns true if moment and size are in their ranges.
fn is_sound(arrival: &Arrival) -> bool
    ensures { IsTrue result ↔ IsSoundArrival arrival.now }
{
    arrival.moment <= MAX_NANOS && 1 <= arrival.packet.size && arrival.packet.size <= MAX_SIZE
}

fn are_sound(arrivals: &[Arrival]) -> bool
    ensures { IsTrue result ↔ All IsSoundArrival arrivals.now }
{
    arrivals.iter().all(is_sound)
}

fn are_moments(moments: &[u64]) -> bool
    ensures { IsTrue result ↔ All IsMoment moments.now }
{
    moments.iter().all(|moment| *moment <= MAX_NANOS)
}

impl Plan {
    // Returns the number of commands, at most `2^64 - 1`.
    #[tactic(auto, using(crate::proofs::StormFacts::total_more))]
    fn planned(&self) -> u64
        requires { senders self.now ≤ 8 }
        ensures { result ≡ min (planned self.now) (2 ^ 64 - 1) }
    {
        let mut count = 0u64;
        for caller in 0..self.arrivals.len() as u16 + 4 {
            count = count.saturating_add(self.calls(caller) as u64);
        }
        count
    }

    // Returns true if the limits of the event log and of events have room for all commands.
    fn has_room(&self) -> bool
        requires { senders self.now ≤ 8 }
        ensures { IsTrue result ↔ (planned self.now ≤ self.now.limits.tail) × (planned self.now ≤ self.now.limits.events) }
    {
        let planned = self.planned();
        planned <= u64::from(self.limits.tail) && planned <= self.limits.events
    }

    // Returns true if the number of senders, the arrivals of a burst and the moment of the opening are in their ranges.
    fn has_sound_numbers(&self) -> bool
        ensures { IsTrue result ↔ (2 ≤ senders self.now) × (senders self.now ≤ 8) × (1 ≤ self.now.burst) × (self.now.burst ≤ 1024)
            × IsMoment self.now.moment }
    {
        let senders = self.arrivals.len();
        2 <= senders
            && senders <= 8
            && 1 <= self.burst
            && self.burst <= LONGEST_BURST
            && self.moment <= MAX_NANOS
    }

    /// Returns true if a storm accepts the plan.
    pub(crate) fn is_sound(&self) -> bool
        ensures { IsTrue result ↔ IsSound self.now }
    {
        self.has_sound_numbers()
            && self.arrivals.iter().all(|list| are_sound(list.as_slice()))
            && are_moments(self.departs.as_slice())
            && are_moments(self.updates.as_slice())
            && self.changes.iter().all(|change| change.moment <= MAX_NANOS)
            && self.has_room()
    }

    /// Returns the opening of the book, which is bounded.
    pub(crate) fn opening(&self) -> Opening
        ensures { result ≡ opening_of self.now }
    {
        Opening {
            moment: self.moment,
            limits: self.limits,
            params: self.params,
            choices: Choices {
                mode: Mode::Bounded,
                profile: self.profile,
                elements: self.elements,
            },
        }
    }

    /// Returns the number of a caller's calls.
    #[tactic(auto, unfolding(crate::specs::Plans::calls_of))]
    pub(crate) fn calls(&self, caller: u16) -> usize
        ensures { result ≡ length (calls_of self.now caller) }
    {
        let senders = self.arrivals.len();
        let place = usize::from(caller);
        if place == 0 {
            0
        } else if place <= senders {
            self.arrivals[place - 1].len()
        } else if place - senders == 1 {
            self.departs.len()
        } else if place - senders == 2 {
            self.updates.len()
        } else if place - senders == 3 {
            self.changes.len()
        } else if place - senders == 4 {
            self.folds.len()
        } else {
            0
        }
    }

    /// Returns the number of commands of a caller's turn at the link: those of a burst for a sender, otherwise one.
    pub(crate) fn turn(&self, caller: u16) -> usize
        ensures size { result ≡ turn_of self.now caller }
        ensures some { IsSound self.now → 1 ≤ result }
    {
        let place = usize::from(caller);
        if 1 <= place && place <= self.arrivals.len() {
            usize::from(self.burst)
        } else {
            1
        }
    }

    /// Returns the `count` arrivals of a sender after its first `k`.
    #[tactic(auto, unfolding(crate::specs::Plans::calls_of))]
    pub(crate) fn burst(&self, caller: u16, k: usize, count: usize) -> &[Arrival]
        requires sender { (1 ≤ caller) × (caller ≤ senders self.now) }
        requires there { k + count ≤ length (calls_of self.now caller) }
        ensures long { length result.now ≡ count }
        ensures value { map arriving result.now ≡ take count (drop k (calls_of self.now caller)) }
    {
        part(self.arrivals[usize::from(caller) - 1].as_slice(), k, count)
    }

    /// Returns the call of a caller after its first `k`.
    #[tactic(auto, unfolding(crate::specs::Plans::calls_of))]
    pub(crate) fn call(&self, caller: u16, k: usize) -> Option<Call>
        ensures { result ≡ slice_get (calls_of self.now caller) k }
    {
        let senders = self.arrivals.len();
        let place = usize::from(caller);
        if place == 0 {
            None
        } else if place <= senders {
            let call = |it: &Arrival| Call::Apply(it.command());
            self.arrivals[place - 1].as_slice().get(k).map(call)
        } else {
            self.call_after_senders(place - senders, k)
        }
    }

    // Returns the call after the first `k` of the `n`-th caller after the last sender.
    fn call_after_senders(&self, n: usize, k: usize) -> Option<Call>
        ensures { result ≡ slice_get (calls_after_senders self.now n) k }
    {
        if n == 1 {
            let call = |it: &u64| Call::Apply(Command::Depart { moment: *it });
            self.departs.as_slice().get(k).map(call)
        } else if n == 2 {
            let call = |it: &u64| Call::Apply(Command::Update { moment: *it });
            self.updates.as_slice().get(k).map(call)
        } else if n == 3 {
            let call = |it: &Change| it.call();
            self.changes.as_slice().get(k).map(call)
        } else if n == 4 {
            let call = |it: &u64| Call::Fold(*it);
            self.folds.as_slice().get(k).map(call)
        } else {
            None
        }
    }
}

// Returns the `count` arrivals after the first `k`.
fn part(arrivals: &[Arrival], k: usize, count: usize) -> &[Arrival]
    requires { k + count ≤ length arrivals.now }
    ensures { result.now ≡ take count (drop k arrivals.now) }
{
    &arrivals[k..k + count]
}

/// The numbers from which a storm is planned, and the choices of its book (this project's own).
#[derive(Clone, Copy)]
pub struct StormNumbers {
    /// The number of senders, 2 to 8.
    pub senders: u16,
    /// The number of packets of each sender, 1 to 10,000.
    pub packets: u32,
    /// The number of arrivals that a sender makes in one call, 1 to 1024.
    pub burst: u16,
    /// The seed of the senders' random words.
    pub seed: u64,
    /// The load: arriving packets for each hundred that the link sends, 50 to 200.
    pub load: u64,
    /// The number of changes of the parameters, 0 to 100.
    pub changes: u64,
    /// The number of folds, 0 to 100.
    pub folds: u64,
    /// The profile of the controller.
    pub profile: Profile,
    /// The optional elements (RFC 8033, section 5).
    pub elements: Elements,
}
