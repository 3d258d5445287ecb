ghost use Rattle.std.specs.Prelude.{◌≡◌};
ghost use Rattle.pie_linux.specs.Numbers.{full_burst, scaled, ticks, unset};
ghost use Rattle.pie_linux.specs.Update.{restarted};

/// The probability 1, in units of 2^-56 (`MAX_PROB`).
pub(crate) const ONE: u64 = u64::MAX >> 8;

/// A moment or count that is not set (`DTIME_INVALID`, `DQCOUNT_INVALID`).
pub(crate) const UNSET: u64 = u64::MAX;

/// The burst allowance after a restart, 150 ms in ticks (`pie_vars_init`).
const FULL_BURST: u64 = 150_000_000 / 64;

/// The controller's state, of a queue or of one flow of fq_pie (`struct pie_vars`).
#[derive(Clone, Copy, PartialEq, Eq)]
pub struct LinuxState {
    /// The delay, in ticks.
    pub qdelay: u64,
    /// The delay of the update before, in ticks.
    pub qdelay_old: u64,
    /// The burst allowance, in ticks.
    pub burst_time: u64,
    /// The moment of the last departure, or of the measurement's beginning, in ticks; 2^64 - 1 without one.
    pub dq_tstamp: u64,
    /// The probability, in units of 2^-56. It may exceed 1.
    pub prob: u64,
    /// The accumulated probability, in units of 2^-56.
    pub accu_prob: u64,
    /// The bytes of the measurement; 2^64 - 1 without one.
    pub dq_count: u64,
    /// The average departure rate, in 1/256 byte for each tick.
    pub avg_dq_rate: u32,
    /// The backlog of the last update, in bytes. It decides nothing.
    pub backlog_old: u32,
}

impl LinuxState {
    /// Makes the state of a new queue or flow (`pie_init`, `fq_pie_init`).
    pub fn new() -> LinuxState
        ensures { result ≡ record {
          qdelay = 0;
          qdelay_old = 0;
          burst_time = full_burst;
          dq_tstamp = unset;
          prob = 0;
          accu_prob = 0;
          dq_count = unset;
          avg_dq_rate = 0;
          backlog_old = 0;
        } }
    {
        LinuxState {
            qdelay: 0,
            qdelay_old: 0,
            burst_time: FULL_BURST,
            dq_tstamp: UNSET,
            prob: 0,
            accu_prob: 0,
            dq_count: UNSET,
            avg_dq_rate: 0,
            backlog_old: 0,
        }
    }

    /// Resets the queue, or restarts after an update: the probability and the delays are unchanged (`pie_reset`,
    /// `fq_pie_reset`, `pie_vars_init`).
    pub fn restart(&mut self)
        ensures { self.new ≡ restarted self.old }
    {
        self.burst_time = FULL_BURST;
        self.dq_tstamp = UNSET;
        self.accu_prob = 0;
        self.dq_count = UNSET;
        self.avg_dq_rate = 0;
    }
}

/// Returns a moment of the kernel's monotonic clock, in nanoseconds, in ticks (`psched_get_time`).
pub fn ticks(nanoseconds: u64) -> u64
    ensures { result ≡ ticks nanoseconds }
{
    nanoseconds / 64
}

/// Returns `bytes` in units of 1/256 byte, in 32 bits, as Linux does by `<< PIE_SCALE`.
#[inline(always)]
pub(crate) fn scaled(bytes: u64) -> u32
    ensures { result ≡ scaled bytes }
{
    (bytes % (1 << 24)) as u32 * 256
}
