//! The conditions for a mark or an early drop, and the queue after one (RFC 8033, sections 4.1, 4.4 and 5.1; RFC 3168).
ghost use Rattle.std.specs.Prelude.{◌≡◌, ◌≤◌, ◌<◌, ◌*◌, ◌++◌, ◌∷◌, [], false};
ghost use Rattle.pie_book.specs.Types.{Empty};
ghost use Rattle.pie_guarantees.specs.{active_after, params_after, parts_after, bytes_after, waiting_after, is_early, AtEachEvent, IsEarly, MarksOnlyCapable, OnlyMarks, SparesCapable};

/// While burst allowance is left no packet is marked or dropped early (RFC 8033, section 4.4).
#[tactic(auto, using(crate::proofs::BurstFacts::in_a_burst))]
pub fn no_early_drop_within_burst_allowance()
    ensures { AtEachEvent (λ opening before event. 0 < (parts_after opening before).burst → is_early event.answer ≡ false) }
{}

/// While at most two packets of the mean size wait, by their bytes, none is marked or dropped early (RFC 8033, section 4.1).
#[tactic(auto, using(crate::proofs::BurstFacts::at_a_short_queue))]
pub fn no_early_drop_in_short_queues()
    ensures { AtEachEvent (λ opening before event. bytes_after opening before ≤ 2 * (params_after opening before).mean_pkt
        → is_early event.answer ≡ false) }
{}

/// While the last update's delay is below half the target, and the probability below 20 per cent, no packet is marked or dropped early
/// (RFC 8033, section 4.1).
#[tactic(auto, using(crate::proofs::BurstFacts::at_low_delay))]
pub fn no_early_drop_at_low_delay()
    ensures { AtEachEvent (λ opening before event. 2 * (parts_after opening before).old_delay < (params_after opening before).target
        → (parts_after opening before).prob < 200_000_000_000 → is_early event.answer ≡ false) }
{}

/// While the controller is inactive no packet is marked or dropped early (RFC 8033, section 5.3; profile two alone is ever inactive).
#[tactic(auto, using(crate::proofs::BurstFacts::while_inactive))]
pub fn no_early_drop_while_inactive()
    ensures { AtEachEvent (λ opening before event. active_after opening before ≡ false → is_early event.answer ≡ false) }
{}

/// A packet whose endpoints understand a mark is never dropped early while the probability is below `mark_ecnth` (RFC 8033, section 5.1).
#[tactic(auto, using(crate::proofs::BurstFacts::capable_spared))]
pub fn capable_packets_are_not_dropped_early()
    ensures { AtEachEvent (λ opening before event. OnlyMarks opening before → SparesCapable event) }
{}

/// A packet whose endpoints don't understand a mark is never marked (RFC 3168, section 5).
#[tactic(auto, using(crate::proofs::BurstFacts::only_capable_marked))]
pub fn only_capable_packets_are_marked()
    ensures { AtEachEvent (λ opening before event. MarksOnlyCapable event) }
{}

/// After a packet was marked or dropped early, the queue holds more than two mean packets, by bytes (`early`, RFC 8033, section 4.1). A departure
/// returns no packet only if none is queued (`empty`, this project's own). So early drop never empties the queue, and the link idles only if no
/// packet is queued.
#[tactic(auto, using(crate::proofs::BurstFacts::empty_if_none, crate::proofs::BurstFacts::leaves_two))]
pub fn the_link_does_not_idle()
    ensures early { AtEachEvent (λ opening before event. IsEarly event
        → 2 * (params_after opening before).mean_pkt < bytes_after opening (before ++ event ∷ [])) }
    ensures empty { AtEachEvent (λ opening before event. event.answer ≡ Empty → waiting_after opening before ≡ []) }
{}
