//! Conservation of packets: the fate of every packet, the size of the queue, and the waiting times.
ghost use Rattle.std.specs.Prelude.{◌≡◌, ◌≤◌, ◌+◌, ◌*◌, ◌^◌, ◌++◌, ◌∷◌, [], All, List, ℕ, Some, length};
ghost use Rattle.pie_guarantees.specs.{effect_of, Event, Opening, Packet, params_after, bytes_after, waiting_after, count_of, is_dropped_bytes, AtEachEvent, AtEachHistory, BetweenAny, is_dropped_packets, Carries, SetsLimit, packet_queued, packets_departed, packets_arrived, packets_queued, packets_waiting, time_of, IsLawful};
ghost use Rattle.pie_book.specs.Decision.{is_dropped_early, is_marked, is_queued};

/// Every arriving packet is queued, marked, dropped early, or dropped because there is no room, exactly once
/// (`once`). The packets that departed, followed by the queued ones, are exactly those that were queued or marked,
/// in the order of their arrivals (`order`). They are unchanged except for CE if one was marked. Both are this
/// project's own.
#[tactic(auto, using(crate::proofs::LawfulFacts::each_once, crate::proofs::LawfulFacts::in_order))]
pub fn every_packet_is_accounted_for()
    ensures once { AtEachHistory (λ opening history. packets_arrived history ≡ count_of is_queued history + count_of is_marked history + count_of is_dropped_early history
        + count_of is_dropped_bytes history + count_of is_dropped_packets history) }
    ensures order { AtEachHistory (λ opening history.
        packets_departed history ++ packets_waiting opening history ≡ packets_queued history) }
{}

/// No more packets wait than the ring holds (`packets`). A packet that is queued or marked fits under `limit_bytes` with all that wait
/// (`bytes_queued`, RFC 8033, Appendix A). So no more bytes ever wait than the greatest `limit_bytes` that was ever in force (`bytes`); new
/// parameters may lower it below the bytes that wait already.
#[tactic(auto, using(crate::proofs::LawfulFacts::in_the_ring, crate::proofs::LawfulFacts::room_for_bytes, crate::proofs::LawfulFacts::bytes_below))]
pub fn queues_stay_within_their_limits()
    ensures packets { AtEachHistory (λ opening history. length (waiting_after opening history) ≤ opening.limits.packets) }
    ensures bytes_queued { AtEachEvent (λ opening before event. (packet : Packet) → packet_queued (effect_of event) ≡ Some packet
        → bytes_after opening (before ++ event ∷ []) ≤ (params_after opening before).limit_bytes) }
    ensures bytes { (most : ℕ) → AtEachHistory (λ opening history. opening.params.limit_bytes ≤ most
        → All (λ event. SetsLimit most event.command) history → bytes_after opening history ≤ most) }
{}

/// If the number of departures after some moment equals the number of queued packets then, the departing packets are
/// the queued ones, in order (`first_in_first_out`). So let a packet be queued then and depart with the last of the
/// events between. It waits at most `limit_bytes` divided by the rate at which the link carried packets in that time
/// (`waits`): 262144 bytes at 10 Mbit/s are 210 milliseconds. Both are this project's own.
pub fn waits_are_bounded()
    ensures first_in_first_out { BetweenAny (λ opening before between. length (packets_departed between) ≡ length (waiting_after opening before)
        → packets_departed between ≡ packets_waiting opening before) }
    ensures waits { (rate : ℕ) (opening : Opening) (before : List Event) (event : Event) (between : List Event) (later : List Event)
        (packet : Packet) → IsLawful opening (before ++ event ∷ [] ++ between ++ later) → packet_queued (effect_of event) ≡ Some packet
        → length (packets_departed between) ≡ length (waiting_after opening (before ++ event ∷ []))
        → Carries rate opening (before ++ event ∷ []) between
        → rate * time_of opening (before ++ event ∷ []) between ≤ 8 * 10 ^ 9 * (params_after opening before).limit_bytes }
{}
