//! The time within which a lasting delay is answered, and the time in which a controller recovers without delay (RFC 8033, sections 4.1, 4.2,
//! 4.4 and 5.4).
ghost use Rattle.std.specs.Prelude.{◌≡◌, ◌≤◌, ◌<◌, ◌*◌, ◌^◌, ◌++◌, ◌∷◌, List, ℕ, true};
ghost use Rattle.pie_control.specs.History.{next};
ghost use Rattle.pie_params.specs.Params.{usual, default_profile};
ghost use Rattle.pie_guarantees.specs.{Event, Opening, active_after, bytes_after, effect_of, params_after, AllAlong, BetweenAny, IsLasting, IsLawful, burst_left, had_room, probability_after, untuned_rise, updates_in, updates_to_a_tenth, was_considered, after_updates, untuned_fall, FindsNoDelay, HasRecovered};

/// Let each update find a delay that is at least `least`, at least the target, and at least the delay of the update before it. After the number of
/// updates that the rows of the table of auto-tuning take, the probability is at least 10 per cent (`probability`): with the defaults after 164 at
/// twice the target (`at_twice_the_target`). After ⌈allowance / `t_update`⌉ updates the burst allowance is used up (`burst`). From then on, and after
/// the first such update, each arrival that finds room, and more than two mean packets in the queue, is considered (`considered`). So by
/// `picks_are_not_too_far_apart`, if probabilities accumulate, at most 84 more of these arrivals pass before the first is picked.
pub fn lasting_delays_raise_the_probability()
    ensures probability { (least : ℕ) → BetweenAny (λ opening before between. (params_after opening before).target ≤ least
        → 2048 ≤ untuned_rise (params_after opening before) least → AllAlong (IsLasting least opening) before between
        → updates_to_a_tenth (params_after opening before) least ≤ updates_in between → 10 ^ 11 ≤ probability_after opening (before ++ between)) }
    ensures burst { (least : ℕ) → BetweenAny (λ opening before between. (params_after opening before).target ≤ least
        → AllAlong (IsLasting least opening) before between
        → burst_left opening before ≤ updates_in between * (params_after opening before).t_update → burst_left opening (before ++ between) ≡ 0) }
    ensures considered { (least : ℕ) (opening : Opening) (before : List Event) (between : List Event) (event : Event) (later : List Event)
        → IsLawful opening (before ++ between ++ event ∷ later) → (params_after opening before).target ≤ least
        → AllAlong (IsLasting least opening) before between → 0 < updates_in between
        → burst_left opening before ≤ updates_in between * (params_after opening before).t_update → active_after opening (before ++ between) ≡ true
        → 2 * (params_after opening before).mean_pkt < bytes_after opening (before ++ between) → had_room (effect_of event) ≡ true
        → was_considered opening (before ++ between) event ≡ true }
    ensures at_twice_the_target { updates_to_a_tenth default_profile 30_000_000 ≡ 164 }
{}

/// Let an active controller be in any state, and let no update find a delay and no parameters be set from then on. After at most 182 updates the
/// probability is 0 and the burst allowance is whole, if alpha times the target is at least that of the defaults (`by_default`, `defaults`): 2.73
/// seconds of updates 15 milliseconds apart. From some states exactly this number is needed (`not_sooner`). From probability 1, with no delay before,
/// 178 updates are needed, 2.67 seconds (`from_one`, `not_yet`). With any parameters at most 1204 updates are needed (`in_any_case`), and exactly
/// this number with an alpha and a beta of 0 (`slowest`).
#[tactic(auto, using(crate::proofs::ResponseFacts::recovers_by_default, crate::proofs::ResponseFacts::recovers_in_any_case, crate::proofs::ResponseFacts::as_slow))]
pub fn controllers_recover()
    ensures by_default { BetweenAny (λ opening before between. active_after opening before ≡ true
        → 1_875_000_000 ≤ untuned_fall (params_after opening before) 0 → AllAlong (FindsNoDelay opening) before between
        → 182 ≤ updates_in between → HasRecovered opening (before ++ between)) }
    ensures in_any_case { BetweenAny (λ opening before between. active_after opening before ≡ true → AllAlong (FindsNoDelay opening) before between
        → 1204 ≤ updates_in between → HasRecovered opening (before ++ between)) }
    ensures defaults { untuned_fall default_profile 0 ≡ 1_875_000_000 }
    ensures not_sooner { after_updates 180 usual default_profile 0 (next usual default_profile 986_448_007_965 0 1) ≡ 1 }
    ensures from_one { after_updates 178 usual default_profile 0 1_000_000_000_000 ≡ 0 }
    ensures not_yet { after_updates 177 usual default_profile 0 1_000_000_000_000 ≡ 1_988_772 }
    ensures slowest { after_updates 1202 usual (record default_profile { alpha = 0; beta = 0 }) 0
        (next usual (record default_profile { alpha = 0; beta = 0 }) 1_000_000_000_000 0 1) ≡ 1 }
{}
