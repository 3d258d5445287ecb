//! The relation of the probability to the delay (RFC 8033, sections 4.2, 5.1 and 5.5).
//! The bounds of the departure rate estimate (RFC 8033, section 5.2).
ghost use Rattle.std.specs.Prelude.{◌≡◌, ◌≤◌, ◌<◌, ◌+◌, ◌*◌, ◌/◌, ◌^◌, min, ◌⊎◌, ◌++◌, ◌∷◌, [], List, ℕ, true, false, All, length};
ghost use Rattle.pie_control.specs.History.{decays, next, tuning_divisor};
ghost use Rattle.pie_guarantees.specs.{effect_of, is_update, Event, Opening, RawParams, active_after, delay_after, params_after, updates_in, AllAlong, AtEachEvent, BetweenAny, IsLawful, IsActiveUpdate, IsSteady, after_updates, least_rise, old_delay_after, probability_after, untuned_fall, untuned_rise, updates_to_a_tenth, AtEachHistory, IsBetween, samples_after, bytes_after};
ghost use Rattle.pie_params.specs.Params.{is_capped, usual, default_profile};
ghost use Rattle.pie_params.specs.declared.elements.Elements.{Elements};
ghost use Rattle.pie_params.specs.declared.elements.Delay.TheVariants.{Rate};
ghost use Rattle.pie_book.specs.Decision.{average_after};

/// The probability is always 0 to 1, in units of 10^-12 (`bounded`). An update of an active controller does not
/// decrease it if the delay is at least the target and has not fallen (`rises`). It does not increase it if the delay
/// is at most the target and has not risen (`falls`). From 10 per cent on an increase is at most 2 points if steps
/// are capped (`capped`). An update with delays at which the probability decays, and neither of which has risen,
/// leaves at most 98 hundredths of it (`decays`). No other event increases it (`nothing_else_raises`).
pub fn the_probability_follows_the_delay()
    ensures bounded { (opening : Opening) (history : List Event) → IsLawful opening history → probability_after opening history ≤ 10 ^ 12 }
    ensures rises { AtEachEvent (λ opening before event. IsActiveUpdate opening before event
        → (params_after opening before).target ≤ delay_after opening before → old_delay_after opening before ≤ delay_after opening before
        → probability_after opening before ≤ probability_after opening (before ++ event ∷ [])) }
    ensures falls { AtEachEvent (λ opening before event. IsActiveUpdate opening before event
        → delay_after opening before ≤ (params_after opening before).target → delay_after opening before ≤ old_delay_after opening before
        → probability_after opening (before ++ event ∷ []) ≤ probability_after opening before) }
    ensures capped { AtEachEvent (λ opening before event. IsActiveUpdate opening before event → is_capped opening.choices.elements.step ≡ true
        → 100_000_000_000 ≤ probability_after opening before
        → probability_after opening (before ++ event ∷ []) ≤ probability_after opening before + 20_000_000_000) }
    ensures decays { AtEachEvent (λ opening before event. IsActiveUpdate opening before event
        → decays opening.choices.elements.decay (params_after opening before) (delay_after opening before) (old_delay_after opening before) ≡ true
        → delay_after opening before ≤ old_delay_after opening before
        → probability_after opening (before ++ event ∷ []) * 100 ≤ probability_after opening before * 98) }
    ensures nothing_else_raises { AtEachEvent (λ opening before event. (is_update (effect_of event) ≡ false) ⊎ (active_after opening before ≡ false)
        → probability_after opening (before ++ event ∷ []) ≤ probability_after opening before) }
{}

/// A higher delay never gives a lower next probability, if all other numbers are equal (`delay`). If rises are capped, a higher probability before an
/// update can give a lower one after it: at a delay of one second, after none, 10 per cent becomes 12, and a hair less than 10 becomes 78.7 (`below`,
/// `from_a_tenth`).
#[tactic(auto, using(crate::proofs::ProbabilityFacts::next_mono, crate::proofs::ProbabilityFacts::at_a_tenth))]
pub fn causes_of_a_higher_probability()
    ensures delay { (elements : Elements) (params : RawParams) (prob : ℕ) (old : ℕ) (delay : ℕ) (more : ℕ) → delay ≤ more
        → next elements params prob delay old ≤ next elements params prob more old }
    ensures below { next usual default_profile 99_999_999_999 1_000_000_000 0 ≡ 786_562_499_999 }
    ensures from_a_tenth { next usual default_profile 100_000_000_000 1_000_000_000 0 ≡ 120_000_000_000 }
{}

/// While each update has the same delay, the probability is that after the number of updates of one delay
/// (`steady`). With the defaults, from 0 at twice the target it is at least 10 per cent after 162 updates, 2.43
/// seconds, if the update before these had that delay too (`tenth_at_last`, `not_before`). If that update had no
/// delay, 158 updates, 2.37 seconds, are enough (`from_rest`, `not_from_rest_before`). If the probability decays, it
/// falls by at least 2 per cent with each update (`fades`); without delay from 1 to a tenth in 87 updates, 1.3
/// seconds (`faded`, `not_yet_faded`).
#[tactic(auto, using(crate::proofs::ProbabilityFacts::exactly, crate::proofs::ProbabilityFacts::fades_with_updates, crate::proofs::ProbabilityFacts::steadily))]
pub fn speed_of_the_probability()
    ensures steady { (delay : ℕ) → BetweenAny (λ opening before between. AllAlong (IsSteady delay opening) before between
        → probability_after opening (before ++ between)
        ≡ after_updates (updates_in between) opening.choices.elements (params_after opening before) delay (probability_after opening before)) }
    ensures tenth_at_last { after_updates 162 usual default_profile 30_000_000 0 ≡ 100_178_833_003 }
    ensures not_before { after_updates 161 usual default_profile 30_000_000 0 ≡ 99_241_333_003 }
    ensures from_rest { after_updates 157 usual default_profile 30_000_000 (next usual default_profile 0 30_000_000 0) ≡ 100_185_241_696 }
    ensures not_from_rest_before { after_updates 156 usual default_profile 30_000_000 (next usual default_profile 0 30_000_000 0) ≡ 99_247_741_696 }
    ensures fades { (delay : ℕ) → BetweenAny (λ opening before between. AllAlong (IsSteady delay opening) before between
        → decays opening.choices.elements.decay (params_after opening before) delay delay ≡ true
        → probability_after opening (before ++ between) * 100 ^ updates_in between ≤ probability_after opening before * 98 ^ updates_in between) }
    ensures faded { after_updates 87 usual default_profile 0 1_000_000_000_000 ≡ 96_421_179_148 }
    ensures not_yet_faded { after_updates 86 usual default_profile 0 1_000_000_000_000 ≡ 100_263_958_315 }
{}

/// The effect of n updates of one delay on a probability, by the table of auto-tuning (RFC 8033, section 4.2), for
/// any parameters. They increase the probability by at least n times alpha over the divisor of the first probability
/// for each nanosecond above the target, at most 2 points each (`rises`). While it is at most `most`, they increase
/// it by at most n times alpha over the divisor at `most` for each such nanosecond (`rises_no_faster`). Below the
/// target they decrease it in the same way (`falls`, and if it does not decay `falls_no_faster`). So it is at 10 per
/// cent after the sum of the updates that each row of the table takes (`to_a_tenth`): with the defaults at twice the
/// target after 164 (`at_twice_the_target`); the exact number is 162. If it decays, 114 updates leave at most a tenth
/// (`fades_to_a_tenth`).
#[tactic(auto, using(crate::proofs::ProbabilityFacts::a_tenth_is_left, crate::proofs::ProbabilityFacts::falls_at_least, crate::proofs::ProbabilityFacts::falls_at_most, crate::proofs::ProbabilityFacts::reaches_a_tenth, crate::proofs::ProbabilityFacts::rises_at_least, crate::proofs::ProbabilityFacts::rises_at_most), unfolding(pie_control::specs::History::tuning_divisor))]
pub fn steady_delays_move_the_probability()
    ensures rises { (elements : Elements) (params : RawParams) (delay : ℕ) → 0 < params.target → params.target ≤ delay → (n : ℕ) (prob : ℕ)
        → prob ≤ 10 ^ 12 → min (10 ^ 12) (prob + n * least_rise params delay prob) ≤ after_updates n elements params delay prob }
    ensures rises_no_faster { (elements : Elements) (params : RawParams) (delay : ℕ) → 0 < params.target → params.target ≤ delay
        → (n : ℕ) (prob : ℕ) (most : ℕ) → prob ≤ 10 ^ 12 → after_updates n elements params delay prob ≤ most
        → after_updates n elements params delay prob ≤ prob + n * (untuned_rise params delay / tuning_divisor most) }
    ensures falls { (elements : Elements) (params : RawParams) (delay : ℕ) → delay ≤ params.target → (n : ℕ) (prob : ℕ) (least : ℕ) → 0 < least
        → least ≤ after_updates n elements params delay prob
        → after_updates n elements params delay prob + n * (untuned_fall params delay / tuning_divisor least) ≤ prob }
    ensures falls_no_faster { (elements : Elements) (params : RawParams) (delay : ℕ) → delay ≤ params.target → (n : ℕ) (prob : ℕ) → prob ≤ 10 ^ 12
        → decays elements.decay params delay delay ≡ false
        → prob ≤ after_updates n elements params delay prob + n * (untuned_fall params delay / tuning_divisor prob) }
    ensures to_a_tenth { (elements : Elements) (params : RawParams) (delay : ℕ) → 0 < params.target → params.target ≤ delay
        → 2048 ≤ untuned_rise params delay → (n : ℕ) (prob : ℕ) → prob ≤ 10 ^ 12 → updates_to_a_tenth params delay ≤ n
        → 10 ^ 11 ≤ after_updates n elements params delay prob }
    ensures at_twice_the_target { updates_to_a_tenth default_profile 30_000_000 ≡ 164 }
    ensures fades_to_a_tenth { (n : ℕ) (elements : Elements) (params : RawParams) (delay : ℕ) (prob : ℕ)
        → decays elements.decay params delay delay ≡ true → 114 ≤ n → after_updates n elements params delay prob * 10 ≤ prob }
{}

/// The estimated time in which `dq_threshold` bytes depart lies between the shortest and the longest sample since
/// the estimate was cleared, if there is a sample (`between`, RFC 8033, section 5.2). Without a sample it is 0
/// (`unmeasured`), and the delay counts as 0.
#[tactic(auto, using(crate::proofs::ProbabilityFacts::average_between, crate::proofs::ProbabilityFacts::no_average))]
pub fn the_rate_lies_between_its_samples()
    ensures between { (least : ℕ) (most : ℕ) → AtEachHistory (λ opening history. 0 < length (samples_after opening history)
        → All (IsBetween least most) (samples_after opening history) → IsBetween least most (average_after opening history)) }
    ensures unmeasured { AtEachHistory (λ opening history. length (samples_after opening history) ≡ 0 → average_after opening history ≡ 0) }
{}

/// The bounds of the estimated delay, if the delay comes from the departure rate and there is a sample. It is at most the queued bytes times the
/// longest sample, over `dq_threshold`. It is at least the queued bytes times the shortest sample, over `dq_threshold`, or 2^40 nanoseconds, the
/// greatest delay, if that is less (RFC 8033, section 5.2; the greatest delay is this project's own).
#[tactic(auto, using(crate::proofs::ProbabilityFacts::estimate_between))]
pub fn the_estimated_delay_lies_between()
    ensures { (least : ℕ) (most : ℕ) → AtEachHistory (λ opening history. opening.choices.elements.delay ≡ Rate
        → 0 < length (samples_after opening history) → All (IsBetween least most) (samples_after opening history)
        → IsBetween (min (2 ^ 40) (bytes_after opening history * least / (params_after opening history).dq_threshold))
        (bytes_after opening history * most / (params_after opening history).dq_threshold) (delay_after opening history)) }
{}
