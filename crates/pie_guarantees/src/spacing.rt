//! The distance between picked packets if probabilities accumulate (RFC 8033, section 5.4).
ghost use Rattle.std.specs.Prelude.{◌≡◌, ◌≤◌, ◌<◌, ◌+◌, ◌*◌, ◌++◌, ◌∷◌, [], List, ℕ};
ghost use Rattle.pie_params.specs.declared.elements.Picking.TheVariants.{Derandomized};
ghost use Rattle.pie_guarantees.specs.{Event, Opening, AllAlong, IsLawful, EffectiveAtLeast, EffectiveAtMost, IsUnpicked, considered_in, effective_prob_at, IsEarly, AtEachEvent, BetweenAny, effective_sum_in, picks_in, restarts_in};
ghost use Rattle.pie_book.specs.Decision.{accu_after};

/// A packet that is marked or dropped early leaves an accumulated probability of 0 (RFC 8033, section 5.4).
#[tactic(auto, using(crate::proofs::SpacingFacts::picks_clear))]
pub fn picks_reset_the_sum()
    ensures { AtEachEvent (λ opening before event. IsEarly event → accu_after opening (before ++ event ∷ []) ≡ 0) }
{}

/// If probabilities accumulate and the probability counts as at most `most` for each considered packet: between one
/// picked packet and the next, inclusive, the number of considered packets times `most` is at least 0.85 (RFC 8033,
/// section 5.4). Other restarts of the accumulated probability between them increase that number. At 1 per cent at
/// most one of 85 is picked.
pub fn picks_are_far_apart()
    ensures { (most : ℕ) (opening : Opening) (before : List Event) (between : List Event) (event : Event) (later : List Event)
        → IsLawful opening (before ++ between ++ event ∷ later) → opening.choices.elements.picking ≡ Derandomized
        → accu_after opening before ≡ 0 → AllAlong (EffectiveAtMost most opening) before between
        → effective_prob_at opening (before ++ between) event ≤ most → IsEarly event
        → 850_000_000_000 ≤ (considered_in opening before between + 1) * most }
{}

/// Let probabilities accumulate, and let the effective probability of each considered packet be at least `least`, above 0. While no packet is picked,
/// and nothing else resets the accumulated probability, the number of considered packets times `least` is below 8.5 (RFC 8033, section 5.4). So at 1
/// per cent at least one of 850 in a row is picked, and after a tail drop the count begins again.
#[tactic(auto, using(crate::proofs::SpacingFacts::not_too_far))]
pub fn picks_are_not_too_far_apart()
    ensures { (least : ℕ) → BetweenAny (λ opening before between. opening.choices.elements.picking ≡ Derandomized → 0 < least
        → AllAlong (EffectiveAtLeast least opening) before between → AllAlong (IsUnpicked opening) before between
        → considered_in opening before between * least < 8_500_000_000_000) }
{}

/// If probabilities accumulate and the effective probability is less than 0.85, no two consecutive considered packets are picked. From one pick to the
/// next either a packet between them is considered and not picked, or the effective probability is at least 0.85 for the next (RFC 8033, section 5.4).
/// This law does not concern flows: one flow may receive every pick (`one_flow_may_receive_every_pick`).
pub fn picks_are_not_consecutive()
    ensures { (opening : Opening) (before : List Event) (first : Event) (between : List Event) (second : Event) (later : List Event)
        → IsLawful opening (before ++ first ∷ [] ++ between ++ second ∷ later) → opening.choices.elements.picking ≡ Derandomized → IsEarly first
        → considered_in opening (before ++ first ∷ []) between ≡ 0 → IsEarly second
        → 850_000_000_000 ≤ effective_prob_at opening (before ++ first ∷ [] ++ between) second }
{}

/// Conservation (RFC 8033, section 5.4). If probabilities accumulate, take the sum of the effective probabilities over
/// the packets considered between any two places. It is at least 0.85 for each pick if the accumulated probability is
/// 0 at the first place (`at_least`). It is less than 9.5 for each pick plus 8.5 for each other restart and for the
/// last, unfinished sum (`at_most`). Other restarts are tail drops, resets, arrivals that activate the controller,
/// and packets that are considered while the probability counts as 0. So these bound the share of picked packets for
/// any course of the probability.
///
/// If each effective probability is at most `most`, and the accumulated probability is 0 at the first place, 0.85 for
/// each pick is at most the number of considered packets times `most` (`few`). If each is also at least `least`, this
/// number times `least` is less than 8.5 plus `most` for each pick, plus 8.5 for each other restart and for the last,
/// unfinished sum (`many`). So at a constant probability p, and without other restarts, the share of picked packets
/// lies between p / (8.5 + p) and p / 0.85 over a long time.
pub fn picks_share_the_probability()
    ensures at_least { BetweenAny (λ opening before between. opening.choices.elements.picking ≡ Derandomized → accu_after opening before ≡ 0
        → 850_000_000_000 * picks_in between ≤ effective_sum_in opening before between) }
    ensures at_most { BetweenAny (λ opening before between. opening.choices.elements.picking ≡ Derandomized
        → effective_sum_in opening before between
        < 9_500_000_000_000 * picks_in between + 8_500_000_000_000 * (restarts_in opening before between + 1)) }
    ensures few { (most : ℕ) → BetweenAny (λ opening before between. opening.choices.elements.picking ≡ Derandomized → accu_after opening before ≡ 0
        → AllAlong (EffectiveAtMost most opening) before between
        → 850_000_000_000 * picks_in between ≤ considered_in opening before between * most) }
    ensures many { (least : ℕ) (most : ℕ) → BetweenAny (λ opening before between. opening.choices.elements.picking ≡ Derandomized
        → AllAlong (EffectiveAtLeast least opening) before between → AllAlong (EffectiveAtMost most opening) before between
        → considered_in opening before between * least
        < (8_500_000_000_000 + most) * picks_in between + 8_500_000_000_000 * (restarts_in opening before between + 1)) }
{}
