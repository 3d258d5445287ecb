//! The time for which a burst passes (RFC 8033, section 4.4).
//! The effect of a moment that is far ahead on updates.
ghost use Rattle.std.specs.Prelude.{◌≡◌, ◌≤◌, ◌+◌, ◌*◌, ◌++◌, ◌∷◌, [], All, List, min, ℕ, false, true, ◌<◌, Some};
ghost use Rattle.pie_guarantees.specs.{Event, Opening, active_after, params_after, parts_after, effective_moment, AllAllow, IsAllowed, IsWhole, AtEachEvent, BetweenAny, IsCalmUpdate, KeepsParams, burst_left, updates_in, IsLawful, IsEarly, Update, effect_of, is_update};
ghost use Rattle.pie_book.specs.Types.{Reset};
ghost use Rattle.pie_book.specs.Decision.{refusal_by_rule};
ghost use Rattle.pie_event.specs.declared.refusal.Refusal.TheVariants.{TooSoon};
ghost use Rattle.pie_event.specs.Event.{caller_moment};

/// The burst allowance is whole at the opening, after a reset, after an arrival that turns the controller on, and after each calm update. A calm
/// update finds the delay below half the target, as the update before it did, and leaves the probability at 0 (RFC 8033, sections 4.4 and 5.3).
pub fn allowances_begin_whole()
    ensures opening { (opening : Opening) → IsLawful opening [] → IsWhole opening [] }
    ensures reset { AtEachEvent (λ opening before event. (moment : ℕ) → event.command ≡ Reset moment → IsWhole opening (before ++ event ∷ [])) }
    ensures turned_on { AtEachEvent (λ opening before event. active_after opening before ≡ false → active_after opening (before ++ event ∷ []) ≡ true
        → IsWhole opening (before ++ event ∷ [])) }
    ensures calm { AtEachEvent (λ opening before event. IsCalmUpdate opening before event → IsWhole opening (before ++ event ∷ [])) }
{}

/// From any moment on, by the remaining burst allowance: ⌈remaining allowance / `t_update`⌉ updates come before the
/// first packet that is marked or dropped early (`updates`, RFC 8033, section 4.4). A reset and a calm update set
/// the allowance to `max_burst`, also if that is less. So the allowance that lasts is the remaining one, at most `max_burst`. Since
/// updates are `t_update` apart, the first such packet comes no sooner than this allowance, less one `t_update`, after
/// that moment (`earliest`). It comes no sooner than this allowance after the last update before that moment, or after
/// the opening (`since_last_update`). From a whole allowance with the defaults these are 10 updates, 135 and 150
/// milliseconds.
///
/// If parameters change, the least allowance and the greatest and least intervals of all apply (`apart` for the
/// time). The remaining allowance is at most `max_burst` if parameters never changed (`allowed`).
pub fn burst_allowance_lasts()
    ensures updates { (burst : ℕ) (least : ℕ) (most : ℕ) (opening : Opening) (before : List Event) (between : List Event) (event : Event)
        (later : List Event) → IsLawful opening (before ++ between ++ event ∷ later) → burst ≤ burst_left opening before
        → AllAllow burst least most opening before between → IsEarly event → burst ≤ updates_in between * most }
    ensures apart { (burst : ℕ) (least : ℕ) (most : ℕ) → BetweenAny (λ opening before between. burst ≤ burst_left opening before
        → AllAllow burst least most opening before between
        → effective_moment opening before + updates_in between * least ≤ effective_moment opening (before ++ between) + least) }
    ensures earliest { (opening : Opening) (before : List Event) (between : List Event) (event : Event) (later : List Event)
        → IsLawful opening (before ++ between ++ event ∷ later) → All (λ event. KeepsParams event.command) between → IsEarly event
        → effective_moment opening before + min (burst_left opening before) (params_after opening before).max_burst
        ≤ effective_moment opening (before ++ between) + (params_after opening before).t_update }
    ensures since_last_update { (opening : Opening) (before : List Event) (between : List Event) (event : Event) (later : List Event)
        → IsLawful opening (before ++ between ++ event ∷ later) → All (λ event. KeepsParams event.command) between → IsEarly event
        → (parts_after opening before).last + min (burst_left opening before) (params_after opening before).max_burst
        ≤ effective_moment opening (before ++ between) }
    ensures allowed { (opening : Opening) (before : List Event) (later : List Event) → IsLawful opening (before ++ later)
        → All (λ event. KeepsParams event.command) before → IsAllowed opening before }
{}

/// Let a moment be `ahead` nanoseconds above the greatest moment before it. After it an update is refused as too soon
/// only if its own moment is less than `ahead` plus one `t_update` after that greatest moment (`ahead`). So a
/// moment far ahead delays updates by at most `ahead` nanoseconds. In general, an update is refused only if it is
/// less than one `t_update` after the greatest moment so far (`at_most`), and after an update each such update is
/// (`exactly`; RFC 8033, section 4.2; the effective moment is this project's own).
pub fn a_clock_ahead_delays_updates()
    ensures at_most { (opening : Opening) (before : List Event) (later : List Event) → IsLawful opening (before ++ later) → (moment : ℕ) (due : ℕ)
        → refusal_by_rule opening before (Update moment) ≡ Some (TooSoon due)
        → moment < effective_moment opening before + (params_after opening before).t_update }
    ensures ahead { AtEachEvent (λ opening before event. (ahead : ℕ) (moment : ℕ) (due : ℕ)
        → caller_moment event.command ≡ effective_moment opening before + ahead
        → refusal_by_rule opening (before ++ event ∷ []) (Update moment) ≡ Some (TooSoon due)
        → moment < effective_moment opening before + ahead + (params_after opening (before ++ event ∷ [])).t_update) }
    ensures exactly { AtEachEvent (λ opening before event. is_update (effect_of event) ≡ true → (moment : ℕ) → moment < 1_152_921_504_606_846_976
        → moment < effective_moment opening (before ++ event ∷ []) + (params_after opening before).t_update
        → refusal_by_rule opening (before ++ event ∷ []) (Update moment)
        ≡ Some (TooSoon (effective_moment opening (before ++ event ∷ []) + (params_after opening before).t_update))) }
{}
