//! Worked histories: statements that do not follow, and cases close to the bounds.
ghost use Rattle.std.specs.Prelude.{◌≡◌, ◌<◌, ◌++◌, ◌∷◌, [], ℕ, Some};
ghost use Rattle.pie_book.specs.Decision.{IsLegal, refusal_by_rule};
ghost use Rattle.pie_event.specs.declared.refusal.Refusal.TheVariants.{TooSoon};
ghost use Rattle.pie_guarantees.specs.{Update, flows_in_turn, flows_opening, half_is_reached, last_update, picks_of};
ghost use Rattle.pie_guarantees.specs.{params_after, bytes_after, effective_moment, IsWhole, burst_begins, burst_continues, burst_opening, first_drop};
ghost use Rattle.pie_guarantees.specs.{lowered, lowered_opening, IsEarly};

/// More bytes can wait than `limit_bytes` allows: 1000 wait when new parameters lower it to 500.
#[tactic(auto, using(crate::proofs::Examples::lowered_below))]
pub fn limits_may_be_lowered_below_the_queue()
    ensures legal { IsLegal lowered_opening lowered }
    ensures waiting { bytes_after lowered_opening lowered ≡ 1000 }
    ensures limit { (params_after lowered_opening lowered).limit_bytes ≡ 500 }
{}

/// A burst that begins just before an update has its first early drop no later than the law of bursts allows, up to
/// one nanosecond: with updates 100 apart and an allowance of 200, its first packet arrives at 99, and the first
/// early drop is at 200. With the defaults' ten updates that is 135 milliseconds, and not 150.
#[tactic(auto, using(crate::proofs::Examples::early_at_bound))]
pub fn burst_bound_is_tight()
    ensures legal { IsLegal burst_opening (burst_begins ++ burst_continues ++ first_drop ∷ []) }
    ensures whole { IsWhole burst_opening burst_begins }
    ensures began { effective_moment burst_opening burst_begins ≡ 99 }
    ensures dropped { effective_moment burst_opening (burst_begins ++ burst_continues) ≡ 200 }
    ensures early { IsEarly first_drop }
{}

/// After an update at the last moment of all, 2^60 - 1, every later update is refused, whatever its moment: here one `t_update` is 100.
#[tactic(auto, using(crate::proofs::Examples::clock_at_its_end))]
pub fn a_clock_at_its_end_refuses_every_update()
    ensures legal { IsLegal burst_opening last_update }
    ensures refused { (moment : ℕ) → moment < 1_152_921_504_606_846_976
        → refusal_by_rule burst_opening last_update (Update moment) ≡ Some (TooSoon 1_152_921_504_606_847_075) }
{}

/// Spacing does not concern flows: two flows send in turn at a probability of a half, and flow 1 receives every pick.
#[tactic(auto, using(crate::proofs::Examples::one_flow_picked))]
pub fn one_flow_may_receive_every_pick()
    ensures legal { IsLegal flows_opening (half_is_reached ++ flows_in_turn) }
    ensures one { picks_of 1 flows_in_turn ≡ 3 }
    ensures other { picks_of 2 flows_in_turn ≡ 0 }
{}
