//! Laws: a controller's state stays in its ranges and equals the look-back.
ghost use Rattle.std.specs.Prelude.{◌≡◌, ◌≤◌, ◌<◌, ◌^◌, ◌++◌, ◌∷◌, [], ℕ, List, None};
ghost use Rattle.pie_aqm.specs.{RawParams, Elements, Profile, ControllerEvent, Opened, Call, IsTaken, after_call, event_of_call, IsSound, Represents, state_of, opened};
ghost use Rattle.pie_params.specs.Params.{first_bad};
ghost use Rattle.pie_aqm.specs.Steps.{ControllerState};

/// States that a controller's state is sound at its opening and after each call whose moment and parameters are in
/// their ranges: each number is in its range, no moment is later than the effective one, and in profile one the
/// controller is active (this project's own).
///
/// The body is empty: the contract is the law.
pub fn calls_keep_it_sound()
    ensures opens { (profile : Profile) (elements : Elements) (params : RawParams) (moment : ℕ) → first_bad params ≡ None → moment < 2 ^ 60
        → IsSound (opened profile elements params moment) }
    ensures calls { (state : ControllerState) → IsSound state → (call : Call) → IsTaken call → IsSound (after_call state call) }
{}

/// States that calls extend the represented history: if a state represents events e1 to en, the state after a call
/// represents e1 to en and the event of the call. The state then equals the look-back over the events (RFC 8033,
/// sections 4.1, 4.2, 4.4 and 5.1 to 5.5).
///
/// The body is empty: the contract is the law, for a caller without a controller.
#[tactic(auto, using(crate::proofs::Laws::Represents_opened, crate::proofs::Laws::represents_called, crate::proofs::Laws::state_is))]
pub fn calls_look_back()
    ensures opens { (profile : Profile) (elements : Elements) (params : RawParams) (moment : ℕ)
        → Represents (record { profile = profile; elements = elements; params = params; moment = moment }) [] (opened profile elements params moment) }
    ensures calls { (opened : Opened) (events : List ControllerEvent) (state : ControllerState) → Represents opened events state
        → state.params.dq_threshold ≤ 65536
        → (call : Call) → Represents opened (events ++ event_of_call state call ∷ []) (after_call state call) }
    ensures look_back { (opened : Opened) (events : List ControllerEvent) (state : ControllerState) → Represents opened events state
        → state ≡ state_of opened events }
{}
