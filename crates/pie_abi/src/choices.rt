//! Choices of an opening, from their numbers.
ghost use Rattle.std.specs.Prelude.{◌≡◌};
ghost use Rattle.pie_abi.specs.Structs.{elements_of, profile_of};

use pie_event::Profile;
use pie_params::{Decay, Delay, Elements, Picking, Size, Step};

/// Returns the optional elements of the flags `choices`.
#[inline(always)]
#[tactic(auto, unfolding(crate::specs::Structs::elements_of))]
pub fn elements(choices: u64) -> Elements
    ensures { result ≡ elements_of choices }
{
    let delay = if choices % 2 == 1 {
        Delay::Stamp
    } else {
        Delay::Rate
    };
    let picking = if choices / 2 % 2 == 1 {
        Picking::Random
    } else {
        Picking::Derandomized
    };
    let step = if choices / 4 % 2 == 1 {
        Step::Uncapped
    } else {
        Step::Capped
    };
    let size = if choices / 8 % 2 == 1 {
        Size::Scaled
    } else {
        Size::Unscaled
    };
    let decay = if choices / 16 % 2 == 1 {
        Decay::Half
    } else {
        Decay::Zero
    };
    Elements {
        delay,
        picking,
        step,
        size,
        decay,
    }
}

/// Returns the profile of `number`.
#[inline(always)]
pub fn profile(number: u64) -> Profile
    ensures { result ≡ profile_of number }
{
    if number == 2 {
        Profile::Two
    } else {
        Profile::One
    }
}
