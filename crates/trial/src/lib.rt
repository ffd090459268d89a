// For the tests alone: calls that the library for C does not have, so that the second program's cases reach them too. tests/host/trial.h declares them.
#![tactic(auto)]

ghost use Rattle.golay.specs.Calls.{distance_rule};
ghost use Rattle.hands.specs.Hands.{HandsBack, itself};

#[unsafe(no_mangle)]
pub extern "C" fn trial_distance(a: u32, b: u32, distance: &mut u32) -> u8
    ensures { HandsBack (distance_rule a b) itself distance.old distance.new result }
{
    hands::hand_back(golay::distance(a, b), distance)
}
