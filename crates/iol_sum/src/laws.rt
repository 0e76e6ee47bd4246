//! Remembered sums while the store changes. The functions do nothing; their contracts are the laws.
ghost use Rattle.iol_sum.specs.Laws.{StayRight, StayRightAsBuffersAreMade, StayRightAsHoldsMove};

/// Remembered sums stay right as long as no live buffer changes and no identity is used twice.
///
/// Every call of a store ensures this: calls that move references by `Stays`, and calls that make
/// buffers by `Grows`.
pub fn sums_stay_right()
    ensures kept { StayRight }
    ensures moved { StayRightAsHoldsMove }
    ensures grown { StayRightAsBuffersAreMade }
{}
