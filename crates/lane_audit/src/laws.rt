//! What the least place of a difference says about two columns.
ghost use Rattle.lane_audit.specs.LeastPlaces.{EqualWithoutDifference, LeastDifference};

/// Two columns of one length are the same below the first difference and differ at it. Without a
/// difference they are equal.
pub fn least_difference()
    ensures difference { LeastDifference }
    ensures no_difference { EqualWithoutDifference }
{}
