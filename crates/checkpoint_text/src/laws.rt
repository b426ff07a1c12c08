//! When bytes have no fault.
ghost use Rattle.checkpoint_text.specs.Origins.{FaultlessIfSpelled};

/// Bytes have no fault, read for the bank that they state, exactly if they spell a checkpoint of some
/// bank.
pub fn faultless_if_spelled()
    ensures { FaultlessIfSpelled }
{}
