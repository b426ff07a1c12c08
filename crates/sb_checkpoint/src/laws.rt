//! What holds for the spelling of checkpoints.
ghost use Rattle.sb_checkpoint.specs.Checkpoint.{OneCheckpoint};
ghost use Rattle.sb_checkpoint.specs.Reading.{SpellingHasNoFault, FaultlessBytesSpell};

/// Bytes spell at most one checkpoint, in one layout.
pub fn one_checkpoint()
    ensures { OneCheckpoint }
{}

/// Bytes that spell a checkpoint in either layout are read without a fault.
pub fn spelling_has_no_fault()
    ensures { SpellingHasNoFault }
{}

/// Bytes that are read without a fault spell a checkpoint in one of the layouts, with as many
/// customers as they are read for.
pub fn faultless_bytes_spell()
    ensures { FaultlessBytesSpell }
{}
