//! Looking up the names of a part of a log.
ghost use Rattle.std.specs.Prelude.{◌≡◌, length, map, OnOk};
ghost use Rattle.sb_calls.specs.Op.{op_of};
ghost use Rattle.bank_server.specs.inner.Appends.{AreOpsWithin};

use sb_calls::{Call, Op, resolve};
use sb_rows::Directory;
use std::alloc::AllocError;

/// Looks up the names of these calls, and puts their ops in place of what the list had.
///
/// Fails if memory is refused.
pub(crate) fn resolve_part(
    calls: &[Call],
    directory: &Directory,
    ops: &mut Vec<Op>,
) -> Result<(), AllocError>
    ensures value { OnOk result (ops.new.items ≡ map (op_of directory.now) calls.now) }
    ensures within { OnOk result (AreOpsWithin (length directory.now) ops.new.items) }
{
    ops.clear();
    for call in calls {
        ops.push(resolve(directory, call))?;
    }
    Ok(())
}
