//! The state of each replica, as text.
ghost use Rattle.std.specs.Prelude.{◌≡◌, ℕ, ◌<◌, ◌++◌, Some, length, slice_get, OnOk};
ghost use Rattle.sb_rows.specs.Text.{unlines};
ghost use Rattle.schedule_player.specs.ReplicaMoves.{NodeOf};
ghost use Rattle.schedule_player.specs.RunText.{state_lines, states_from};

use crate::world::World;
use sb_text::list_rows;
use schedule_text::push_numbered;
use std::alloc::AllocError;

/// Writes for each replica its number and the length of its log, and, if it has nothing unfinished,
/// its rows and the total.
pub(crate) fn push_states(world: &World, out: &mut Vec<u8>) -> Result<(), AllocError>
    ensures { OnOk result (out.new.items ≡ out.old.items ++ unlines (states_from world.now 0 world.now.nodes)) }
{
    for replica in 0..world.replicas() {
        push_state(world, replica, out)?;
    }
    Ok(())
}

// Writes the state of a replica.
fn push_state(world: &World, replica: u32, out: &mut Vec<u8>) -> Result<(), AllocError>
    requires { replica < length world.now.nodes }
    ensures { (node : NodeOf) → slice_get world.now.nodes replica ≡ Some node
        → OnOk result (out.new.items ≡ out.old.items ++ unlines (state_lines world.now replica node)) }
{
    push_numbered(b"replica ", replica as u64, out)?;
    push_numbered(b" length ", world.length(replica), out)?;
    match world.columns(replica) {
        Some(columns) => {
            out.extend_from_slice(b" idle\n")?;
            list_rows(world.directory(), columns, out)
        }
        None => out.extend_from_slice(b" busy\n"),
    }
}
