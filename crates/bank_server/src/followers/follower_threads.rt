//! Followers in threads: how they are started.
ghost use Rattle.std.specs.Prelude.{◌≡◌, IfErr};
ghost use Rattle.bank_server.specs.Faults.{IsFollowersFault};
ghost use Rattle.bank_server.specs.declared.fault.RunFault.TheVariants.{Strayed};
ghost use Rattle.bank_server.specs.declared.followers.stray_reason.StrayReason.TheVariants.{NoThread};

use super::follower::Follower;
use super::stray_reason::StrayReason;
use crate::fault::RunFault;
use std::sync::Wait;
use std::thread::Scope;

/// Starts a thread for each follower. Each ends with its channels, and the scope joins it.
pub(crate) fn start_threads<'s, E, R: Wait + Sync>(
    scope: &'s Scope<'s, E>,
    rt: &'s R,
    followers: Vec<Follower>,
    nodes: usize,
) -> Result<(), RunFault>
    ensures fault { IfErr result (IsFollowersFault nodes) }
{
    let mut followers = followers.into_iter();
    for number in 1..nodes {
        let Some(follower) = followers.next() else {
            return Err(RunFault::Strayed(number, StrayReason::NoThread));
        };
        start_thread(scope, rt, follower, number)?;
    }
    Ok(())
}

// Starts the thread of the follower with this number.
fn start_thread<'s, E, R: Wait + Sync>(
    scope: &'s Scope<'s, E>,
    rt: &'s R,
    follower: Follower,
    number: usize,
) -> Result<(), RunFault>
    ensures fault { IfErr result (λ fault. fault ≡ Strayed number NoThread) }
{
    match scope.spawn(move || follower.follow(rt)) {
        Ok(_) => Ok(()),
        Err(_) => Err(RunFault::Strayed(number, StrayReason::NoThread)),
    }
}
