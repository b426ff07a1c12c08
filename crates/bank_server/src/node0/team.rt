//! Who executes a log together with node 0: its crew and its followers.
ghost use Rattle.std.specs.Prelude.{◌≡◌, ℕ, ◌≤◌, ◌<◌, Bool, true, IfOk, IfErr};
ghost use Rattle.std.specs.Fn.{FnOnceReturnsAtMut};
ghost use Rattle.bank_server.specs.Faults.{IsNodesFault};
ghost use Rattle.bank_server.specs.inner.RunFaults.{IsWorkersFault};
ghost use Rattle.bank_server.specs.Team.{IsDoneBy};

use crate::fault::RunFault;
use crate::followers::{Followers, ReadyFollowers, with_followers};
use cown_workers::{BenchCrew, Crew, Gate, InlineCrew, with_crew};
use sb_calls::{REPLICAS, WORKERS};
use std::alloc::Global;
use std::sync::Wait;
use std::thread::Threads;
use std::time::Clock;

/// A crew's number of workers, each in a thread of its own.
pub trait WorkerCount {
    /// The number.
    ghost workers: { Self → ℕ };
}

impl WorkerCount for InlineCrew {
    ghost workers = { λ crew. 0 };
}

impl<'a, R: Wait + Clock, G: Gate> WorkerCount for BenchCrew<'a, R, G> {
    ghost workers = { λ crew. crew.workers };
}

/// What is done with node 0's crew, of whatever kind, and its followers.
pub trait Duty {
    /// The result.
    type Answer: Drop;

    /// What must hold before.
    ghost ready: { Self → Type 0 };

    /// What holds afterwards, with this many nodes and a crew of this many workers, which may keep
    /// a job or not.
    ghost does: { Self → ℕ → ℕ → Bool → Self.Answer → Type 0 };

    /// Does it.
    fn carry_out<R, C>(self, rt: &R, followers: &mut Followers<'_, R>, crew: &mut C) -> Self::Answer
    where
        R: Threads + Wait + Clock,
        C: Crew + WorkerCount,
        requires { ready self }
        ensures { does self followers.old.nodes (C.workers crew.old) C.keeps result };
}

/// Starts the followers, hires this many workers for node 0, and has the duty done. Without workers
/// node 0 works alone. When it is done, all threads have ended.
///
/// Fails, and does nothing, with
/// - [`RunFault::Strayed`] if a follower can't be started,
/// - [`RunFault::CrewGone`] if a worker can't be started,
/// - [`RunFault::OutOfMemory`] if memory is refused.
pub fn with_team<H, G, D>(
    rt: &H,
    alloc: Global,
    followers: ReadyFollowers,
    workers: usize,
    gate: &G,
    duty: D,
) -> Result<D::Answer, RunFault>
where
    H: Threads + Wait + Clock + Sync,
    G: Gate + Sync,
    D: Duty + Drop,
    requires nodes { followers.nodes ≤ REPLICAS }
    requires workers { workers ≤ WORKERS }
    requires ready { D.ready duty }
    // The crew that does it has as many workers as the caller wants; one that may keep a job has
    // some.
    ensures answer { IfOk result (IsDoneBy workers (D.does duty followers.nodes)) }
    ensures fault { IfErr result (IsNodesFault followers.nodes workers) }
{
    with_followers(
        rt,
        alloc,
        followers,
        move |followers: &mut Followers<'_, H>| -> Result<D::Answer, RunFault>
            requires workers { workers ≤ WORKERS }
            requires ready { D.ready duty }
            ensures answer { IfOk result (IsDoneBy workers (D.does duty followers.old.nodes)) }
            ensures fault { IfErr result (IsWorkersFault workers) }
        { by_workers(rt, alloc, followers, workers, gate, duty) },
    )?
}

// Has the duty done with these followers, by this many workers.
fn by_workers<H, G, D>(
    rt: &H,
    alloc: Global,
    followers: &mut Followers<'_, H>,
    workers: usize,
    gate: &G,
    duty: D,
) -> Result<D::Answer, RunFault>
where
    H: Threads + Wait + Clock + Sync,
    G: Gate + Sync,
    D: Duty + Drop,
    requires workers { workers ≤ WORKERS }
    requires ready { D.ready duty }
    ensures answer { IfOk result (IsDoneBy workers (D.does duty followers.old.nodes)) }
    ensures fault { IfErr result (IsWorkersFault workers) }
{
    if workers == 0 {
        return Ok(duty.carry_out(rt, followers, &mut InlineCrew));
    }
    let answer = with_crew(
        rt,
        alloc,
        workers,
        gate,
        move |crew: &mut BenchCrew<'_, H, G>| -> D::Answer
            requires ready { D.ready duty }
            ensures { D.does duty followers.entry.now.nodes crew.old.workers true result }
        { duty.carry_out(rt, followers, crew) },
    )?;
    Ok(answer)
}
