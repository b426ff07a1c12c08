//! What nobody picked.
ghost use Rattle.std.specs.Prelude.{◌≡◌, ◌≤◌, [], vec_capacity};
ghost use Rattle.crossbeam_queue.specs.Passes.{IsPassOf, view};
ghost use Rattle.cown_bench.specs.OfferedWorks.{IsSplitInto, WeighAlike};
ghost use Rattle.cown_bench.specs.inner.PassViews.{all_parts, owner_view};
ghost use Rattle.cown_bench.specs.declared.bench.TheConstants.{BENCH_CAPACITY};

use crate::pass_history::PassHistory;
use crate::rule::{Drains, Queue};
use crate::work::Work;
use crossbeam_queue::Pass;
use std::sync::Wait;

// Takes out what is still there, with a pass that knows all, into an empty list with room for it.
pub(crate) fn drain<R: Wait>(
    rt: &R,
    queue: &Queue,
    mut pass: Pass<Work, PassHistory>,
    mut left: Vec<Work>,
) -> Vec<Work>
    requires queue { IsPassOf queue.now pass }
    requires complete { view pass ≡ owner_view all_parts (view pass).offered (view pass).absorbed [] }
    requires empty { left.items ≡ [] }
    requires room { BENCH_CAPACITY ≤ vec_capacity left }
    ensures split { IsSplitInto (view pass).offered (view pass).absorbed result.items }
    ensures weights { WeighAlike (view pass).offered (view pass).absorbed result.items }
{
    loop {
        let Some(work) = queue.pop_as::<Drains, R>(rt, &mut pass) else {
            return left;
        };
        left.push_reserved(work);
    }
}
