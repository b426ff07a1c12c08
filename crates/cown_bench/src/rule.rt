//! The rule of a bench: what its queue holds, against what its passes know.
use crate::pass_history::PassHistory;
use crate::work::Work;
use crossbeam_queue::RuledArrayQueue;
use crossbeam_queue::protocol::{Join, Lesson, Outcome, Protocol, Split};

// What is offered is picked once, in order, or left.
pub(crate) struct PickedOrLeft;

impl Protocol<Work, PassHistory> for PickedOrLeft {
    ghost use Rattle.std.specs.Prelude.{[]};
    ghost use Rattle.cown_bench.specs.inner.BenchRule.{IsBenchState};
    ghost use Rattle.cown_bench.specs.inner.PassViews.{all_parts, owner_view};

    ghost holds = { λ items views. IsBenchState items views };

    ghost first = { owner_view all_parts [] [] [] };
}

// One more Work is offered. If the queue is full, at least as many were offered as it holds.
pub(crate) struct Offers;

impl Outcome<Work, PassHistory> for Offers {
    ghost use Rattle.cown_bench.specs.inner.BenchRule.{AddsOffer};

    ghost then = { λ known work after. AddsOffer known work after };
}

impl Lesson<Work, PassHistory> for Offers {
    ghost use Rattle.cown_bench.specs.inner.BenchRule.{HasOffered};

    ghost fact = { λ known items. HasOffered known items };
}

// One more Work is picked.
pub(crate) struct Picks;

impl Outcome<Work, PassHistory> for Picks {
    ghost use Rattle.cown_bench.specs.inner.BenchRule.{AddsPick};

    ghost then = { λ known work after. AddsPick known work after };
}

impl Lesson<Work, PassHistory> for Picks {
    ghost use Rattle.std.specs.Prelude.{⊤};

    ghost fact = { λ known items. ⊤ };
}

// One more Work is taken out of what nobody picked. A pass that knows all knows what became of all
// that was offered.
pub(crate) struct Drains;

impl Outcome<Work, PassHistory> for Drains {
    ghost use Rattle.cown_bench.specs.inner.BenchRule.{AddsLeft};

    ghost then = { λ known work after. AddsLeft known work after };
}

impl Lesson<Work, PassHistory> for Drains {
    ghost use Rattle.cown_bench.specs.inner.BenchRule.{KnowsAll};

    ghost fact = { λ known items. KnowsAll known items };
}

// A worker's pass is split from the owner's, and absorbed again.
pub(crate) struct OnePart;

impl Split<PassHistory> for OnePart {
    ghost use Rattle.std.specs.Prelude.{[]};
    ghost use Rattle.cown_bench.specs.inner.PassViews.{with_pass_split, worker_view};

    ghost left = { λ known. with_pass_split known };

    ghost right = { λ known. worker_view [] };
}

impl Join<PassHistory> for OnePart {
    ghost use Rattle.cown_bench.specs.inner.PassViews.{absorbed_view, with_pass_absorbed};

    ghost both = { λ known other. with_pass_absorbed known other };

    ghost spent = { absorbed_view };
}

pub(crate) type Queue = RuledArrayQueue<Work, PassHistory, PickedOrLeft>;
