//! What holds for a traced crew after every list of exchanges.
ghost use Rattle.std.specs.Prelude.{◌≤◌, List, length};
ghost use Rattle.cown_workers.specs.Draining.{TakesSteps, CrewStep};
ghost use Rattle.cown_workers.specs.Traces.{TracesSteps, TracedOf, Traces};

use crate::crew::Crew;

/// Whatever the exchanges with a traced crew, its notices are those of the first 64 exchanges that
/// have one. If there are no more, the crew itself made the same exchanges.
pub fn notices_of_exchanges<C: Crew>()
    ensures { (old new : TracedOf C) (steps : List CrewStep) → length old.notices ≤ 64 →
        TakesSteps (Traces C.acts) old steps new → TracesSteps C.acts old steps new }
{}
