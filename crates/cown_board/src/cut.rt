//! A copy of the columns that is complete once the numbers up to a length are finished.
ghost use Rattle.std.specs.Prelude.{◌≤◌, length, IfSome};
ghost use Rattle.sb_calls.specs.Cowns.{AreBelow, AreCownValues, contents_of};
ghost use Rattle.cown_board.specs.inner.CutUpdates.{UpdatesAnyCut};

use sb_amount::Cents;
use sb_calls::{Cown, write_cowns};
use sb_rows::Columns;
use thiserror::Error;

/// Why no cut was made. The board stays as it was.
#[derive(Clone, Copy, Debug, PartialEq, Eq, Error, Drop)]
pub enum CutFault {
    /// There is a cut already, with this length.
    #[error("pending {0}")]
    Pending(u64),
    /// Memory was refused.
    #[error("out of memory")]
    OutOfMemory,
}

// The columns that only the behaviours up to a number write.
#[derive(Drop)]
pub(crate) struct Cut {
    pub(crate) number: u64,
    pub(crate) columns: Columns,
    // The number of unfinished behaviours up to the number.
    pub(crate) unfinished: usize,
}

// Records that the behaviour of this number is finished, and left these values in its cowns.
pub(crate) fn update_cut(cut: &mut Option<Cut>, number: u64, cowns: &[Cown], values: &[Cents])
    requires cowns { IfSome cut.old (λ c. AreBelow (length (contents_of c.columns)) cowns.now) }
    requires unfinished { IfSome cut.old (λ c. number ≤ c.number → 1 ≤ c.unfinished) }
    requires values { AreCownValues cowns.now values.now }
    ensures { UpdatesAnyCut number cowns.now values.now cut.old cut.new }
{
    let Some(cut) = cut else {
        return;
    };
    // Numbers after the cut aren't part of it.
    if number <= cut.number {
        write_cowns(&mut cut.columns, cowns, values);
        cut.unfinished -= 1;
    }
}
