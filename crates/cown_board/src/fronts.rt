//! How many cowns of a behaviour others before it declare.
ghost use Rattle.std.specs.Prelude.{◌≡◌, ◌≤◌, length, count_by};
ghost use Rattle.cown_board.specs.inner.Fronts.{is_occupied};

use cown_queue::Queues;
use sb_calls::Cown;

// The number of these cowns whose queues aren't empty.
pub(crate) fn count_occupied(queues: &Queues, cowns: &[Cown]) -> u8
    requires { length cowns.now ≤ 3 }
    ensures { result ≡ count_by (is_occupied queues.now.lists) cowns.now }
{
    let mut occupied = 0;
    for cown in cowns {
        if queues.front(*cown).is_some() {
            occupied += 1;
        }
    }
    occupied
}
