//! Executing a call on the columns.
ghost use Rattle.std.specs.Prelude.{◌≡◌, ℕ, List, length};
ghost use Rattle.sb_rows.specs.Balances.{IsBalances};
ghost use Rattle.sb_rows.specs.Rows.{SameCustomers};
ghost use Rattle.sb_calls.specs.declared.call.Call.{Call};
ghost use Rattle.sb_calls.specs.Behaviour.{declared_cowns, effect_of};
ghost use Rattle.sb_calls.specs.Cowns.{contents_of, read_cowns, write_cowns};
ghost use Rattle.sb_calls.specs.FollowsProcedure.{FollowsProcedure};
ghost use Rattle.sb_calls.specs.Op.{op_of, IsOpWithin};

use crate::cowns::{by_cown, cowns_of, perform};
use crate::op::Op;
use crate::reply::Reply;
use sb_rows::{CUSTOMERS, Columns};

/// Executes a call on the balances of its customers, and returns its reply.
///
/// A refusal changes nothing.
pub fn apply(columns: &mut Columns, op: Op) -> Reply
    requires { IsOpWithin (length columns.old.savings) op }
    // On the rows it is the procedure, for any names of the customers.
    ensures procedure { (directory : List (List ℕ)) (call : Call)
        → SameCustomers directory columns.old → op ≡ op_of directory call
        → FollowsProcedure directory call columns.old columns.new result }
    ensures same_length { length columns.new.savings ≡ length columns.old.savings }
    ensures ranges { IsBalances columns.new }
    // For every op: its effect on what its cowns contain.
    ensures effect { let inputs = read_cowns (contents_of columns.old) (declared_cowns op) in
        (result ≡ (effect_of op inputs).0)
        × (contents_of columns.new
        ≡ write_cowns (contents_of columns.old) (declared_cowns op) (effect_of op inputs).1) }
{
    // They are the columns of a bank.
    prove!(columns.customers() <= CUSTOMERS);
    // An op that is passed by value twice isn't covered by the borrow checker yet, so the first
    // function gets a copy.
    let declaring = op;
    let cowns = cowns_of(declaring);
    let inputs = by_cown::read_cowns(columns, &cowns);
    let (reply, outputs) = perform(op, &inputs);
    by_cown::write_cowns(columns, &cowns, &outputs);
    // Whatever was written, these are the columns of a bank.
    prove!(columns.customers() <= CUSTOMERS);
    reply
}
