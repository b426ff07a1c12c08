//! Behaviours over declared cowns.
ghost use Rattle.std.specs.Prelude.{◌≡◌, ◌≤◌, ◌↔◌, ℕ, ℤ, true, List, length};
ghost use Rattle.sb_calls.specs.Cowns.{IsRising, AreCownValues};
ghost use Rattle.sb_calls.specs.declared.reply.Reply.{Reply as AnyReply};

use super::cown::Cown;
use crate::reply::Reply;
use arrayvec::ArrayVec;
use sb_amount::Cents;

/// The greatest number of cowns that a behaviour declares: both of one customer, and one of
/// another.
pub const BEHAVIOUR_COWNS: usize = 3;

/// A task over a set of cowns, which it has alone while it runs (When Concurrency Matters, OOPSLA
/// 2023).
///
/// This trait says which cowns a behaviour needs. What the behaviour does to them stands in the
/// contracts alone.
pub trait Behaviour: Copy + Eq {
    /// The ids of the cowns that it declares.
    ghost touches: { Self → List ℕ };

    /// Its reply, and what its cowns contain after it, from what they contained before.
    ghost effect: { Self → List ℤ → AnyReply × List ℤ };

    /// The cowns that it declares, in rising order.
    fn cowns(self) -> ArrayVec<Cown, BEHAVIOUR_COWNS>
        ensures { result.items ≡ touches self };

    /// The declared cowns rise, so each occurs once.
    ghost rising: { (behaviour : Self) → IsRising (touches behaviour) };

    ghost limit: { (behaviour : Self) → length (touches behaviour) ≤ 3 };

    /// It leaves allowed values in its cowns.
    ghost valid_outputs: { (behaviour : Self) (inputs : List ℤ) → AreCownValues (touches behaviour) inputs
        → AreCownValues (touches behaviour) (effect behaviour inputs).1 };

    /// Behaviours compare as equal exactly if they are equal.
    ghost exact: { (a b : Self) → (Self.eq a b ≡ true) ↔ (a ≡ b) };
}

/// A behaviour that can run.
pub trait Performs: Behaviour {
    /// The reply, and what its cowns contain after it. Inputs and results are in the order of the
    /// cowns. It changes nothing itself.
    fn perform(self, inputs: &[Cents]) -> (Reply, ArrayVec<Cents, BEHAVIOUR_COWNS>)
        requires { AreCownValues (Self.touches self) inputs.now }
        ensures reply { result.0 ≡ (Self.effect self inputs.now).0 }
        ensures outputs { result.1.items ≡ (Self.effect self inputs.now).1 };
}
