//! What a board hands out and takes back.
ghost use Rattle.std.specs.Prelude.{◌≡◌};
ghost use Rattle.sb_calls.specs.Cowns.{AreCownValues};
ghost use Rattle.cown_board.specs.Job.{JobOf, DoneOf};

use arrayvec::ArrayVec;
use sb_amount::Cents;
use sb_calls::{BEHAVIOUR_COWNS, Behaviour, Performs, Reply};
use std::marker::Model;

/// A behaviour that was handed out, with what its cowns contain. Until it is finished nobody else
/// has these cowns.
#[derive(Drop)]
pub struct Job<B: Behaviour> {
    number: u64,
    behaviour: B,
    inputs: ArrayVec<Cents, BEHAVIOUR_COWNS>,
}

impl<B: Behaviour> Model for Job<B> {
    ghost use Rattle.sb_calls.specs.Cowns.{AreCownValues};
    ghost use Rattle.cown_board.specs.Job.{JobOf};

    ghost Value = { JobOf B };

    ghost view = { λ j. record { number = j.number; behaviour = j.behaviour; inputs = j.inputs.items } };

    ghost invariant = { λ j. AreCownValues (B.touches j.behaviour) j.inputs.items };
}

impl<B: Behaviour> Job<B> {
    // The job of a behaviour with this number, on these inputs.
    pub(crate) fn new(number: u64, behaviour: B, inputs: ArrayVec<Cents, BEHAVIOUR_COWNS>) -> Job<B>
        requires { AreCownValues (B.touches behaviour) inputs.items }
        ensures { result ≡ record { number = number; behaviour = behaviour; inputs = inputs.items } }
    {
        Job {
            number,
            behaviour,
            inputs,
        }
    }

    /// The number of the behaviour.
    pub fn number(&self) -> u64
        ensures { result ≡ self.now.number }
    {
        self.number
    }
}

impl<B: Performs> Job<B> {
    /// Runs the behaviour.
    pub fn run(self) -> Done<B>
        ensures job { (result.number ≡ self.number) × (result.behaviour ≡ self.behaviour) ×
            (result.inputs ≡ self.inputs) }
    {
        let Job {
            number,
            behaviour,
            inputs,
        } = self;
        let (reply, outputs) = behaviour.perform(inputs.as_slice());
        Done {
            number,
            behaviour,
            inputs,
            reply,
            outputs,
        }
    }
}

/// The result of a behaviour that ran. Its reply, and what it leaves in its cowns, are its effect
/// on its inputs: no other result can be made.
#[derive(Drop)]
pub struct Done<B: Behaviour> {
    number: u64,
    behaviour: B,
    inputs: ArrayVec<Cents, BEHAVIOUR_COWNS>,
    reply: Reply,
    outputs: ArrayVec<Cents, BEHAVIOUR_COWNS>,
}

impl<B: Behaviour> Model for Done<B> {
    ghost use Rattle.std.specs.Prelude.{◌≡◌};
    ghost use Rattle.cown_board.specs.Job.{DoneOf};

    ghost Value = { DoneOf B };

    ghost view = { λ d. record {
      number = d.number;
      behaviour = d.behaviour;
      inputs = d.inputs.items;
      reply = d.reply;
      outputs = d.outputs.items;
    } };

    ghost invariant = { λ d. (d.reply ≡ (B.effect d.behaviour d.inputs.items).0) ×
        (d.outputs.items ≡ (B.effect d.behaviour d.inputs.items).1) };
}

impl<B: Behaviour> Done<B> {
    /// The number of the behaviour.
    pub fn number(&self) -> u64
        ensures { result ≡ self.now.number }
    {
        self.number
    }

    // The behaviour.
    pub(crate) fn behaviour(&self) -> B
        ensures { result ≡ self.now.behaviour }
    {
        self.behaviour
    }

    // The contents of its cowns.
    pub(crate) fn inputs(&self) -> &[Cents]
        ensures { result.now ≡ self.now.inputs }
    {
        self.inputs.as_slice()
    }

    // Its reply, and what it leaves in its cowns.
    pub(crate) fn into_effect(self) -> (Reply, ArrayVec<Cents, BEHAVIOUR_COWNS>)
        ensures reply { result.0 ≡ (B.effect self.behaviour self.inputs).0 }
        ensures outputs { result.1.items ≡ (B.effect self.behaviour self.inputs).1 }
    {
        let Done { reply, outputs, .. } = self;
        (reply, outputs)
    }
}
