//! Steps that sessions have out.
ghost use Rattle.std.specs.Prelude.{◌≡◌, List, []};
ghost use Rattle.step_view.specs.StepView.{StepView, step_of};
ghost use Rattle.step_registry.specs.Pins.{PinView};

use std::marker::Model;
use step_view::Step;

/// A share of a step that a session has out. It has to be given back: a program that forgets one doesn't compile.
///
/// Contracts see the session and the step.
pub struct StepPin {
    session: u32,
    step: Step,
}

impl Model for StepPin {
    ghost use Rattle.step_registry.specs.Pins.{PinView};

    ghost Value = { PinView };

    ghost view = { λ p. record { session = p.session; step = p.step } };
}

impl StepPin {
    pub(crate) fn of(session: u32, step: Step) -> StepPin
        ensures session { result.session ≡ session }
        ensures step { result.step ≡ step }
    {
        StepPin { session, step }
    }

    /// The session that has the step out.
    pub fn session(&self) -> u32
        ensures { result ≡ self.now.session }
    {
        self.session
    }

    /// The step's number.
    pub fn number(&self) -> u32
        ensures number { result ≡ self.now.step.number }
        ensures step { self.now.step ≡ step_of self.now.step.job result }
    {
        let _job = self.step.job();
        self.step.number()
    }

    /// The step. It never changes, and is there until the pin is given back.
    pub fn step(&self) -> &Step
        ensures { result.now ≡ self.now.step }
    {
        &self.step
    }

    // The session, and the step, which is one of its job.
    pub(crate) fn into_parts(self) -> (u32, Step)
        ensures session { result.0 ≡ self.session }
        ensures step { result.1 ≡ self.step }
        ensures valid { result.1 ≡ step_of self.step.job self.step.number }
    {
        let StepPin { session, step } = self;
        let _job = step.job();
        (session, step)
    }
}

/// Pins, at most one of each session, in ascending session order. They have to be given back.
pub struct Pins {
    items: Vec<StepPin>,
}

impl Model for Pins {
    ghost use Rattle.std.specs.Prelude.{List};
    ghost use Rattle.step_registry.specs.Pins.{PinView};

    ghost Value = { List PinView };

    ghost view = { λ p. p.items.items };
}

impl Pins {
    /// The list of these pins, in their order.
    pub fn of(items: Vec<StepPin>) -> Pins
        ensures { result ≡ items.items }
    {
        Pins { items }
    }

    /// The pins, in their order.
    pub fn items(&self) -> &[StepPin]
        ensures { result.now ≡ self.now }
    {
        self.items.as_slice()
    }

    /// The pins as a vector, in their order.
    pub fn into_items(self) -> Vec<StepPin>
        ensures { result.items ≡ self }
    {
        let Pins { items } = self;
        items
    }
}
