//! Steps as a list.
ghost use Rattle.std.specs.Prelude.{◌≡◌, map};
ghost use Rattle.shard_steps.specs.StepMeanings.{step_of};

use crate::step::Step;
use std::marker::Model;

/// Steps in their order. A contract sees the list of what they mean.
#[derive(Drop)]
pub struct Steps {
    list: Vec<Step>,
}

impl Model for Steps {
    ghost use Rattle.std.specs.Prelude.{List, map};
    ghost use Rattle.shard_model.specs.Steps.{Step as Meant};

    ghost Value = { List Meant };

    ghost use Rattle.shard_steps.specs.StepMeanings.{step_of};

    ghost view = { λ s. map step_of s.list.items };
}

impl Steps {
    /// The steps of a `Vec`. It is taken over as it is.
    pub fn of(list: Vec<Step>) -> Steps
        ensures { result ≡ map step_of list.items }
    {
        Steps { list }
    }

    /// The `Vec` that holds the steps.
    pub fn into_vec(self) -> Vec<Step>
        ensures { map step_of result.items ≡ self }
    {
        self.list
    }

    /// The steps.
    pub fn as_slice(&self) -> &[Step]
        ensures { map step_of result.now ≡ self.now }
    {
        self.list.as_slice()
    }
}
