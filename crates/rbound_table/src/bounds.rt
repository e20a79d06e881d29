// The bounds of all waits, looked up.
ghost use Rattle.std.specs.Prelude.{◌≡◌, ◌≤◌, ◌<◌, IfOk, length};
ghost use Rattle.rbound.specs.Bounds.{numbers_in};
ghost use Rattle.rbound.specs.TaskNeeds.{requests_of, needed_in, bound_of};
ghost use Rattle.rbound_table.specs.Answers.{AreAnswers};

use crate::answers::{Answers, answers_of, asked_answer, first_answer, rise_answer};
use rbound::{Bound, Needs, Which};
use std::alloc::{AllocError, Global};
use std::marker::Model;

/// The bounds of all waits of what tasks need, where no more than a cap of requests may be incomplete. Making this goes over
/// the claims; afterwards a bound is looked up.
#[derive(Drop)]
pub struct Bounds {
    needs: Needs,
    answers: Answers,
}

impl Model for Bounds {
    ghost use Rattle.std.specs.Prelude.{length};
    ghost use Rattle.rbound.specs.TaskNeeds.{needed_in};
    ghost use Rattle.rbound_table.specs.BoundedNeeds.{BoundedNeeds, bounded_needs_code};
    ghost use Rattle.rbound_table.specs.Answers.{AreAnswers};

    ghost Value = { BoundedNeeds };

    ghost coded = { bounded_needs_code };

    ghost view = { λ a. record { needs = a.needs; cap = a.answers.cap } };

    ghost invariant = { λ a. AreAnswers (needed_in a.needs) (length a.needs.tasks) a.answers };
}

impl Bounds {
    /// The bounds of these needs under this cap.
    ///
    /// # Errors
    ///
    /// Out of memory.
    pub fn of(alloc: Global, needs: Needs, cap: u8) -> Result<Bounds, AllocError>
        requires { 1 ≤ cap }
        ensures { IfOk result (λ bounds. bounds ≡ record { needs = needs; cap = cap }) }
    {
        let answers = answers_of(alloc, &needs, cap)?;
        Ok(Bounds { needs, answers })
    }

    /// The needs.
    pub fn needs(&self) -> &Needs
        ensures { result.now ≡ self.now.needs }
    {
        &self.needs
    }

    /// The bound of a wait of the request number `k` of a task, both counted from 0. It takes no memory. For a rise it is the
    /// bound of the request's write claim, whatever the kind of the request; where there is no write claim, or no ask of that
    /// number, all numbers are 0.
    pub fn bound(&self, task: u8, k: usize, which: Which) -> Bound
        requires task { task < length self.now.needs.tasks }
        requires number { k < length (requests_of self.now.needs.tasks task) }
        ensures { numbers_in result ≡ bound_of self.now.needs self.now.cap task k which }
    {
        answered(&self.answers, &self.needs, task, k, which)
    }
}

/// The bound of a wait, from the tables of these needs.
fn answered(answers: &Answers, needs: &Needs, task: u8, k: usize, which: Which) -> Bound
    requires task { task < length needs.now.tasks }
    requires number { k < length (requests_of needs.now.tasks task) }
    requires answers { AreAnswers (needed_in needs.now) (length needs.now.tasks) answers.now }
    ensures { numbers_in result ≡ bound_of needs.now answers.now.cap task k which }
{
    match which {
        Which::First => first_answer(answers, &needs.first_claim(task, k).claim),
        Which::Rise => rise_answer(answers, needs.write_claim(task, k)),
        Which::Ask(i) => match needs.ask(task, k, i) {
            None => Bound::no_wait(),
            Some(part) => asked_answer(answers, needs.write_claim(task, k), part),
        },
    }
}
