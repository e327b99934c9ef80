// A certificate's steps, one after the other.
ghost use Rattle.std.specs.Prelude.{◌≡◌, false, cond, ◌&&◌, ℕ, ◌+◌, ◌<◌, eqb, length};
ghost use Rattle.clauses.specs.Variables.{variables};
ghost use Rattle.clauses.specs.Step.{kind_at, literals_at, given_at};
ghost use Rattle.clauses.specs.Asking.{question_of, given_in_order};
ghost use Rattle.clauses.specs.Lengths.{some_length};
ghost use Rattle.following.specs.Following.{derived_in_order};
ghost use Rattle.following.specs.Standing.{Clean, Kept, begun_in, IsReady};
ghost use Rattle.refuting.specs.Steps.{all_steps};
ghost use Rattle.refuting.specs.Looking.{length_there, AllOf, shown_as};
ghost use Rattle.refusals.specs.Results.{verdict_of};

use clauses::fields::{given_at, length_of};
use clauses::numbers::{four_at, two_at};
use clauses::task::Task;
use following::following::derived_in_order;
use refusals::verdicts::Refusal;

// The length of a step of kind 0, if all of it is there.
fn derived_length(c: &[u8], at: usize) -> Option<usize>
    requires { (at < length c.now) × (kind_at c.now at ≡ 0) }
    ensures { result ≡ some_length (length_there c.now at) }
{
    let left = c.len() - at;
    if left < 7 {
        return None;
    }
    let literals = two_at(c, at + 1);
    if left < 7 + 4 * literals {
        return None;
    }
    let many = 7 + 4 * literals + 4 * four_at(c, at + 3 + 4 * literals);
    if left < many { None } else { Some(many) }
}

// The length of the step at a place, if there is such a kind, and all of it is there.
fn length_there(c: &[u8], at: usize) -> Option<usize>
    requires { at < length c.now }
    ensures { result ≡ some_length (length_there c.now at) }
{
    let kind = c[at];
    if kind == 0 {
        return derived_length(c, at);
    }
    let many = length_of(kind)?;
    if c.len() - at < many {
        None
    } else {
        Some(many)
    }
}

// Whether the step at a place, all of which is there, is in order.
fn is_in_order(task: &Task, at: usize, work: &mut [u8]) -> bool
    requires { AllOf task.now.certificate.now at × IsReady task.now work.old }
    ensures { (result ≡ cond (eqb (kind_at task.now.certificate.now at) 0)
        (derived_in_order (question_of task.now) task.now.certificate.now at
        (begun_in (variables task.now.size) (length task.now.certificate.now) work.old))
        (given_in_order task.now (given_at task.now.certificate.now at)))
        × Clean (variables task.now.size) work.new
        × Kept (variables task.now.size) (variables task.now.size + length task.now.certificate.now)
        work.old work.new }
{
    if task.certificate[at] == 0 {
        derived_in_order(task, at, work)
    } else {
        task.in_order(given_at(task.certificate, at))
    }
}

// Whether the step at a place, all of which is there, is an empty clause.
fn is_empty(c: &[u8], at: usize) -> bool
    requires { AllOf c.now at }
    ensures { result ≡ (eqb (kind_at c.now at) 0 && eqb (literals_at c.now at) 0) }
{
    c[at] == 0 && two_at(c, at + 1) == 0
}

// All steps: fine if they show it, else where they don't. Where each begins is marked in the work area.
pub fn look_through(task: &Task, work: &mut [u8]) -> Result<(), Refusal>
    requires { IsReady task.now work.old
        × ((j : ℕ) → begun_in (variables task.now.size) (length task.now.certificate.now) work.old j ≡ false) }
    ensures { verdict_of result ≡ shown_as (all_steps (question_of task.now) task.now.certificate.now) }
{
    let c = task.certificate;
    let all = task.all_variables();
    let mut at = 2 + 2 * task.size.rows;
    let mut empty = false;
    while at < c.len() {
        let Some(length) = length_there(c, at) else {
            return Err(Refusal::NotShown(at));
        };
        if !is_in_order(task, at, work) {
            return Err(Refusal::NotShown(at));
        }
        work[all + at] = 1;
        empty = is_empty(c, at);
        at += length;
    }
    if empty {
        Ok(())
    } else {
        Err(Refusal::NotShown(c.len()))
    }
}
