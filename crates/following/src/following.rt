// Whether a step of kind 0 is in order. In the work area stand a byte for the value of each variable, then, from `all`
// on, a mark for each byte of the certificate, then the variables that are set, four bytes each. (They stay places in
// one area, since C lends one, and `Stands`, `Clean`, `begun_in` and `Ready` say of that area what it holds.)
ghost use Rattle.std.specs.Prelude.{◌≡◌, ℕ, ◌+◌, ◌*◌, ◌/◌, ◌<◌, ◌≤◌, List, ltb, length};
ghost use Rattle.bits.specs.Below.{every};
ghost use Rattle.clauses.specs.Variables.{variables};
ghost use Rattle.clauses.specs.Step.{literals_at, literal_at, hints_at, hint_at};
ghost use Rattle.clauses.specs.Asking.{question_of, clause_of};
ghost use Rattle.following.specs.Following.{Following, going, denying, hinting, denied, used};
ghost use Rattle.following.specs.Following.{follows, derived_in_order};
ghost use Rattle.following.specs.Standing.{LiteralsIn, AllThere, CanUse, Trailed, Stands};
ghost use Rattle.following.specs.Standing.{Kept, Clean, begun_in, IsReady};

use crate::open::{Open, Reading};
use crate::trail::{Trail, forget, make};
use clauses::numbers::{four_at, two_at};
use clauses::task::Task;

// A literal of the step: it is made false, or there is a conflict.
fn deny(work: &mut [u8], from: usize, set: usize, l: usize) -> Trail
    requires { (l / 2 < from) × (from + 4 * set + 4 ≤ length work.old) × (l < 4294967296) }
    ensures { (result.set ≤ set + 1)
        × ((v : ℕ) (σ : ℕ → ℕ) → v ≤ from → l / 2 < v → Trailed v from σ set work.old
        → Stands v from work.old (denying l (going σ)) work.new result) }
{
    let v = l / 2;
    let value = usize::from(work[v]);
    if value == 1 + l % 2 {
        return Trail {
            conflict: true,
            set,
        };
    }
    if value == 2 - l % 2 {
        return Trail {
            conflict: false,
            set,
        };
    }
    make(work, from, set, l + 1 - 2 * (l % 2))
}

// All literals of the step, up to a conflict.
fn deny_all(c: &[u8], at: usize, many: usize, all: usize, work: &mut [u8]) -> Trail
    requires { (many ≡ literals_at c.now at) × LiteralsIn all c.now at × Clean all work.old × (all < 67108864)
        × (all + length c.now + length c.now ≤ length work.old) }
    ensures { (result.set ≤ many)
        × Stands all (all + length c.now) work.old (denied (literal_at c.now at) many)
        work.new result }
{
    let from = all + c.len();
    let mut r = Trail {
        conflict: false,
        set: 0,
    };
    for k in 0..many {
        if r.conflict {
            return r;
        }
        r = deny(work, from, r.set, four_at(c, at + 3 + 4 * k));
    }
    r
}

// One hint: what is left open in its clause is made true, or there is a conflict.
fn hint(task: &Task, at: usize, work: &mut [u8], from: usize, set: usize) -> Trail
    requires { CanUse task.now at × (variables task.now.size ≤ from) × (from + 4 * set + 4 ≤ length work.old) }
    ensures { (result.set ≤ set + 1)
        × ((σ : ℕ → ℕ) → Trailed (variables task.now.size) from σ set work.old
        → Stands (variables task.now.size) from work.old
        (hinting (clause_of task.now at) (going σ)) work.new result) }
{
    let reading = Reading {
        task: *task,
        values: work,
    };
    match reading.open_at(at) {
        Open::Nothing => Trail {
            conflict: true,
            set,
        },
        Open::One(l) => {
            let v = l / 2;
            if work[v] == 0 {
                make(work, from, set, l)
            } else {
                Trail {
                    conflict: false,
                    set,
                }
            }
        }
        Open::Several => Trail {
            conflict: false,
            set,
        },
    }
}

// All hints of the step, up to a conflict.
fn hint_all(
    task: &Task,
    at: usize,
    many: usize,
    work: &mut [u8],
    from: usize,
    start: Trail,
) -> Trail
    requires { (variables task.now.size ≤ from) × (many ≡ hints_at task.now.certificate.now at)
        × AllThere task.now.certificate.now at × (from + 4 * start.set + 4 * many ≤ length work.old)
        × ((k : ℕ) → k < many → CanUse task.now (hint_at task.now.certificate.now at k)) }
    ensures { (result.set ≤ start.set + many)
        × ((before : List ℕ) (f : Following) → Stands (variables task.now.size) from before f work.old start
        → Stands (variables task.now.size) from before
        (used (λ k. clause_of task.now (hint_at task.now.certificate.now at k)) f many) work.new result) }
{
    let c = task.certificate;
    let first = at + 7 + 4 * two_at(c, at + 1);
    let mut r = start;
    for k in 0..many {
        if r.conflict {
            return r;
        }
        r = hint(task, four_at(c, first + 4 * k), work, from, r.set);
    }
    r
}

// Whether it follows; no variable stays set.
fn does_follow(task: &Task, at: usize, work: &mut [u8]) -> bool
    requires { AllThere task.now.certificate.now at
        × LiteralsIn (variables task.now.size) task.now.certificate.now at × Clean (variables task.now.size) work.old
        × (variables task.now.size + length task.now.certificate.now + length task.now.certificate.now
        ≤ length work.old)
        × ((k : ℕ) → k < hints_at task.now.certificate.now at
        → CanUse task.now (hint_at task.now.certificate.now at k)) }
    ensures { (result ≡ follows (question_of task.now) task.now.certificate.now at)
        × Clean (variables task.now.size) work.new
        × Kept (variables task.now.size) (variables task.now.size + length task.now.certificate.now)
        work.old work.new }
{
    let c = task.certificate;
    let all = task.all_variables();
    let literals = two_at(c, at + 1);
    let hints = four_at(c, at + 3 + 4 * literals);
    let from = all + c.len();
    let denied = deny_all(c, at, literals, all, work);
    let r = hint_all(task, at, hints, work, from, denied);
    forget(work, from, r.set);
    r.conflict
}

// Whether each literal's variable is one of them.
fn are_named(c: &[u8], at: usize, many: usize, all: usize) -> bool
    requires { (many ≡ literals_at c.now at) × AllThere c.now at }
    ensures { result ≡ every many (λ k. ltb (literal_at c.now at k / 2) all) }
{
    for k in 0..many {
        if all <= four_at(c, at + 3 + 4 * k) / 2 {
            return false;
        }
    }
    true
}

// Whether an earlier step begins at a place: that is marked.
fn is_marked(all: usize, many: usize, work: &[u8], h: usize) -> bool
    requires { all + many ≤ length work.now }
    ensures { result ≡ begun_in all many work.now h }
{
    h < many && work[all + h] == 1
}

// Whether each hint is the place at which an earlier step begins.
fn are_earlier(c: &[u8], at: usize, literals: usize, many: usize, all: usize, work: &[u8]) -> bool
    requires { (literals ≡ literals_at c.now at) × (many ≡ hints_at c.now at) × AllThere c.now at
        × (all + length c.now ≤ length work.now) }
    ensures { result ≡ every many (λ k. begun_in all (length c.now) work.now (hint_at c.now at k)) }
{
    for k in 0..many {
        let h = four_at(c, at + 7 + 4 * literals + 4 * k);
        if !is_marked(all, c.len(), work, h) {
            return false;
        }
    }
    true
}

// Whether a step of kind 0, all of which is there, is in order. Marks stay, and no variable stays set.
pub fn derived_in_order(task: &Task, at: usize, work: &mut [u8]) -> bool
    requires { AllThere task.now.certificate.now at × IsReady task.now work.old }
    ensures { (result ≡ derived_in_order (question_of task.now) task.now.certificate.now at
        (begun_in (variables task.now.size) (length task.now.certificate.now) work.old))
        × Clean (variables task.now.size) work.new
        × Kept (variables task.now.size) (variables task.now.size + length task.now.certificate.now)
        work.old work.new }
{
    let c = task.certificate;
    let all = task.all_variables();
    let literals = two_at(c, at + 1);
    let hints = four_at(c, at + 3 + 4 * literals);
    are_named(c, at, literals, all)
        && are_earlier(c, at, literals, hints, all, work)
        && does_follow(task, at, work)
}
