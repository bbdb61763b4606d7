// What is still to be read of a value.
ghost use Rattle.borsh_plan.specs.Plan.{names_of};
ghost use Rattle.borsh_values.specs.Cursor.{Fits, StepsOn, past_copies, remaining};
ghost use Rattle.std.specs.Prelude.{false, length, true, ◌≡◌, ◌<◌, [], MatchOption, OnSome, slice_get};

use crate::faults::Reason;
use borsh_plan::Plan;

/// The names that are still to be read, by their places: copies of one, or the parts of a definition from an index on.
#[derive(Clone, Copy)]
pub enum Rest {
    Copies(usize, u64),
    Parts(usize, usize),
}

/// A name that is being read, how many bytes were left before it, and what is still to be read of it.
#[derive(Clone, Copy)]
pub struct Frame {
    pub at: usize,
    pub start: usize,
    pub rest: Rest,
}

/// What is known of a name.
#[derive(Clone, Copy)]
pub enum Mark {
    /// Its only member is the empty one.
    Empty,
    /// It is being read since so many bytes were left, or no member of it begins there any more.
    Open(usize),
}

/// What a definition takes from the bytes.
#[derive(Clone, Copy)]
pub enum Opened {
    /// The definition is ambiguous, or breaks a rule of widths.
    Undecided,
    /// No member begins here.
    Refused(Reason),
    /// So many bytes, and the names that follow.
    Taken(usize, Rest),
}

/// The next name, and what follows it.
#[derive(Clone, Copy)]
pub struct Step {
    pub at: usize,
    pub others: Rest,
}

/// The next name that is to be read, if there is one.
pub fn next_part(plan: &Plan<'_>, rest: Rest) -> Option<Step>
    requires fits { Fits (names_of plan.now) rest }
    ensures { let names = names_of plan.now in
        MatchOption result (remaining names rest ≡ []) (λ s. StepsOn names rest s) }
{
    match rest {
        Rest::Copies(at, count) => {
            if count == 0 {
                None
            } else {
                Some(Step {
                    at,
                    others: Rest::Copies(at, count - 1),
                })
            }
        }
        Rest::Parts(at, next) => match plan.part(at, next) {
            Some(part) => Some(Step {
                at: part,
                others: Rest::Parts(at, next + 1),
            }),
            None => None,
        },
    }
}

/// What follows a next name that has no bytes: all copies of it are passed at once.
pub fn after_copies(rest: Rest, step: Step) -> Rest
    ensures { result ≡ past_copies rest step }
{
    match rest {
        Rest::Copies(_, _) => Rest::Copies(step.at, 0),
        Rest::Parts(_, _) => step.others,
    }
}
