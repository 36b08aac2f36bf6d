// What the C calls answer: 0 and a number, or a refusal.
#![tactic(auto)]

ghost use Rattle.std.specs.Prelude.{◌≡◌};
ghost use Rattle.numbers_outcomes.specs.Outcomes.{outcome, write_outcome};
ghost use Rattle.refusals.specs.Numbers.{numbered_by};

use refusals::Numbered;

// 0 and a length or a place; or the number of the refusal and, where a block is read, its place. Number and value in one struct: C is given it.
#[repr(C)]
#[derive(Clone, Copy, Debug, PartialEq, Eq)]
pub struct Outcome {
    pub number: u64,
    pub value: u64,
}

impl Outcome {
    // 0 and a value.
    // as u64: std has no From of a usize for it.
    pub fn done(value: usize) -> Outcome
        ensures { result ≡ outcome 0 value }
    {
        Outcome {
            number: 0,
            value: value as u64,
        }
    }

    // The number of a refusal, or any number, and a value.
    pub fn refused<E: Numbered>(refusal: E, value: usize) -> Outcome
        ensures { result ≡ outcome (E.as_number refusal) value }
    {
        Outcome {
            number: u64::from(refusal.as_number()),
            value: value as u64,
        }
    }
}

// 0 and what was answered; or the number of the refusal, or any number in its place, and 0.
pub fn outcome_of<E: Numbered>(answer: Result<usize, E>) -> Outcome
    ensures { result ≡ write_outcome (numbered_by E.as_number answer) }
{
    match answer {
        Ok(value) => Outcome::done(value),
        Err(refusal) => Outcome::refused(refusal, 0),
    }
}
