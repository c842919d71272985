// What a call gives back, as a struct of numbers that crosses to C and Rust by value. Document 01's numbers, objects and places come from the
// definition `outcome_of` in specs/.
#![tactic(auto)]

ghost use Rattle.std.specs.Prelude.{◌≡◌};
ghost use Rattle.base_answers.specs.Answers.{refused, length_outcome, outcome_of};
ghost use Rattle.base_answers.specs.Verdicts.{finding_verdict};

// Accepted: number, object and place are 0. Refused: the length is 0.
#[repr(C)]
#[derive(Clone, Copy)]
pub struct Outcome {
    pub length: u64,
    pub number: u32,
    pub object: u32,
    pub place: u64,
}

pub const NONE: u32 = 0;

pub const COMPILED: u32 = 1;

pub const ASSEMBLED: u32 = 2;

// What refuses a call: the number, object and place of the first of its tests that does.
#[derive(Clone, Copy)]
pub struct Refusal {
    pub number: u32,
    pub object: u32,
    pub place: u64,
}

// What a test found, under its number and object.
pub fn finding_verdict(number: u32, object: u32, found: Option<usize>) -> Result<(), Refusal>
    ensures { result ≡ finding_verdict number object found }
{
    match found {
        None => Ok(()),
        Some(place) => Err(Refusal {
            number,
            object,
            place: place as u64,
        }),
    }
}

// A refusal.
pub fn refused(refusal: Refusal) -> Outcome
    ensures { result ≡ outcome_of (refused refusal.number refusal.object refusal.place) }
{
    Outcome {
        length: 0,
        number: refusal.number,
        object: refusal.object,
        place: refusal.place,
    }
}

// A result of a length.
pub fn result(length: u64) -> Outcome
    ensures { result ≡ length_outcome length }
{
    Outcome {
        length,
        number: 0,
        object: 0,
        place: 0,
    }
}
