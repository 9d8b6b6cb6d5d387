// What is answered to a call, and the book opened for it.
#![tactic(auto)]

ghost use Rattle.std.specs.Prelude.{◌≡◌};
ghost use Rattle.answers.specs.Calls.{is_date, reply_number, reply_place};

use format::{Reason, Refusal};

pub mod open;

// The numbers of a row of earned value: `earned_width` of specs/Rows.antt.
pub const EARNED_WIDTH: usize = 7;

// Those of a row of the outline: `outline_width`.
pub const OUTLINE_WIDTH: usize = 2 + EARNED_WIDTH;

// Those of a row of twelve months: `twelve_width`.
pub const TWELVE_WIDTH: usize = 3;

// The count of rows, or the refusal.
pub type Reply = Result<u64, Refusal>;

// The refusal of a call whose lent slice is too short for its rows.
pub const TOO_SHORT: Refusal = Refusal {
    reason: Reason::TooShort,
    place: 0,
};

// That of one with a twelve-month sum outside 64 bits.
pub const SUM_OUT_OF_RANGE: Refusal = Refusal {
    reason: Reason::SumOutOfRange,
    place: 0,
};

// Whether a number is a date of D's range.
pub fn is_date(day: u64) -> bool
    ensures { result ≡ is_date day }
{
    if day < 10957 {
        return false;
    }
    day <= 47481
}

// A refusal as C has it: its number, and in `at` its place.
pub fn give_refusal(number: u64, place: usize, at: &mut u64) -> u64
    ensures { (result ≡ number) × (at.new ≡ place) }
{
    *at = place as u64;
    number
}

// The number of an answer as C has it, and in `at` its count of rows or its place.
pub fn give(answer: Reply, at: &mut u64) -> u64
    ensures { (result ≡ reply_number answer) × (at.new ≡ reply_place answer) }
{
    match answer {
        Ok(rows) => {
            *at = rows;
            0
        }
        Err(refusal) => give_refusal(u64::from(refusal.reason), refusal.place, at),
    }
}
