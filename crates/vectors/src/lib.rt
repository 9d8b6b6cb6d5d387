// Vectors: lines with a function's name, its arguments, the sign `=` and the numbers that the function must give. Reads
// them, and calls the functions that need no book.
#![tactic(auto)]

mod amounts;
pub mod answer;
mod days;
pub mod hex;
pub mod lent;
pub mod line;
pub mod names;
mod reals;
pub mod text;

ghost use Rattle.std.specs.Prelude.{◌≤◌, ◌≡◌, length, IsTrue, IsFalse, IsOk};

use crate::answer::Answer;

// How a line differs: from what its function gave, or since it names no function.
#[derive(Clone, Copy)]
pub enum Difference {
    Gave(Answer),
    NoFunction,
}

// Of a line that is replayed: nothing where it says what its function gave.
pub type Outcome = Result<(), Difference>;

// A line of a function, and whether it says what that gave.
pub fn compared(a: Answer, same: bool) -> Outcome
    ensures agrees { IsTrue same → IsOk result }
    ensures differs { IsFalse same → result ≡ Err (Difference.Gave a) }
{
    if same {
        return Ok(());
    }
    Err(Difference::Gave(a))
}

// A line of a call, whose answer is not told in numbers.
pub fn untold(same: bool) -> Outcome {
    compared(answer::untold(), same)
}

// What the function of that name gives for the arguments x; nothing where there is none.
fn given(name: &[u8], x: [u64; 16]) -> Option<Answer> {
    if let Some(a) = amounts::answer(name, x) {
        return Some(a);
    }
    if let Some(a) = reals::answer(name, x) {
        return Some(a);
    }
    days::answer(name, x)
}

// Replays a line whose name ends at `end`.
pub fn replay(s: &[u8], end: usize) -> Outcome
    requires { end ≤ length s.now }
{
    let line = line::numbers(s, end);
    match given(&s[..end], line.values) {
        Some(a) => compared(a, line::says(s, line, a)),
        None => Err(Difference::NoFunction),
    }
}

// Whether a line says from `from` on, behind its sign, what the answer is.
pub fn agrees(s: &[u8], from: usize, a: Answer) -> bool {
    let line = line::numbers(s, from);
    line::says(s, line, a)
}
