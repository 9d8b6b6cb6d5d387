// The spans of an activity's days, and the stretch of dates that spans take.
#![tactic(auto)]

ghost use Rattle.std.specs.Prelude.{◌≡◌, unwrap_or};

pub mod bounds;
pub mod stretches;

// From a date to another, both included.
#[derive(Clone, Copy)]
pub struct Stretch {
    pub from: u64,
    pub to: u64,
}

// The number, else another.
pub fn number_or(number: Option<u64>, other: u64) -> u64
    ensures { result ≡ unwrap_or number other }
{
    match number {
        None => other,
        Some(n) => n,
    }
}
