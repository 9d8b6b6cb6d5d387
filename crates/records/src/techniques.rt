// How earned value is measured.
ghost use Rattle.std.specs.Prelude.{◌≡◌};
ghost use Rattle.format.specs.Enumeration as enumeration;

use fields::Read;
use fields::kinds::{amount, field};
use format::{EvTechnique, Pos, Reason};

// A technique without a share.
#[tactic(auto, unfolding(format::specs::Enumeration::technique_of))]
fn technique_of(v: u64) -> EvTechnique
    ensures { result ≡ enumeration.technique_of v None }
{
    match v {
        0 => EvTechnique::Physical,
        1 => EvTechnique::Duration,
        2 => EvTechnique::Units,
        3 => EvTechnique::ZeroHundred,
        _ => EvTechnique::FiftyFifty,
    }
}

// The number of the technique, and after 5 its share.
pub fn read_technique(book: &[u8], at: Pos) -> Read<EvTechnique>
    ensures { (result.value, result.next) ≡ (enumeration.technique).read book.now at }
{
    let number = field(book, at, 0, 6, Reason::OutOfRange);
    if number.value == 5 {
        let share = amount(book, number.next);
        return Read {
            value: EvTechnique::Custom(share.value),
            next: share.next,
        };
    }
    Read {
        value: technique_of(number.value),
        next: number.next,
    }
}
