// Resources, and their prices.
ghost use Rattle.std.specs.Prelude.{◌≡◌};
ghost use Rattle.format.specs.Format as layout;
ghost use Rattle.sections.specs.Sections.{IsAlike, resource_of};

use crate::Section;
use fields::kinds::field;
use format::{Pos, Reason, ResourceKind};
use records::resources::{read_price, read_resource_head};

// A resource, its prices by where they are.
#[derive(Clone, Copy)]
pub struct Resource {
    pub kind: ResourceKind,
    pub prices: Section,
    pub next: Pos,
}

// Up to 40 prices.
fn read_prices(book: &[u8], at: Pos) -> Section
    ensures { IsAlike 0 40 layout.price book.now at result }
{
    let lead = field(book, at, 0, 41, Reason::CountOutOfRange);
    let first = lead.next;
    let count = lead.value;
    let mut next = first;
    for _ in 0..count {
        next = read_price(book, next).next;
    }
    Section { count, first, next }
}

// A resource: its kind, then its prices.
pub fn read_resource(book: &[u8], at: Pos) -> Resource
    ensures { (resource_of book.now result, result.next) ≡ (layout.resource).read book.now at }
{
    let head = read_resource_head(book, at);
    let prices = read_prices(book, head.next);
    Resource {
        kind: head.value,
        prices,
        next: prices.next,
    }
}
