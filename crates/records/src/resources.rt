// Resources: what leads one, and its prices.
ghost use Rattle.std.specs.Prelude.{◌≡◌};
ghost use Rattle.format.specs.Enumeration.{resource_kind};
ghost use Rattle.format.specs.Format as layout;
ghost use Rattle.records.specs.Decoded.{price_of};

use fields::Read;
use fields::kinds::{amount, field, optional_date};
use format::{Pos, Reason, ResourceKind};

// A price per unit and the day that it holds from.
#[derive(Clone, Copy)]
pub struct Price {
    pub from: Option<u64>,
    pub amount: i64,
    pub next: Pos,
}

// What leads a resource, its kind. Its prices follow.
pub fn read_resource_head(book: &[u8], at: Pos) -> Read<ResourceKind>
    ensures { (result.value, result.next) ≡ resource_kind.read book.now at }
{
    let kind = field(book, at, 0, 3, Reason::OutOfRange);
    Read {
        value: ResourceKind::from(kind.value),
        next: kind.next,
    }
}

pub fn read_price(book: &[u8], at: Pos) -> Price
    ensures { (price_of result, result.next) ≡ (layout.price).read book.now at }
{
    let from = optional_date(book, at);
    let price = amount(book, from.next);
    Price {
        from: from.value,
        amount: price.value,
        next: price.next,
    }
}
