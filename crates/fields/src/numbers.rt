// Numbers: groups of seven bits, lowest group first.
ghost use Rattle.std.specs.Prelude.{◌≡◌, ◌+◌, ◌-◌, ◌<◌, length};
ghost use Rattle.format.specs.Number.{number_at};
ghost use Rattle.fields.specs.Common.{IsFew, IsMark, Begun, IsEnding};

use format::{Num, Reason, Refusal};

// A number of few bytes, and the place after it.
#[derive(Clone, Copy)]
pub struct Few {
    pub value: u64,
    pub next: usize,
}

// What the bytes of a number come to, and the place after them, if `last` ends it.
#[derive(Clone, Copy)]
struct Ending {
    value: u64,
    next: usize,
    last: u64,
}

// The number that begins at `place`: a byte below 128 is its last, and the tenth can only be 1. Its callers read
// most numbers without it, and are small enough to be inlined where it is not.
#[inline(never)]
pub fn number(book: &[u8], place: usize) -> Num
    ensures { result ≡ number_at book.now place }
{
    if book.len() <= place {
        return Err(Refusal {
            reason: Reason::EndsEarly,
            place: book.len(),
        });
    }
    let first = u64::from(book[place]);
    if first < 128 {
        return Ok((first, place + 1));
    }
    let mut scale: u64 = 128;
    let mut sum = first - 128;
    for at in place + 1..place + 9 {
        if book.len() <= at {
            return Err(Refusal {
                reason: Reason::EndsEarly,
                place: book.len(),
            });
        }
        let b = u64::from(book[at]);
        if b < 128 {
            if b == 0 {
                return Err(Refusal {
                    reason: Reason::NotShortest,
                    place,
                });
            }
            return Ok((sum + scale * b, at + 1));
        }
        sum += scale * (b - 128);
        scale *= 128;
    }
    if book.len() <= place + 9 {
        return Err(Refusal {
            reason: Reason::EndsEarly,
            place: book.len(),
        });
    }
    let tenth = u64::from(book[place + 9]);
    if tenth == 1 {
        return Ok((sum + scale, place + 10));
    }
    Err(Refusal {
        reason: Reason::NotShortest,
        place,
    })
}

// Below it, at least four bytes begin at every place.
fn far(book: &[u8]) -> usize
    ensures { result ≡ length book.now - 3 }
{
    if book.len() < 4 {
        return 0;
    }
    book.len() - 3
}

// The mark at `place`, 0 or 1, where three bytes follow it; else 2 or more.
pub fn mark_at(book: &[u8], place: usize) -> u64
    ensures { result < 2 → IsMark book.now place result }
{
    if place < far(book) {
        return u64::from(book[place]);
    }
    2
}

// The number that begins at `place`, where it has one or two bytes; any other is read by `number`.
pub fn brief(book: &[u8], place: usize) -> Option<Few>
    requires { place + 1 < length book.now }
    ensures { IsFew book.now place result }
{
    let first = u64::from(book[place]);
    if first < 128 {
        return Some(Few {
            value: first,
            next: place + 1,
        });
    }
    let second = u64::from(book[place + 1]);
    if second == 0 {
        return None;
    }
    if second < 128 {
        return Some(Few {
            value: first - 128 + 128 * second,
            next: place + 2,
        });
    }
    None
}

// The bytes of a number to one below 128, or to the fourth. The first is `first`, which is not below 128.
fn behind(book: &[u8], place: usize, first: u64) -> Ending
    requires { Begun book.now place first }
    ensures { IsEnding book.now place result }
{
    let second = u64::from(book[place + 1]);
    let two = first - 128 + 128 * second;
    if second < 128 {
        return Ending {
            value: two,
            next: place + 2,
            last: second,
        };
    }
    let third = u64::from(book[place + 2]);
    let three = two - 16384 + 16384 * third;
    if third < 128 {
        return Ending {
            value: three,
            next: place + 3,
            last: third,
        };
    }
    let fourth = u64::from(book[place + 3]);
    Ending {
        value: three - 2097152 + 2097152 * fourth,
        next: place + 4,
        last: fourth,
    }
}

// The number that begins at `place`, where it has one to four bytes and at least four are left.
pub fn short(book: &[u8], place: usize) -> Option<Few>
    ensures { IsFew book.now place result }
{
    if far(book) <= place {
        return None;
    }
    let first = u64::from(book[place]);
    if first < 128 {
        return Some(Few {
            value: first,
            next: place + 1,
        });
    }
    let n = behind(book, place, first);
    if n.last == 0 {
        return None;
    }
    if n.last < 128 {
        return Some(Few {
            value: n.value,
            next: n.next,
        });
    }
    None
}
