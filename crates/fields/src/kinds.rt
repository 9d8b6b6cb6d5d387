// The kinds of field.
ghost use Rattle.std.specs.Prelude.{◌≡◌, true, ltb};
ghost use Rattle.format.specs.Number.{in_range};
ghost use Rattle.format.specs.Reader as reader;
ghost use Rattle.format.specs.Reader.{place_of};
ghost use Rattle.format.specs.Signed.{received};
ghost use Rattle.format.specs.Field as kind;
ghost use Rattle.format.specs.Field.{S, D};
ghost use Rattle.format.specs.Codec as codec;
ghost use Rattle.format.specs.Codec.{O};
ghost use Rattle.format.specs.Format as layout;
ghost use Rattle.fields.specs.Common.{Fits};

use crate::Read;
use crate::numbers::{Few, brief, mark_at, number, short};
use format::{Num, Pos, Reason, Refusal};

// The place of a position: of what is read next, or of the refusal.
pub fn place(at: Pos) -> usize
    ensures { result ≡ place_of at }
{
    match at {
        Ok(i) => i,
        Err(e) => e.place,
    }
}

// A number that was read, as a field.
fn found(n: Num) -> Read<u64>
    ensures { (result.value, result.next) ≡ reader.found n }
{
    match n {
        Ok((v, next)) => Read {
            value: v,
            next: Ok(next),
        },
        Err(e) => Read {
            value: 0,
            next: Err(e),
        },
    }
}

// The number, where it is from `low` to below `bound`; outside, the refusal `reason` at `place`.
fn within(n: Num, low: u64, bound: u64, reason: Reason, place: usize) -> Num
    ensures { result ≡ in_range low bound reason place n }
{
    match n {
        Ok((v, next)) => {
            if v < low {
                return Err(Refusal { reason, place });
            }
            if v < bound {
                return Ok((v, next));
            }
            Err(Refusal { reason, place })
        }
        Err(e) => Err(e),
    }
}

// Whether the number is from `low` to below `bound`.
fn fits(n: Few, low: u64, bound: u64) -> bool
    ensures { result ≡ true → Fits n low bound }
{
    low <= n.value && n.value < bound
}

// Any number.
pub fn any_number(book: &[u8], at: Pos) -> Read<u64>
    ensures { (result.value, result.next) ≡ reader.number book.now at }
{
    match at {
        Ok(i) => {
            if let Some(n) = short(book, i) {
                return Read {
                    value: n.value,
                    next: Ok(n.next),
                };
            }
            found(number(book, i))
        }
        Err(e) => Read {
            value: 0,
            next: Err(e),
        },
    }
}

// A number from `low` to below `bound`; outside, the refusal `reason` at `place`.
pub fn ranged(book: &[u8], at: Pos, place: usize, low: u64, bound: u64, reason: Reason) -> Read<u64>
    ensures { (result.value, result.next) ≡ reader.ranged low bound reason place book.now at }
{
    match at {
        Ok(i) => {
            if let Some(n) = short(book, i) {
                if fits(n, low, bound) {
                    return Read {
                        value: n.value,
                        next: Ok(n.next),
                    };
                }
            }
            let n = number(book, i);
            found(within(n, low, bound, reason, place))
        }
        Err(e) => Read {
            value: 0,
            next: Err(e),
        },
    }
}

// The same, refused at its own place: a U, or with Reason::CountOutOfRange the count of a list.
pub fn field(book: &[u8], at: Pos, low: u64, bound: u64, reason: Reason) -> Read<u64>
    ensures { (result.value, result.next) ≡ (codec.field (kind.range low bound reason)).read book.now at }
{
    ranged(book, at, place(at), low, bound, reason)
}

// O of a number from `low` to below `bound`, which is refused at its mark's place.
fn optional(book: &[u8], at: usize, low: u64, bound: u64) -> Read<Option<u64>>
    ensures { (result.value, result.next) ≡ (O (kind.range low bound Reason.OutOfRange)).read book.now (Ok at) }
{
    let mark = field(book, Ok(at), 0, 2, Reason::OutOfRange);
    if mark.value == 0 {
        return Read {
            value: None,
            next: mark.next,
        };
    }
    let value = ranged(book, mark.next, at, low, bound, Reason::OutOfRange);
    Read {
        value: Some(value.value),
        next: value.next,
    }
}

// The signed number that v stands for.
fn signed_of(v: u64) -> i64
    ensures { result ≡ received v }
{
    let half = (v / 2) as i64;
    if v % 2 == 0 { half } else { -1 - half }
}

// S: a signed number.
pub fn amount(book: &[u8], at: Pos) -> Read<i64>
    ensures { (result.value, result.next) ≡ (codec.field S).read book.now at }
{
    let n = any_number(book, at);
    Read {
        value: signed_of(n.value),
        next: n.next,
    }
}

// O S: a signed number that may be absent.
pub fn optional_amount(book: &[u8], at: Pos) -> Read<Option<i64>>
    ensures { (result.value, result.next) ≡ (O S).read book.now at }
{
    let mark = field(book, at, 0, 2, Reason::OutOfRange);
    if mark.value == 0 {
        return Read {
            value: None,
            next: mark.next,
        };
    }
    let value = amount(book, mark.next);
    Read {
        value: Some(value.value),
        next: value.next,
    }
}

// D: a date, as the count of days from 1 January 1970, in the years 2000 to 2099.
pub fn date(book: &[u8], at: Pos) -> Read<u64>
    ensures { (result.value, result.next) ≡ (codec.field D).read book.now at }
{
    field(book, at, 10957, 47482, Reason::OutOfRange)
}

// O D: a date that may be absent.
pub fn optional_date(book: &[u8], at: Pos) -> Read<Option<u64>>
    ensures { (result.value, result.next) ≡ (O D).read book.now at }
{
    match at {
        Ok(i) => {
            let mark = mark_at(book, i);
            if mark == 0 {
                return Read {
                    value: None,
                    next: Ok(i + 1),
                };
            }
            if mark == 1 {
                if let Some(n) = short(book, i + 1) {
                    if fits(n, 10957, 47482) {
                        return Read {
                            value: Some(n.value),
                            next: Ok(n.next),
                        };
                    }
                }
            }
            optional(book, i, 10957, 47482)
        }
        Err(e) => Read {
            value: None,
            next: Err(e),
        },
    }
}

// An index: below the count of what it names.
pub fn index(book: &[u8], at: Pos, named: u64) -> Read<u64>
    ensures { (result.value, result.next) ≡ (codec.field (kind.index named)).read book.now at }
{
    field(book, at, 0, named, Reason::OutOfRange)
}

// O index: an index that may be absent.
pub fn optional_index(book: &[u8], at: Pos, named: u64) -> Read<Option<u64>>
    ensures { (result.value, result.next) ≡ (O (kind.index named)).read book.now at }
{
    match at {
        Ok(i) => {
            let mark = mark_at(book, i);
            if mark == 0 {
                return Read {
                    value: None,
                    next: Ok(i + 1),
                };
            }
            if mark == 1 {
                if let Some(n) = brief(book, i + 1) {
                    if fits(n, 0, named) {
                        return Read {
                            value: Some(n.value),
                            next: Ok(n.next),
                        };
                    }
                }
            }
            optional(book, i, 0, named)
        }
        Err(e) => Read {
            value: None,
            next: Err(e),
        },
    }
}

// Minutes: up to 1,000,000,000.
pub fn minutes(book: &[u8], at: Pos) -> Read<u64>
    ensures { (result.value, result.next) ≡ (codec.field kind.minutes).read book.now at }
{
    field(book, at, 0, 1000000001, Reason::OutOfRange)
}

// The date d, read at `place`, where it is above the one before it; else refusal 6.
fn above(d: Read<u64>, before: u64, place: usize) -> Read<u64>
    ensures { (result.value, result.next) ≡ reader.tested 0 Reason.OutOfOrder place (ltb before d.value) (d.value, d.next) }
{
    match d.next {
        Ok(_) => {
            if before < d.value {
                return d;
            }
            Read {
                value: 0,
                next: Err(Refusal {
                    reason: Reason::OutOfOrder,
                    place,
                }),
            }
        }
        Err(_) => d,
    }
}

// D, strictly above the date before it.
pub fn rising(book: &[u8], at: Pos, before: u64) -> Read<u64>
    ensures { (result.value, result.next) ≡ (layout.rising before).read book.now at }
{
    above(date(book, at), before, place(at))
}
