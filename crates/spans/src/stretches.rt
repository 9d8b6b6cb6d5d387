// The stretch of dates that spans take.
ghost use Rattle.std.specs.Prelude.{◌≡◌, ◌+◌, ◌*◌, ◌<◌, length, get_or};
ghost use Rattle.spans.specs.Stretches.{DatedSpans, CoversSpans, widened, closed};

use crate::Stretch;

// The stretch with one more span, which has no dates where its first is 0.
pub fn widen(known: Stretch, first: u64, last: u64) -> Stretch
    ensures { result ≡ widened known first last }
{
    if first == 0 {
        return known;
    }
    Stretch {
        from: known.from.min(first),
        to: known.to.max(first.max(last)),
    }
}

// The stretch once all spans are taken: of no dates where none had any.
pub fn close(known: Stretch) -> Stretch
    ensures { result ≡ closed known }
{
    if known.to < known.from {
        return Stretch {
            from: 10957,
            to: 10956,
        };
    }
    known
}

// From the first date of all spans to the last of all, in a table of n rows: of each a first date at a place, and a last one behind it.
pub fn stretch_of(table: &[u64], n: usize, width: usize, at: usize) -> Stretch
    requires table_len { (length table.now ≡ n * width) × (at + 1 < width) }
    requires dated_spans { DatedSpans (λ i. get_or table.now (i * width + at) 0) (λ i. get_or table.now (i * width + at + 1) 0) }
    ensures { CoversSpans (λ i. get_or table.now (i * width + at) 0) (λ i. get_or table.now (i * width + at + 1) 0) result }
{
    let mut known = Stretch {
        from: 47482,
        to: 10956,
    };
    for i in 0..n {
        let k = i * width + at;
        known = widen(known, table[k], table[k + 1]);
    }
    close(known)
}
