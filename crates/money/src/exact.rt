ghost use Rattle.std.specs.Prelude.{◌≡◌, true, ◌+ℤ◌, ◌-ℤ◌};
ghost use Rattle.money.specs.Words.{of_bits};
ghost use Rattle.money.specs.Exact.{value_of, is_word, IsSmall};

use crate::words::from_bits;

// A signed number of two words, high × 2^64 + low: sums of amounts of 64 bits, which neither saturate nor overflow.
#[derive(Clone, Copy)]
pub struct Exact {
    pub high: i64,
    pub low: u64,
}

// The number of 64 bits that has this two's complement.
pub fn widened(bits: u64) -> Exact
    ensures { value_of result ≡ of_bits bits }
{
    if bits < 9223372036854775808 {
        Exact { high: 0, low: bits }
    } else {
        Exact {
            high: -1,
            low: bits,
        }
    }
}

pub fn add(a: Exact, b: Exact) -> Exact
    requires { IsSmall (value_of a) × IsSmall (value_of b) }
    ensures { value_of result ≡ value_of a +ℤ value_of b }
{
    let high = a.high + b.high;
    let low = a.low.wrapping_add(b.low);
    if low < a.low {
        Exact {
            high: high + 1,
            low,
        }
    } else {
        Exact { high, low }
    }
}

pub fn subtract(a: Exact, b: Exact) -> Exact
    requires { IsSmall (value_of a) × IsSmall (value_of b) }
    ensures { value_of result ≡ value_of a -ℤ value_of b }
{
    let high = a.high - b.high;
    let low = a.low.wrapping_sub(b.low);
    if a.low < b.low {
        Exact {
            high: high - 1,
            low,
        }
    } else {
        Exact { high, low }
    }
}

// Whether it is a number of 64 bits.
pub fn is_word(a: Exact) -> bool
    ensures { result ≡ is_word (value_of a) }
{
    if a.high == 0 {
        return a.low < 9223372036854775808;
    }
    if a.high == -1 {
        return 9223372036854775808 <= a.low;
    }
    false
}

// The same number in 64 bits.
pub fn narrowed(a: Exact) -> i64
    requires { is_word (value_of a) ≡ true }
    ensures { result ≡ value_of a }
{
    from_bits(a.low)
}
