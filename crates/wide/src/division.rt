ghost use Rattle.std.specs.Prelude.{◌≡◌, ◌+◌, ◌-◌, ◌*◌, ◌/◌, ◌≤◌, ◌<◌, min};
ghost use Rattle.wide.specs.Words.{half, word, Divided, Factor};

use crate::words::{HALF, product};

// A digit of a quotient, 32 bits of it, and what is left to divide.
#[derive(Clone, Copy)]
struct Part {
    pub digit: u64,
    pub rest: u64,
}

// rest * 2^32 + next by d. The first guess at the digit, by the high half of d, is never too small. It leaves `left` of
// `rest`, and is too large where the low half of d takes more than left * 2^32 + next: where `left` is below the high
// half of q * low + gap. Right for every d with a high half, and quick where d has its top bit set: two turns at most (Knuth 4.3.1, B).
fn step(rest: u64, next: u64, d: u64) -> Part
    requires { (rest < d) × ((next < half) × (half ≤ d)) }
    ensures { Divided (rest * half + next) d result.digit result.rest }
{
    let high = d / HALF;
    let low = d % HALF;
    let gap = HALF - 1 - next;
    let mut q = (rest / high).min(HALF - 1);
    let mut left = rest - q * high;
    while left < (q * low + gap) / HALF {
        q -= 1;
        left += high;
    }
    let taken = q * low + gap;
    Part {
        digit: q,
        rest: (left - taken / HALF) * HALF + (HALF - 1 - taken % HALF),
    }
}

// The power of two that makes d as large as 64 bits allow.
fn factor(d: u64) -> u64
    requires { 0 < d }
    ensures { Factor d result }
{
    1 << d.leading_zeros()
}

// high * 2^64 + low by d, whose quotient fits a word since high is below d: two digits of 32 bits.
// Here d is below 2^32, and each digit is a plain quotient.
fn by_half(high: u64, low: u64, d: u64) -> u64
    requires { (high < d) × (d < half) }
    ensures { result ≡ (high * word + low) / d }
{
    let n = high * HALF + low / HALF;
    let m = n % d * HALF + low % HALF;
    n / d * HALF + m / d
}

// The same for a d of more than 32 bits, which is first made larger, and the number with it, so that the steps guess well.
fn by_word(high: u64, low: u64, d: u64) -> u64
    requires { (high < d) × (half ≤ d) }
    ensures { result ≡ (high * word + low) / d }
{
    let k = factor(d);
    let divisor = d * k;
    let p = product(low, k);
    let first = step(high * k + p.high, p.low / HALF, divisor);
    let second = step(first.rest, p.low % HALF, divisor);
    first.digit * HALF + second.digit
}

// u * v / d rounded down, or 2^64 − 1 where that takes more than 64 bits; 0 where d is 0.
pub fn mul_div(u: u64, v: u64, d: u64) -> u64
    ensures { result ≡ min (u * v / d) (word - 1) }
{
    if d == 0 {
        return 0;
    }
    let p = product(u, v);
    if p.high == 0 {
        return p.low / d;
    }
    if d <= p.high {
        return u64::MAX;
    }
    if d < HALF {
        return by_half(p.high, p.low, d);
    }
    by_word(p.high, p.low, d)
}
