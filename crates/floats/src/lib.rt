// Figures worked out in f64, each product and quotient rounded once, and the whole numbers made
// of them.
#![tactic(auto)]

ghost use Rattle.std.specs.Prelude.{◌≡◌};
ghost use Rattle.integer.specs.Linear.{plus};
ghost use Rattle.floats.specs.Rounding.{nearest_of, whole_of};
ghost use Rattle.floats.specs.Figures.{ratio_of, both_of, at_rate_of, clamp01_of, share_of, earned_of, bits_of};

// The f64 nearest to z, ties to even.
pub fn nearest(z: i64) -> f64
    ensures { result ≡ nearest_of z }
{
    std::num::nearest_i64_to_f64(z)
}

// The whole number nearest to x, at most 9 * 10^15; 0 for a NaN and below zero.
fn magnitude(x: f64) -> u64
    ensures { result ≡ plus (whole_of x) }
{
    if x >= 9e15 {
        return 9_000_000_000_000_000;
    }
    if x > 0.0 {
        // Twice x is exact, so a half is not lost before it is rounded up.
        return (std::num::truncating_f64_to_u64(x * 2.0) + 1) / 2;
    }
    0
}

// The whole number nearest to x, halves away from zero, clamped to 9 * 10^15 either way; 0 for a
// NaN.
pub fn whole(x: f64) -> i64
    ensures { result ≡ whole_of x }
{
    if x < 0.0 {
        return 0 - (magnitude(-x) as i64);
    }
    magnitude(x) as i64
}

// The quotient of a and b; `None` where b is 0.
pub fn ratio(a: i64, b: i64) -> Option<f64>
    ensures { result ≡ ratio_of a b }
{
    if b == 0 {
        return None;
    }
    Some(nearest(a) / nearest(b))
}

// The product of p and q; `None` where one is.
pub fn both(p: Option<f64>, q: Option<f64>) -> Option<f64>
    ensures { result ≡ both_of p q }
{
    Some(p? * q?)
}

// What is left, at the performance `factor`; as it is where the factor is absent or not above 0.
pub fn at_rate(left: i64, factor: Option<f64>) -> i64
    ensures { result ≡ at_rate_of left factor }
{
    match factor {
        Some(f) if f > 0.0 => whole(nearest(left) / f),
        _ => left,
    }
}

// x clamped to 0..1; -0 stays -0.
pub fn clamp01(x: f64) -> f64
    ensures { result ≡ clamp01_of x }
{
    if x < 0.0 {
        return 0.0;
    }
    if x > 1.0 {
        return 1.0;
    }
    x
}

// The share, from 0 to 1, that a percent in hundredths is.
pub fn share(hundredths: i64) -> f64
    ensures { result ≡ share_of hundredths }
{
    clamp01(nearest(hundredths) / 10000.0)
}

// The budget times the share done.
pub fn earned(budget: i64, done: f64) -> i64
    ensures { result ≡ earned_of budget done }
{
    whole(nearest(budget) * done)
}

// The bits of x; for a NaN the one pattern that the logic writes.
pub fn bits(x: f64) -> u64
    ensures { result ≡ bits_of x }
{
    if x != x {
        return 0x7ff8_0000_0000_0000;
    }
    f64::to_bits(x)
}
