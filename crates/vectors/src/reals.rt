// The crate `floats`.
use crate::answer::{Answer, one, two};
use crate::names::place;
use money::words::{from_bits, to_bits};

// The float with these bits; 0 for the bits of a NaN.
fn float(u: u64) -> f64 {
    if u % 9223372036854775808 / 4503599627370496 != 2047 {
        return f64::from_bits(u);
    }
    if u % 4503599627370496 != 0 {
        return 0.0;
    }
    f64::from_bits(u)
}

fn index(i: Option<f64>) -> Answer {
    match i {
        Some(x) => two(1, floats::bits(x)),
        None => two(0, 0),
    }
}

// The product of two floats that are there.
fn product(x: f64, y: f64) -> f64 {
    floats::both(Some(x), Some(y)).unwrap_or(0.0)
}

// What the function of that name gives; nothing where there is none.
pub fn answer(name: &[u8], x: [u64; 16]) -> Option<Answer> {
    let z = from_bits(x[0]);
    let f = float(x[0]);
    let g = float(x[1]);
    let given = match place(
        name,
        b"whole clamp01 product nearest ratio earned percent_share ",
    ) {
        0 => one(to_bits(floats::whole(f))),
        1 => one(floats::bits(floats::clamp01(f))),
        2 => one(floats::bits(product(f, g))),
        3 => one(floats::bits(floats::nearest(z))),
        4 => index(floats::ratio(z, from_bits(x[1]))),
        5 => one(to_bits(floats::earned(z, g))),
        6 => one(floats::bits(floats::share(z))),
        _ => return None,
    };
    Some(given)
}
