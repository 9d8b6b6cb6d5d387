ghost use Rattle.std.specs.Prelude.{◌≡◌, FitsSigned};
ghost use Rattle.std.specs.Int.{w64};
ghost use Rattle.integer.specs.Signs.{with_sign};
ghost use Rattle.money.specs.Words.{bits, of_bits};

// −m where negative is set, else m.
pub fn with_sign(negative: bool, m: u64) -> i64
    requires { FitsSigned w64 (with_sign negative m) }
    ensures { result ≡ with_sign negative m }
{
    let z = m.cast_signed();
    if negative { z.wrapping_neg() } else { z }
}

// A signed number in two's complement.
pub fn to_bits(x: i64) -> u64
    ensures { result ≡ bits x }
{
    x.cast_unsigned()
}

// The signed number of which u is the two's complement.
pub fn from_bits(u: u64) -> i64
    ensures { result ≡ of_bits u }
{
    u.cast_signed()
}
