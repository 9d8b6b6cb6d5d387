ghost use Rattle.std.specs.Prelude.{◌≡◌, ◌<◌, ◌≤◌};
ghost use Rattle.integer.specs.Sums.{ints, sum};
ghost use Rattle.money.specs.Shares.{share_of};

use crate::words::with_sign;

// What day k of n gets of an amount.
pub fn share(amount: i64, n: u64, k: u64) -> i64
    requires { 0 < n }
    ensures { result ≡ share_of amount n k }
{
    let m = amount.unsigned_abs();
    let mut each = m / n;
    if k < m % n {
        each += 1;
    }
    with_sign(amount < 0, each)
}

// What the first k of n days get of an amount.
pub fn cumulative(amount: i64, n: u64, k: u64) -> i64
    requires { (0 < n) × (k ≤ n) }
    ensures { result ≡ sum ints (share_of amount n) k }
{
    let m = amount.unsigned_abs();
    with_sign(amount < 0, k * (m / n) + k.min(m % n))
}
