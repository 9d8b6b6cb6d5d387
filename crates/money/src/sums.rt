ghost use Rattle.std.specs.Prelude.{◌≡◌, ◌+ℤ◌, ◌-ℤ◌};
ghost use Rattle.std.specs.Int.{w64};
ghost use Rattle.integer.specs.Clamp.{clamp};

pub fn saturating_add(a: i64, b: i64) -> i64
    ensures { result ≡ clamp w64 (a +ℤ b) }
{
    a.saturating_add(b)
}

pub fn saturating_sub(a: i64, b: i64) -> i64
    ensures { result ≡ clamp w64 (a -ℤ b) }
{
    a.saturating_sub(b)
}
