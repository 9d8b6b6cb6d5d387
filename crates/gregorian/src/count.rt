// Signed numbers counted from a number below them.
ghost use Rattle.std.specs.Prelude.{◌≡◌, ◌<◌, pos, ◌+ℤ◌, ◌≤ℤ◌};
ghost use Rattle.gregorian.specs.Count.{counted, signed};

// z counted from -start.
pub fn counted_from(start: u32, z: i32) -> u32
    requires { (start < 8000000) × ((pos 0 ≤ℤ (z +ℤ pos start)) × (z ≤ℤ pos 8000000)) }
    ensures { result ≡ counted start z }
{
    (z + start as i32) as u32
}

// The number that is n counted from -start.
pub fn signed_from(start: u32, n: u32) -> i32
    requires { (start < 8000000) × (n < 8000000) }
    ensures { result ≡ signed start n }
{
    n as i32 - start as i32
}
