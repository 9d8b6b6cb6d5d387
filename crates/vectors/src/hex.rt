// A book, which stands in its line in hexadecimal digits.
ghost use Rattle.std.specs.Prelude.{◌+◌, ◌≤◌, ◌<◌, IfSome, IsSome, length};

// How many bytes of a book were read, and where they end in the line.
#[derive(Clone, Copy)]
pub struct Read {
    pub count: usize,
    pub next: usize,
}

// A hexadecimal digit's value.
fn digit(b: u8) -> Option<u8>
    ensures { IfSome result (λ d. d < 16) }
{
    match b {
        b'0'..=b'9' => Some(b - b'0'),
        b'a'..=b'f' => Some(b - b'a' + 10),
        _ => None,
    }
}

// The byte that two digits at `at` write.
fn byte(line: &[u8], at: usize) -> Option<u8>
    ensures { IsSome result → at + 2 ≤ 18446744073709551615 }
{
    let high = digit(*line.get(at)?)?;
    let low = digit(*line.get(at + 1)?)?;
    Some(high * 16 + low)
}

// Reads pairs of digits into `out`, as far as there are both.
pub fn read_bytes(line: &[u8], from: usize, out: &mut [u8]) -> Read
    ensures { result.count ≤ length out.new }
{
    let mut at = from;
    for n in 0..out.len() {
        match byte(line, at) {
            Some(b) => out[n] = b,
            None => return Read { count: n, next: at },
        }
        at += 2;
    }
    Read {
        count: out.len(),
        next: at,
    }
}
