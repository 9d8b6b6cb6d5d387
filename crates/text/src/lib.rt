// Lines of text, put into a buffer one behind the other. What a function puts stands behind the first `at` bytes, up to the
// place that it returns.
#![tactic(auto)]

ghost use Rattle.std.specs.Prelude.{[], ◌∷◌, ◌++◌, ◌≡◌, ◌+◌, ◌*◌, ◌≤◌, length, take};
ghost use Rattle.money.specs.Words.{of_bits};
ghost use Rattle.text.specs.Text.{decimal, pair, signed, marked, figures, line};

// Puts bytes.
pub fn put(out: &mut [u8], at: usize, bytes: &[u8]) -> usize
    requires { at + length bytes.now ≤ length out.old }
    ensures value { result ≡ at + length bytes.now }
    ensures out_after { take result out.new ≡ take at out.old ++ bytes.now }
{
    out[at..at + bytes.len()].copy_from_slice(bytes);
    at + bytes.len()
}

// Puts a number in decimal digits.
pub fn put_decimal(out: &mut [u8], at: usize, n: u64) -> usize
    requires { at + 20 ≤ length out.old }
    ensures upper_bound { result ≤ at + 20 }
    ensures out_after { take result out.new ≡ take at out.old ++ decimal n }
{
    let mut digits = [0u8; 20];
    let count = io::decimal(n, &mut digits);
    put(out, at, &digits[..count])
}

// Puts two numbers, a blank between them.
pub fn put_pair(out: &mut [u8], at: usize, first: u64, second: u64) -> usize
    requires { at + 41 ≤ length out.old }
    ensures upper_bound { result ≤ at + 41 }
    ensures out_after { take result out.new ≡ take at out.old ++ pair first second }
{
    let head = put_decimal(out, at, first);
    let blank = put(out, head, b" ");
    put_decimal(out, blank, second)
}

// Puts a number in two's complement, with its sign.
fn put_signed(out: &mut [u8], at: usize, bits: u64) -> usize
    requires { at + 21 ≤ length out.old }
    ensures upper_bound { result ≤ at + 21 }
    ensures out_after { take result out.new ≡ take at out.old ++ signed (of_bits bits) }
{
    if bits < 9223372036854775808 {
        return put_decimal(out, at, bits);
    }
    let behind = put(out, at, b"-");
    put_decimal(out, behind, 18446744073709551615 - bits + 1)
}

// Puts what may be absent behind a blank: a hyphen where the mark is 0, else the number.
fn put_marked(out: &mut [u8], at: usize, mark: u64, bits: u64) -> usize
    requires { at + 22 ≤ length out.old }
    ensures upper_bound { result ≤ at + 22 }
    ensures out_after { take result out.new ≡ take at out.old ++ 32 ∷ marked mark bits }
{
    if mark == 0 {
        return put(out, at, b" -");
    }
    let behind = put(out, at, b" ");
    put_signed(out, behind, bits)
}

// Puts the last column of a line, which may be absent, and the line's end.
pub fn put_last(out: &mut [u8], at: usize, mark: u64, bits: u64) -> usize
    requires { at + 23 ≤ length out.old }
    ensures upper_bound { result ≤ at + 23 }
    ensures out_after { take result out.new ≡ take at out.old ++ ((32 ∷ marked mark bits) ++ (10 ∷ [])) }
{
    let end = put_marked(out, at, mark, bits);
    put(out, end, b"\n")
}

// Puts numbers in two's complement, each behind a blank.
pub fn put_figures(out: &mut [u8], at: usize, numbers: &[u64]) -> usize
    requires { at + 22 * length numbers.now ≤ length out.old }
    ensures upper_bound { result ≤ at + 22 * length numbers.now }
    ensures out_after { take result out.new ≡ take at out.old ++ figures numbers.now }
{
    let mut end = at;
    for &number in numbers {
        let behind = put(out, end, b" ");
        end = put_signed(out, behind, number);
    }
    end
}

// Puts the figures of a line behind what leads it, and the line's end.
fn put_rest(out: &mut [u8], at: usize, numbers: &[u64]) -> usize
    requires { at + 22 * length numbers.now + 1 ≤ length out.old }
    ensures upper_bound { result ≤ at + 22 * length numbers.now + 1 }
    ensures out_after { take result out.new ≡ take at out.old ++ line [] numbers.now }
{
    let end = put_figures(out, at, numbers);
    put(out, end, b"\n")
}

// Puts a line that a word leads.
pub fn put_line(out: &mut [u8], at: usize, word: &[u8], numbers: &[u64]) -> usize
    requires { at + length word.now + 22 * length numbers.now + 1 ≤ length out.old }
    ensures upper_bound { result ≤ at + length word.now + 22 * length numbers.now + 1 }
    ensures out_after { take result out.new ≡ take at out.old ++ line word.now numbers.now }
{
    let end = put(out, at, word);
    put_rest(out, end, numbers)
}

// Puts a line that a number leads.
pub fn put_row(out: &mut [u8], at: usize, first: u64, numbers: &[u64]) -> usize
    requires { at + 22 * length numbers.now + 21 ≤ length out.old }
    ensures upper_bound { result ≤ at + 22 * length numbers.now + 21 }
    ensures out_after { take result out.new ≡ take at out.old ++ line (decimal first) numbers.now }
{
    let end = put_decimal(out, at, first);
    put_rest(out, end, numbers)
}
