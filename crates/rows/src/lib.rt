// Rows of numbers in lent memory: figures as they stand, one row at a place, and a number that may be absent.
#![tactic(auto)]

ghost use Rattle.std.specs.Prelude.{◌≡◌, map, ◌+◌, ◌≤◌, ◌<◌, length};
ghost use Rattle.std.proofs.lemmas.List.Edits.{sets};
ghost use Rattle.money.specs.Words.{bits};
ghost use Rattle.rows.specs.Rows.{optional};

use money::words::to_bits;

// Puts figures, row after row as they stand.
pub fn put_numbers(figures: &[i64], out: &mut [u64])
    requires { length out.old ≡ length figures.now }
    ensures { out.new ≡ map bits figures.now }
{
    for (i, &x) in figures.iter().enumerate() {
        out[i] = to_bits(x);
    }
}

// Sets a row at a place.
pub fn put_row<T: Copy>(row: &[T], at: usize, out: &mut [T])
    requires { at + length row.now ≤ length out.old }
    ensures { out.new ≡ sets out.old at row.now }
{
    out[at..at + row.len()].copy_from_slice(row);
}

// Puts a number that may be absent, as numbers `at` and `at` + 1.
pub fn put_optional(number: Option<u64>, at: usize, out: &mut [u64])
    requires { at + 1 < length out.old }
    ensures { out.new ≡ sets out.old at (optional number) }
{
    match number {
        None => {
            out[at] = 0;
            out[at + 1] = 0;
        }
        Some(n) => {
            out[at] = 1;
            out[at + 1] = n;
        }
    }
}
