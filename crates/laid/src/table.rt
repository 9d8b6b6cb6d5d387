// Amounts laid onto a table by date. It begins at the date `base`, and has two numbers for each date: 1 where something falls on it, and the sum.
ghost use Rattle.std.specs.Prelude.{[], ◌∷◌};
ghost use Rattle.model.specs.Amounts.{on};
ghost use Rattle.laid.specs.Laid.{Laid};

use money::sums::saturating_add;
use money::words::{from_bits, to_bits};

// Lays an amount on its date, where the table has it.
pub fn lay(date: u64, amount: i64, base: u64, table: &mut [u64])
    ensures { Laid base (on date amount ∷ []) table.old table.new }
{
    if date < base {
        return;
    }
    let i = (date - base) as usize;
    if i < table.len() / 2 {
        let at = i * 2;
        let sum = from_bits(table[at + 1]);
        table[at] = 1;
        table[at + 1] = to_bits(saturating_add(sum, amount));
    }
}
