// A list of amounts, added up.
ghost use Rattle.std.specs.Prelude.{◌≡◌, pos};
ghost use Rattle.std.specs.Int.{w64};
ghost use Rattle.integer.specs.Folds.{saturated};
ghost use Rattle.format.specs.Format as layout;
ghost use Rattle.sections.specs.Sections.{alike_in};

use fields::kinds::amount;
use money::sums::saturating_add;
use sections::Section;

// Their sum.
pub fn sum_amounts(book: &[u8], list: Section) -> i64
    ensures { result ≡ saturated w64 (pos 0) (alike_in layout.amount book.now list) }
{
    let mut next = list.first;
    let mut sum: i64 = 0;
    for _ in 0..list.count {
        let a = amount(book, next);
        sum = saturating_add(sum, a.value);
        next = a.next;
    }
    sum
}
