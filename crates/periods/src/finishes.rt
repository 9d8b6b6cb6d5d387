// When the periods close.
ghost use Rattle.std.specs.Prelude.{◌≡◌, length};
ghost use Rattle.format.specs.Field.{D};
ghost use Rattle.format.specs.Codec.{field};
ghost use Rattle.sections.specs.Sections.{alike_in};

use fields::kinds::date;
use sections::Section;

// Each period's close, in the book's order.
pub fn fill_finishes(book: &[u8], list: Section, out: &mut [u64])
    requires { length out.old ≡ list.count }
    ensures { out.new ≡ alike_in (field D) book.now list }
{
    let count = list.count;
    let mut next = list.first;
    for i in 0..count {
        let finish = date(book, next);
        out[i as usize] = finish.value;
        next = finish.next;
    }
}
