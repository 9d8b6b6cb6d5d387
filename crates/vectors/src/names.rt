// Names by their place in a list.
use crate::text;

// The place of a name in a list of names, each with a blank behind it; how many these are if it is none of them.
pub fn place(name: &[u8], names: &[u8]) -> u64 {
    let mut k: u64 = 0;
    let mut from: usize = 0;
    while from < names.len() {
        let end = text::find(names, from, text::BLANK);
        if names.len() <= end {
            break;
        }
        if check::same(name, &names[from..end]) {
            break;
        }
        k += 1;
        from = end + 1;
    }
    k
}
