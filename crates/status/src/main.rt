// Prints the status of the book on standard input: crates/report makes the text, page by page, and this writes it.
#![tactic(auto)]

use report::{PAGES, page_buffer, put_page};

const IN: i32 = 0;

const OUT: i32 = 1;

fn main() {
    // One byte more than the longest book: a longer one is refused for these.
    let mut space = [0u8; 60001];
    let n = io::read_full(IN, &mut space);
    let mut text = page_buffer();
    for page in 0..PAGES {
        let end = put_page(&space[..n], page, &mut text);
        // Where a write fails the text ends: nothing is written behind a gap.
        if !io::write_all(OUT, &text[..end]) {
            return;
        }
    }
}
