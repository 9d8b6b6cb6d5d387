// Prints the outline of the book on standard input: crates/report makes the text, and this writes it.
#![tactic(auto)]

use report::outline::{outline_buffer, put_outline};

const IN: i32 = 0;

const OUT: i32 = 1;

fn main() {
    // One byte more than the longest book: a longer one is refused for these.
    let mut space = [0u8; 60001];
    let n = io::read_full(IN, &mut space);
    let mut text = outline_buffer();
    let end = put_outline(&space[..n], &mut text);
    io::write_all(OUT, &text[..end]);
}
