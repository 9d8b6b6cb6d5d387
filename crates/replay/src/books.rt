// The verdict on a book: `verdict BOOK = NUMBER PLACE`.
use vectors::answer::{Answer, two};
use vectors::{Outcome, hex};

// The number and the place of the verdict on a book.
fn verdict(book: &[u8]) -> Answer {
    match book::layout::judge(book) {
        Ok(()) => two(0, 0),
        Err(refusal) => two(u64::from(refusal.reason), refusal.place as u64),
    }
}

// Replays a line whose book begins at `from`.
pub fn replay(line: &[u8], from: usize) -> Outcome {
    let mut bytes = [0u8; 32000];
    let read = hex::read_bytes(line, from, &mut bytes);
    let n = read.count;
    let answer = verdict(&bytes[..n]);
    vectors::compared(answer, vectors::agrees(line, read.next, answer))
}
