// The charges of an activity, one after the other: each says how many charges are left from the next one on that is booked to the same activity.
ghost use Rattle.spending.specs.Chained.{Chained};

// Puts that in place of what each charge is booked to; 0 where there is no next one. How many are left from the first charge of each activity on.
pub fn chain(links: &mut [u64]) -> [u64; 500]
    ensures { Chained links.old links.new result }
{
    let n = links.len() / 2;
    let mut heads = [0u64; 500];
    for k in (0..n).rev() {
        let account = links[k * 2];
        if account < 500 {
            links[k * 2] = heads[account as usize];
            heads[account as usize] = (n - k) as u64;
        }
    }
    heads
}
