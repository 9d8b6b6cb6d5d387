// The crate `money`.
use crate::answer::{Answer, one, three, two};
use crate::names::place;
use money::costs::Cost;
use money::words::{from_bits, to_bits};

fn cost(budget: u64, actual: u64, remaining: u64) -> Cost {
    Cost {
        budget: from_bits(budget),
        actual: from_bits(actual),
        remaining: from_bits(remaining),
    }
}

// A share, for a day of a list of days; nothing for a list of none.
fn share(amount: u64, n: u64, k: u64) -> Option<Answer> {
    if n == 0 {
        return None;
    }
    Some(one(to_bits(money::shares::share(from_bits(amount), n, k))))
}

// The first k shares, of a list of n days; nothing for a list of none or of fewer.
fn cumulative(amount: u64, n: u64, k: u64) -> Option<Answer> {
    if n == 0 || n < k {
        return None;
    }
    Some(one(to_bits(money::shares::cumulative(from_bits(amount), n, k))))
}

// The functions of two amounts. In two's complement an argument and a result of the last two are the same number.
fn amount(place: u64, a: i64, b: i64) -> i64 {
    match place {
        0 => money::sums::saturating_add(a, b),
        1 => money::sums::saturating_sub(a, b),
        2 => money::scale::priced(a, b),
        _ => a,
    }
}

// What is spent of a budget.
fn spent(actual: u64, budget: u64) -> Answer {
    match money::scale::spent(from_bits(actual), from_bits(budget)) {
        Some(share) => two(1, to_bits(share)),
        None => two(0, 0),
    }
}

// The functions of a cost, and the sum of two.
fn of_cost(place: u64, c: Cost, d: Cost) -> Answer {
    match place {
        6 => one(to_bits(c.at_completion())),
        7 => one(to_bits(c.variance())),
        _ => {
            let sum = c.add(d);
            three(
                to_bits(sum.budget),
                to_bits(sum.actual),
                to_bits(sum.remaining),
            )
        }
    }
}

// The functions of an amount that is spread over days.
fn spread(place: u64, amount: u64, n: u64, k: u64) -> Option<Answer> {
    match place {
        9 => share(amount, n, k),
        10 => cumulative(amount, n, k),
        _ => None,
    }
}

// What the function of that name gives; nothing where there is none.
pub fn answer(name: &[u8], x: [u64; 16]) -> Option<Answer> {
    let k = place(
        name,
        b"saturating_add saturating_sub priced to_bits from_bits spent at_completion variance cost_add share cumulative ",
    );
    if k < 5 {
        return Some(one(to_bits(amount(k, from_bits(x[0]), from_bits(x[1])))));
    }
    if k == 5 {
        return Some(spent(x[0], x[1]));
    }
    if k < 9 {
        return Some(of_cost(k, cost(x[0], x[1], x[2]), cost(x[3], x[4], x[5])));
    }
    spread(k, x[0], x[1], x[2])
}
