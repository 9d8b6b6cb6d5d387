// The rows of the twelve-month sums, once all of them are known.
ghost use mathlib.Core.List.{List, [], ◌∷◌, map, flat_map};
ghost use Rattle.std.specs.Prelude.{◌≡◌, ◌+◌, ◌*◌, ◌≤◌, ◌<◌, length};
ghost use Rattle.std.proofs.lemmas.List.Edits.{sets};
ghost use Rattle.lists.specs.Lists.{span};
ghost use Rattle.money.specs.Words.{bits};
ghost use Rattle.months.specs.Table.{first_days};
ghost use Rattle.model.specs.TwelveMonths.{Monthly, twelve_sum, months, twelve_months_of, are_words};
ghost use Rattle.answers.specs.Rows.{twelve_row, twelve_width};
ghost use Rattle.format.specs.declared.Reason.TheVariants.{SumOutOfRange};
ghost use Rattle.answers.specs.Calls.{Puts, PutsIf};
ghost use Rattle.twelve.specs.Parts.{HasReach, monthly_in};
ghost use Rattle.twelve.specs.Listed.{AreListed, listed_from};
ghost use Rattle.twelve.specs.Largest.{IsLargestAt, summed_row};

use crate::Reach;
use crate::listed::{Listed, listed_months};
use crate::window::twelve_sums;
use answers::{Reply, SUM_OUT_OF_RANGE, TOO_SHORT, TWELVE_WIDTH};
use money::words::to_bits;
use months::{first_day, first_days};

// Where the largest of the sums stands, the first of equals.
fn largest_at(sums: &[i64]) -> usize
    requires { 0 < length sums.now }
    ensures { IsLargestAt sums.now (length sums.now) result }
{
    let mut largest: usize = 0;
    for k in 1..sums.len() {
        if sums[largest] < sums[k] {
            largest = k;
        }
    }
    largest
}

// The numbers of a row, from a place on.
fn put_month(first: u64, sum: i64, mark: u64, at: usize, out: &mut [u64])
    requires { at + twelve_width ≤ length out.old }
    ensures { out.new ≡ sets out.old at (first ∷ bits sum ∷ mark ∷ []) }
{
    out[at] = first;
    out[at + 1] = to_bits(sum);
    out[at + 2] = mark;
}

// The rows of the months from `first` on, with the mark on one of them.
fn put_months(days: &[u16; 1200], first: usize, largest: usize, sums: &[i64], out: &mut [u64])
    requires days_value { days.now ≡ first_days }
    requires sums_bound { (first + length sums.now ≤ 1200) × (length out.old ≡ length sums.now * twelve_width) }
    ensures { out.new ≡ flat_map (summed_row first largest sums.now) (span 0 (length sums.now)) }
{
    for (k, &sum) in sums.iter().enumerate() {
        let day = first_day(days, first + k);
        put_month(day, sum, (k == largest) as u64, k * TWELVE_WIDTH, out);
    }
}

// The rows, where they fit.
fn put_fitting(days: &[u16; 1200], first: usize, sums: &[i64], out: &mut [u64]) -> Reply
    requires days_value { days.now ≡ first_days }
    requires sums_bound { (first + length sums.now ≤ 1200) × (0 < length sums.now) }
    ensures { (xs : List Monthly) → AreListed xs (listed_from first (length sums.now)) → sums.now ≡ map (twelve_sum xs) (months xs) → Puts (map twelve_row (twelve_months_of xs)) out.old result out.new }
{
    let n = sums.len() * TWELVE_WIDTH;
    if out.len() < n {
        return Err(TOO_SHORT);
    }
    let largest = largest_at(sums);
    put_months(days, first, largest, sums, &mut out[..n]);
    Ok(sums.len() as u64)
}

// The same, where all sums are numbers of 64 bits, with a slice for the sums.
fn write_sums(
    days: &[u16; 1200],
    reach: Reach,
    table: &[u64],
    first: usize,
    sums: &mut [i64],
    out: &mut [u64],
) -> Reply
    requires days_value { days.now ≡ first_days }
    requires has_reach { HasReach table.now reach × AreListed (monthly_in table.now reach) (listed_from first (length sums.old)) }
    requires sums_nonzero { 0 < length sums.old }
    ensures { PutsIf (are_words (monthly_in table.now reach)) SumOutOfRange (map twelve_row (twelve_months_of (monthly_in table.now reach))) out.old result out.new }
{
    if !twelve_sums(days, reach, table, first, sums) {
        return Err(SUM_OUT_OF_RANGE);
    }
    put_fitting(days, first, sums, out)
}

// The same, with an array of N for the sums.
#[inline(never)]
fn write_in<const N: usize>(
    days: &[u16; 1200],
    reach: Reach,
    table: &[u64],
    listed: Listed,
    out: &mut [u64],
) -> Reply
    requires days_value { days.now ≡ first_days }
    requires has_reach { HasReach table.now reach × AreListed (monthly_in table.now reach) listed }
    requires count_bound { (0 < listed.count) × (listed.count ≤ N) × (N ≤ 1200) }
    ensures { PutsIf (are_words (monthly_in table.now reach)) SumOutOfRange (map twelve_row (twelve_months_of (monthly_in table.now reach))) out.old result out.new }
{
    let mut sums = [0i64; N];
    write_sums(
        days,
        reach,
        table,
        listed.first,
        &mut sums[..listed.count],
        out,
    )
}

// The twelve-month sums of a table's points between two dates: the rows where they fit. A small array is enough for five years.
pub fn write_twelve_months(reach: Reach, table: &[u64], out: &mut [u64]) -> Reply
    requires { HasReach table.now reach }
    ensures { PutsIf (are_words (monthly_in table.now reach)) SumOutOfRange (map twelve_row (twelve_months_of (monthly_in table.now reach))) out.old result out.new }
{
    let days = first_days();
    let listed = listed_months(&days, reach, table);
    if listed.count == 0 {
        return Ok(0);
    }
    if listed.count <= 60 {
        return write_in::<60>(&days, reach, table, listed, out);
    }
    write_in::<1200>(&days, reach, table, listed, out)
}
