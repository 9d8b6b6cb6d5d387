// The baseline's minutes less those of the schedule, and its costs less the costs at completion.
ghost use Rattle.std.specs.Prelude.{◌+◌, ◌*◌, ◌/◌, ◌≤◌, ◌≡◌, length, get_or};
ghost use Rattle.format.specs.InRange.{IsMinutes};
ghost use Rattle.money.specs.Words.{bits};
ghost use Rattle.activities.specs.Schedule.{entry_at};
ghost use Rattle.variances.specs.Changed.{RowChanged};
ghost use Rattle.variances.specs.Days.{Tables, all_rows};
ghost use Rattle.variances.specs.Completion.{duration_by, cost_by, settled, Timed};

use activities::schedule::{SCHEDULE_WIDTH, WORKING};
use baseline::lines::{COST, LINE_WIDTH, MINUTES};
use money::sums::{saturating_add, saturating_sub};
use money::words::{from_bits, to_bits};
use tree::table::COST_WIDTH;

// Minutes less others, in two's complement.
fn duration(minutes: u64, working: u64) -> u64
    requires { IsMinutes minutes × IsMinutes working }
    ensures { result ≡ bits (duration_by minutes working) }
{
    to_bits((minutes as i64) - (working as i64))
}

// A frozen cost less what is spent and left, all in two's complement.
fn cost(frozen: u64, spent: i64, left: i64) -> u64
    ensures { result ≡ bits (cost_by frozen spent left) }
{
    let completion = saturating_add(spent, left);
    to_bits(saturating_sub(from_bits(frozen), completion))
}

// Of one activity, where it has a line.
fn settle_row(i: usize, schedule: &[u64], costs: &[i64], out: &mut [u64])
    requires i_in_bounds { (i * 13 + 13 ≤ length schedule.now) × (i * 3 + 3 ≤ length costs.now) × (i * 5 + 5 ≤ length out.old) }
    requires minutes { IsMinutes (get_or out.old (i * 5 + 3) 0) × IsMinutes (entry_at schedule.now i 9) }
    ensures { RowChanged 5 i (settled schedule.now costs.now i) out.old out.new }
{
    let at = i * LINE_WIDTH;
    if out[at] == 0 {
        return;
    }
    let spent = costs[i * COST_WIDTH + 1];
    let left = costs[i * COST_WIDTH + 2];
    let minutes = duration(out[at + MINUTES], schedule[i * SCHEDULE_WIDTH + WORKING]);
    let amount = cost(out[at + COST], spent, left);
    out[at + MINUTES] = minutes;
    out[at + COST] = amount;
}

// Of all activities, from the schedule and their costs with those below them.
pub fn settle_rows(schedule: &[u64], costs: &[i64], out: &mut [u64])
    requires tables { Tables schedule.now out.old × (length costs.now ≡ length out.old / 5 * 3) }
    requires timed { Timed schedule.now out.old }
    ensures { out.new ≡ all_rows (settled schedule.now costs.now) out.old }
{
    let n = out.len() / 5;
    for i in 0..n {
        settle_row(i, schedule, costs, out);
    }
}
