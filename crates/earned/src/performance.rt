// How much of an activity is done, from 0 to 1, by the technique of the book.
ghost use Rattle.std.specs.Prelude.{◌+◌, ◌*◌, ◌<◌, ◌≡◌, pos, length, unwrap_or};
ghost use Rattle.format.specs.InRange.{IsMinutes};
ghost use Rattle.model.specs.Earned as model;
ghost use Rattle.activities.specs.Schedule.{entry_at};
ghost use Rattle.earned.specs.Done.{done_in};

use activities::schedule::{REMAINING, WORKING, entry, percent_at, status_at};
use floats::{clamp01, ratio, share};
use format::{EvTechnique, Status};

fn amount_or_zero(amount: Option<i64>) -> i64
    ensures { result ≡ unwrap_or amount (pos 0) }
{
    match amount {
        None => 0,
        Some(z) => z,
    }
}

// The minutes worked, of all; 0 where there are none.
fn by_duration(working: u64, remaining: u64) -> f64
    requires { IsMinutes working × IsMinutes remaining }
    ensures { result ≡ model.by_duration working remaining }
{
    let all = working as i64;
    let left = remaining as i64;
    ratio(all - left, all).unwrap_or(0.0)
}

// Before the work is marked started: a percent that was judged, and nothing else.
fn unstarted(technique: EvTechnique, percent: Option<i64>) -> f64
    ensures { result ≡ model.unstarted technique percent }
{
    match technique {
        EvTechnique::Physical => share(amount_or_zero(percent)),
        EvTechnique::Duration => 0.0,
        EvTechnique::Units => 0.0,
        EvTechnique::ZeroHundred => 0.0,
        EvTechnique::FiftyFifty => 0.0,
        EvTechnique::Custom(_) => 0.0,
    }
}

// While the work is under way, with the activity's units done and in all.
fn under_way(
    technique: EvTechnique,
    percent: Option<i64>,
    working: u64,
    remaining: u64,
    done: i64,
    all: i64,
) -> f64
    requires { IsMinutes working × IsMinutes remaining }
    ensures { result ≡ model.under_way technique percent working remaining done all }
{
    match technique {
        EvTechnique::Physical => share(amount_or_zero(percent)),
        EvTechnique::Duration => clamp01(by_duration(working, remaining)),
        EvTechnique::Units => {
            clamp01(ratio(done, all).unwrap_or(by_duration(working, remaining)))
        }
        EvTechnique::ZeroHundred => 0.0,
        EvTechnique::FiftyFifty => 0.5,
        EvTechnique::Custom(earned) => share(earned),
    }
}

// Of activity i of the schedule, by its status.
pub fn share_done(technique: EvTechnique, schedule: &[u64], i: usize, done: i64, all: i64) -> f64
    requires i_in_bounds { i * 13 + 12 < length schedule.now }
    requires minutes { IsMinutes (entry_at schedule.now i 9) × IsMinutes (entry_at schedule.now i 10) }
    ensures { result ≡ done_in technique schedule.now i done all }
{
    let status = status_at(schedule, i);
    let percent = percent_at(schedule, i);
    let working = entry(schedule, i, WORKING);
    let remaining = entry(schedule, i, REMAINING);
    match status {
        Status::NotStarted => unstarted(technique, percent),
        Status::InProgress => under_way(technique, percent, working, remaining, done, all),
        Status::Completed => 1.0,
    }
}
