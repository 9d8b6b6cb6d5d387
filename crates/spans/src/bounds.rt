// The first and the last date of an activity's days, actual and remaining.
ghost use Rattle.std.specs.Prelude.{◌≡◌};
ghost use Rattle.records.specs.Decoded.{activity_of};
ghost use Rattle.model.specs.Days.{is_started, actual_to};
ghost use Rattle.spans.specs.Columns.{actual_from, remaining_since};

use crate::number_or;
use format::Status;
use records::activities::Activity;

fn is_started(status: Status) -> bool
    ensures { result ≡ is_started status }
{
    match status {
        Status::NotStarted => false,
        Status::InProgress => true,
        Status::Completed => true,
    }
}

// The actual start, else the actual finish, of what is started; else 0.
pub fn actual_from(activity: Activity) -> u64
    ensures { result ≡ actual_from (activity_of activity) }
{
    if is_started(activity.status) {
        return number_or(activity.started, number_or(activity.finished, 0));
    }
    0
}

// The day before the data date, else another.
fn day_before(date: Option<u64>, other: u64) -> u64
    ensures { result ≡ actual_to None date other }
{
    match date {
        None => other,
        Some(d) => d.saturating_sub(1),
    }
}

// The actual finish, else the day before the data date, else the first date.
pub fn actual_to(finished: Option<u64>, date: Option<u64>, from: u64) -> u64
    ensures { result ≡ actual_to finished date from }
{
    number_or(finished, day_before(date, from))
}

// The first date of what remains: by the status.
pub fn remaining_since(status: Status, date: Option<u64>, start: u64, finish: u64) -> u64
    ensures { result ≡ remaining_since status date start finish }
{
    match status {
        Status::NotStarted => start,
        Status::InProgress => number_or(date, start).max(start).min(finish),
        Status::Completed => 0,
    }
}
