// The stretch of dates that the spans of the activities take.
ghost use Rattle.std.specs.Prelude.{◌≡◌, ◌+◌, ◌*◌, ◌<◌, length};
ghost use Rattle.format.specs.Book.{Book};
ghost use Rattle.format.specs.InRange.{InRange};
ghost use Rattle.model.specs.declared.Way.{Way};
ghost use Rattle.spans.specs.Stretches.{CoversSpans};
ghost use Rattle.activities.specs.Schedule.{schedule_of, first_in, last_in};
ghost use Rattle.activities.specs.Stretches.{widened_ways};

use crate::schedule::SCHEDULE_WIDTH;
use spans::Stretch;
use spans::stretches::{close, widen};

// The stretch with the spans of an activity of the schedule, three ways.
fn widen_ways(schedule: &[u64], i: usize, known: Stretch) -> Stretch
    requires { i * 13 + 12 < length schedule.now }
    ensures { result ≡ widened_ways schedule.now i known }
{
    let k = i * SCHEDULE_WIDTH;
    let planned = widen(known, schedule[k + 2], schedule[k + 3]);
    let actual = widen(planned, schedule[k + 4], schedule[k + 5]);
    widen(actual, schedule[k + 6], schedule[k + 7])
}

// From the first date of the spans of a schedule, of all three ways, to the last.
pub fn stretch_all(schedule: &[u64]) -> Stretch
    ensures { (book : Book) → InRange book → schedule.now ≡ schedule_of book → (way : Way) → CoversSpans (first_in schedule.now way) (last_in schedule.now way) result }
{
    let n = schedule.len() / SCHEDULE_WIDTH;
    let mut known = Stretch {
        from: 47482,
        to: 10956,
    };
    for i in 0..n {
        known = widen_ways(schedule, i, known);
    }
    close(known)
}
