// What the scheduled work is budgeted to cost: the activities' costs with those below them, and the leaves' sum of the planned ones.
ghost use Rattle.std.specs.Prelude.{◌≡◌, ◌*◌, length};
ghost use Rattle.format.specs.Verdict.{content};
ghost use Rattle.model.specs.Costs.{project_cost};
ghost use Rattle.activities.specs.Schedule.{schedule_of};
ghost use Rattle.answers.specs.Opened.{IsOpened};
ghost use Rattle.tree.specs.Tables.{rolled_costs};

use activities::schedule::parent_marks;
use answers::open::Opened;
use costs::rolled::rolled_costs;
use tree::table::{COST_WIDTH, leaf_row_sum};

// Three costs of each activity; the project's planned one is returned.
pub fn scheduled(book: &[u8], opened: Opened, schedule: &[u64], out: &mut [i64]) -> i64
    requires opened { IsOpened book.now opened }
    requires schedule_value { schedule.now ≡ schedule_of (content book.now) }
    requires out_len { length out.old ≡ opened.plan.activities.count * 3 }
    ensures each { out.new ≡ rolled_costs (content book.now) }
    ensures whole { result ≡ (project_cost (content book.now)).budget }
{
    let date = opened.date;
    rolled_costs(book, date, opened.plan, schedule, out);
    let leaves = parent_marks(schedule);
    leaf_row_sum(&leaves, COST_WIDTH, 0, out)
}
