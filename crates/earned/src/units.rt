// The units of the activities' assignments: of each those done, and those with the ones that remain.
ghost use Rattle.std.specs.Prelude.{ℕ, ◌+◌, ◌*◌, ◌<◌, ◌≡◌, pos, length, get_or};
ghost use Rattle.format.specs.Format as layout;
ghost use Rattle.format.specs.InRange.{Every, AssignmentInRange};
ghost use Rattle.format.specs.Verdict.{content};
ghost use Rattle.records.specs.Decoded.{assignment_of};
ghost use Rattle.sections.specs.Sections.{alike_in};
ghost use Rattle.book.specs.Plan.{IsPlanOf};
ghost use Rattle.earned.specs.Units as units;

use book::layout::Plan;
use format::EvTechnique;
use money::sums::saturating_add;
use records::activities::{Assignment, read_assignment};
use sections::Section;

fn counts_units(technique: EvTechnique) -> bool
    ensures { result ≡ units.is_units technique }
{
    matches!(technique, EvTechnique::Units)
}

// An assignment's units are added to those of its activity.
fn add_units(x: Assignment, out: &mut [i64])
    requires { x.activity * 2 + 1 < length out.old }
    ensures { out.new ≡ units.added out.old (assignment_of x) }
{
    let at = x.activity as usize * 2;
    let worked = out[at];
    let total = out[at + 1];
    out[at] = saturating_add(worked, x.actual);
    let more = saturating_add(total, x.actual);
    out[at + 1] = saturating_add(more, x.remaining);
}

// Each assignment in the book's order, into a table of zeros.
fn add_assignments(book: &[u8], list: Section, activities: u64, resources: u64, out: &mut [i64])
    requires every { Every (AssignmentInRange activities resources) (alike_in (layout.assignment activities resources) book.now list) }
    requires out_len { (length out.old ≡ activities * 2) × ((k : ℕ) → get_or out.old k (pos 0) ≡ pos 0) }
    ensures { units.Summed (alike_in (layout.assignment activities resources) book.now list) activities out.new }
{
    let count = list.count;
    let mut next = list.first;
    for _ in 0..count {
        let x = read_assignment(book, next, activities, resources);
        add_units(x, out);
        next = x.next;
    }
}

// The units done and in all of each activity, into a table of zeros, where the technique counts them.
pub fn fill_units(
    book: &[u8],
    data_date: Option<u64>,
    plan: Plan,
    technique: EvTechnique,
    out: &mut [i64],
)
    requires plan_of { IsPlanOf book.now data_date plan }
    requires out_len { (length out.old ≡ plan.activities.count * 2) × ((k : ℕ) → get_or out.old k (pos 0) ≡ pos 0) }
    ensures { units.AreUnits (content book.now) technique out.new }
{
    if counts_units(technique) {
        add_assignments(
            book,
            plan.assignments,
            plan.activities.count,
            plan.resources.count,
            out,
        );
    }
}
