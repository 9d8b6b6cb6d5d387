// The book's assignments: what each is booked to, its resource, and its units three ways.
ghost use Rattle.std.specs.Prelude.{◌≡◌, ◌+◌, ◌*◌, ◌<◌, length, unwrap_or};
ghost use mathlib.Core.List.{flat_map};
ghost use Rattle.std.proofs.lemmas.List.Edits.{sets};
ghost use Rattle.format.specs.Format as layout;
ghost use Rattle.format.specs.Verdict.{content};
ghost use Rattle.records.specs.Decoded.{assignment_of};
ghost use Rattle.sections.specs.Sections.{alike_in};
ghost use Rattle.book.specs.Plan.{IsPlanOf};
ghost use Rattle.charges.specs.Assigned.{account_by, link_row, units_row, AreAssigned};

use book::layout::Plan;
use records::activities::{Assignment, read_assignment};
use rows::put_row;
use sections::Section;
use spans::number_or;

// What an assignment is booked to: 500, which is no activity, without a resource.
fn account_of(resource: Option<u64>, activity: u64) -> u64
    ensures { result ≡ account_by resource activity }
{
    match resource {
        None => 500,
        Some(_) => activity,
    }
}

// The assignments, of a book with so many activities and resources.
fn fill_assignments(
    book: &[u8],
    list: Section,
    activities: u64,
    resources: u64,
    links: &mut [u64],
    units: &mut [i64],
)
    requires { (length links.old ≡ list.count * 2) × (length units.old ≡ list.count * 3) }
    ensures booked { links.new ≡ flat_map link_row (alike_in (layout.assignment activities resources) book.now list) }
    ensures counted { units.new ≡ flat_map units_row (alike_in (layout.assignment activities resources) book.now list) }
{
    let mut next = list.first;
    for i in 0..list.count {
        let x = read_assignment(book, next, activities, resources);
        let link = [account_of(x.resource, x.activity), number_or(x.resource, 0)];
        put_row(&link, i as usize * 2, links);
        put_row(&[x.planned, x.actual, x.remaining], i as usize * 3, units);
        next = x.next;
    }
}

// The assignments of the plan of an accepted book.
pub fn fill_assigned(
    book: &[u8],
    data_date: Option<u64>,
    plan: Plan,
    links: &mut [u64],
    units: &mut [i64],
)
    requires plan_of { IsPlanOf book.now data_date plan }
    requires links_len { (length links.old ≡ plan.assignments.count * 2) × (length units.old ≡ plan.assignments.count * 3) }
    ensures { AreAssigned (content book.now) links.new units.new }
{
    fill_assignments(
        book,
        plan.assignments,
        plan.activities.count,
        plan.resources.count,
        links,
        units,
    );
}
