// Planned value at a date: what of each activity's budget falls on the days up to it, by a table of the days of all calendars.
#![tactic(auto)]

pub mod own;
pub mod walk;

ghost use Rattle.std.specs.Prelude.{◌≡◌};
ghost use Rattle.format.specs.Verdict.{content};
ghost use Rattle.answers.specs.Opened.{IsOpened};
ghost use Rattle.baseline.specs.Listed.{listed_of, budgets_of};
ghost use Rattle.planned.specs.Reached.{IsReach};

use answers::open::Opened;
use baseline::listed::LISTED_WIDTH;
use sections::Section;
use spans::Stretch;
use spans::stretches::stretch_of;

// The calendars of a book, and the stretch of dates that its listed spans take.
#[derive(Clone, Copy)]
pub struct Reach {
    pub calendars: Section,
    pub known: Stretch,
}

// Those of an opened book.
pub fn reach_of(book: &[u8], opened: Opened, listed: &[u64], budgets: &[i64]) -> Reach
    requires opened { IsOpened book.now opened }
    requires listed_value { (listed.now ≡ listed_of (content book.now)) × (budgets.now ≡ budgets_of (content book.now)) }
    ensures { IsReach book.now result listed.now budgets.now }
{
    let plan = opened.plan;
    let calendars = plan.calendars;
    let known = stretch_of(listed, budgets.len(), LISTED_WIDTH, 0);
    Reach { calendars, known }
}
