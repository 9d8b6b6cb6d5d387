// The lists whose elements do not depend on those before them.
ghost use Rattle.std.specs.Prelude.{◌≡◌, ◌<◌};
ghost use Rattle.format.specs.Codec.{alike};
ghost use Rattle.format.specs.Format as layout;
ghost use Rattle.sections.specs.Sections.{IsAlike};
ghost use Rattle.sections.specs.Elements.{codec_of};

use crate::Section;
use crate::calendars::read_calendar;
use crate::resources::read_resource;
use fields::kinds::{date, field};
use format::{Pos, Reason};
use records::activities::{read_activity, read_assignment, read_baseline_line, read_expense};
use records::budgets::read_budget_change;
use records::periods::read_period_record;

// What a list is of, with the counts that its indices are below.
#[derive(Clone, Copy)]
pub enum Element {
    Calendar,
    Activity { calendars: u64, activities: u64 },
    Resource,
    Assignment { activities: u64, resources: u64 },
    Expense { activities: u64 },
    BaselineLine { activities: u64 },
    BudgetChange { activities: u64 },
    Period,
    PeriodRecord { periods: u64, activities: u64 },
}

// Where reading goes on after one element.
fn skip(book: &[u8], at: Pos, element: Element) -> Pos
    ensures { result ≡ ((codec_of element).read book.now at).1 }
{
    match element {
        Element::Calendar => read_calendar(book, at).next,
        Element::Activity {
            calendars,
            activities,
        } => read_activity(book, at, calendars, activities).next,
        Element::Resource => read_resource(book, at).next,
        Element::Assignment {
            activities,
            resources,
        } => read_assignment(book, at, activities, resources).next,
        Element::Expense { activities } => read_expense(book, at, activities).next,
        Element::BaselineLine { activities } => read_baseline_line(book, at, activities).next,
        Element::BudgetChange { activities } => read_budget_change(book, at, activities).next,
        Element::Period => date(book, at).next,
        Element::PeriodRecord {
            periods,
            activities,
        } => read_period_record(book, at, periods, activities).next,
    }
}

// Where reading goes on after `count` elements.
pub fn skip_all(book: &[u8], at: Pos, element: Element, count: u64) -> Pos
    ensures { result ≡ ((alike count (codec_of element)).read book.now at).1 }
{
    let mut next = at;
    for _ in 0..count {
        next = skip(book, next, element);
    }
    next
}

// A list of `low` to `most` elements.
pub fn read_elements(book: &[u8], at: Pos, element: Element, low: u64, most: u64) -> Section
    requires { most < 10000 }
    ensures { IsAlike low most (codec_of element) book.now at result }
{
    let lead = field(book, at, low, most + 1, Reason::CountOutOfRange);
    Section {
        count: lead.value,
        first: lead.next,
        next: skip_all(book, lead.next, element, lead.value),
    }
}

// The activities: their parents are among them, however many they are.
pub fn read_activities(book: &[u8], at: Pos, calendars: u64) -> Section
    ensures { IsAlike 0 500 (layout.activity calendars result.count) book.now at result }
{
    let lead = field(book, at, 0, 501, Reason::CountOutOfRange);
    let element = Element::Activity {
        calendars,
        activities: lead.value,
    };
    Section {
        count: lead.value,
        first: lead.next,
        next: skip_all(book, lead.next, element, lead.value),
    }
}
