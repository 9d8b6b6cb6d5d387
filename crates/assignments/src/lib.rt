// The assignments: what each costs over its activity's days, charged to the row of its activity.
#![tactic(auto)]

use sections::Section;
use spans::Stretch;

pub mod calendars;
pub mod entries;
pub mod stretched;
pub mod tables;

// The figures of an activity's row: its own costs three ways, or its own actual costs and units by kind.
#[derive(Clone, Copy)]
pub enum Charge {
    Own,
    Kinds,
}

// An assignment, by its number, with its activity and its resource, and the first date of the table that counts its activity's days.
#[derive(Clone, Copy)]
pub struct Entry {
    pub activity: usize,
    pub number: usize,
    pub resource: usize,
    pub base: u64,
}

// The assignments of one calendar: what is charged, the calendar's number, the first date of the table that counts it.
#[derive(Clone, Copy)]
pub struct Turn {
    pub what: Charge,
    pub calendar: u64,
    pub base: u64,
}

// All assignments: what is charged, the book's calendars, the stretch of dates that the activities' spans take.
#[derive(Clone, Copy)]
pub struct Job {
    pub what: Charge,
    pub calendars: Section,
    pub known: Stretch,
}
