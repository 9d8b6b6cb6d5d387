// Single dates of a table of days.
ghost use Rattle.std.specs.Prelude.{◌≡◌};
ghost use Rattle.calendar.specs.Tables.{one, marked};

// 1 where a date works, 0 where not.
pub fn bit(works: bool) -> u8
    ensures { result ≡ one works }
{
    u8::from(works)
}

// Sets a date, if the table has it.
pub fn mark(days: &mut [u8], base: u64, date: u64, works: bool)
    ensures { days.new ≡ marked base date works days.old }
{
    if date < base {
        return;
    }
    let i = (date - base) as usize;
    if i < days.len() {
        days[i] = bit(works);
    }
}
