// The forecast and the indices of an activity and of the project at a date, as rows.
ghost use Rattle.std.specs.Prelude.{◌<◌};
ghost use Rattle.format.specs.Verdict.{content};
ghost use Rattle.answers.specs.Rows.{indices_rows, project_indices_rows};
ghost use Rattle.answers.specs.Calls.{Puts};
ghost use Rattle.answers.specs.Opened.{IsOpened};

use crate::project::project_earned;
use crate::rolled::activity_earned;
use answers::Reply;
use answers::open::Opened;
use forecast::give_forecast;

// The row of an activity at a date.
pub fn indices_of(book: &[u8], opened: Opened, activity: u64, date: u64, out: &mut [u64]) -> Reply
    requires opened { IsOpened book.now opened }
    requires activity_lt_count { activity < opened.plan.activities.count }
    ensures { Puts (indices_rows activity date (content book.now)) out.old result out.new }
{
    let technique = opened.forecast;
    let figures = activity_earned(book, opened, date, activity);
    give_forecast(technique, figures, out)
}

// The project's row at a date.
pub fn project_indices_of(book: &[u8], opened: Opened, date: u64, out: &mut [u64]) -> Reply
    requires { IsOpened book.now opened }
    ensures { Puts (project_indices_rows date (content book.now)) out.old result out.new }
{
    let technique = opened.forecast;
    let figures = project_earned(book, opened, date);
    give_forecast(technique, figures, out)
}
