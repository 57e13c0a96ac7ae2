// Sheets worked through by the definitions, at the joined house kinds.

#![tactic(auto)]

ghost use Rattle.std.specs.Prelude.{◌≡◌, List};
ghost use Rattle.examples.specs.Sheets.{vertical_sheet};
ghost use Rattle.examples.specs.Worked.{Worked};
ghost use Rattle.house.specs.House.{Value, Cell, house};
ghost use Rattle.results.specs.Figures.{figures};
ghost use Rattle.results.specs.Periods.{periods};
ghost use Rattle.tables.specs.Calls.{Call};
ghost use Rattle.tables.specs.Faultless.{Faultless};
ghost use Rattle.tables.specs.Promises.{EveryRun};

use house::House;
use results::figure::Figure;
use results::period::Period;
use tables::{every_run_is_right, issue_answers_rightly};

// What the definitions give for each worked sheet.
pub fn worked_sheets_stand()
    ensures { Worked }
{}

// The law over runs, at the house kinds and figures.
pub fn house_runs()
    ensures { (calls : List (Call Value Cell Figure)) → EveryRun house figures calls }
{
    every_run_is_right::<House, Figure>()
}

// The law over runs, at the house kinds and periods.
pub fn house_runs_with_periods()
    ensures { (calls : List (Call Value Cell Period)) → EveryRun house periods calls }
{
    every_run_is_right::<House, Period>()
}

// The vertical sheet answers every encounter in range, the same with the flights exchanged.
pub fn vertical_is_faultless()
    ensures { Faultless house figures vertical_sheet }
{
    issue_answers_rightly::<House, Figure>()
}
