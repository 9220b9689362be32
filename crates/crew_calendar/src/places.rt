// The positions of the employees.
ghost use Rattle.std.specs.Prelude.{◌≡◌, ◌+◌, ◌*◌, ◌<◌, ◌≤◌};
ghost use Rattle.rwsp_terms.specs.Instance.{cells};
ghost use Rattle.rwsp_terms.specs.Roster.{IsRoster};
ghost use Rattle.crew_calendar.specs.Crew.{position_on, symbol_on, IsEmployee};

use crate::MOST_DAYS_APART;
use rwsp_model::Problem;
use rwsp_terms::Symbol;

/// The position of an employee, from 1 on, on a day, from 0 on: employee 1 begins with week 1, employee 2 with week 2,
/// and so on, and all go round the cycle. Takes no memory.
pub fn place(problem: &Problem, employee: u32, t: u32) -> u32
    requires employee { IsEmployee problem.now employee }
    requires day { t ≤ MOST_DAYS_APART }
    ensures value { result ≡ position_on problem.now employee t }
    ensures within { result < cells problem.now }
{
    problem.prove_limits();
    ((employee - 1) * problem.days() + t) % problem.cells()
}

/// The symbol of an employee on a day.
pub fn symbol_on(problem: &Problem, cells: &[Symbol], employee: u32, t: u32) -> Symbol
    requires roster { IsRoster problem.now cells.now }
    requires employee { IsEmployee problem.now employee }
    requires day { t ≤ MOST_DAYS_APART }
    ensures { result ≡ symbol_on problem.now cells.now employee t }
{
    cells[place(problem, employee, t) as usize]
}
