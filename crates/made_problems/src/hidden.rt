// The hidden roster of a number: its stints, and the cells that they fill.
ghost use Rattle.std.specs.Prelude.{◌≡◌, ◌++◌, ◌<◌, ◌≤◌, replicate, IfOk, OnOk, All};
ghost use Rattle.made_problems.specs.Stints.{AreStints, IsUsual};
ghost use Rattle.made_problems.specs.Blocks.{cells_of, work_blocks, blocks_of, roster_of};

use crate::draws::Draws;
use crate::stint::{Pattern, Stint, draw_stint};
use rwsp_terms::Symbol;
use std::alloc::{AllocError, Global};

/// The first of the shifts in the order of a stint's work.
pub const DAY: Symbol = Symbol { number: 1 };

/// The second of them.
pub const AFTERNOON: Symbol = Symbol { number: 2 };

/// The third of them.
pub const NIGHT: Symbol = Symbol { number: 3 };

// Days of the shifts that come before a stint's last shift.
const EARLIER: u32 = 2;
// The least days of work in which night shifts come behind both other shifts.
const LONG_WORK: u32 = 6;

/// The stints of the number. The cost grows with the days.
pub fn stints_of(alloc: Global, number: u32, days: u32) -> Result<Vec<Stint>, AllocError>
    requires { 6 ≤ days }
    ensures stints { IfOk result (λ v. AreStints number days v.items) }
    ensures usual { IfOk result (λ v. All IsUsual v.items) }
{
    let mut draws = Draws::of(number);
    let mut stints = Vec::new(alloc);
    let mut left = days;
    while 0 < left {
        let stint = draw_stint(&mut draws, left);
        left -= stint.days();
        stints.push(stint)?;
    }
    Ok(stints)
}

fn put_block(cells: &mut Vec<Symbol>, symbol: Symbol, days: u32) -> Result<(), AllocError>
    ensures { OnOk result (cells.new.items ≡ cells.old.items ++ replicate days symbol) }
{
    for _day in 0..days {
        cells.push(symbol)?;
    }
    Ok(())
}

fn put_nights(cells: &mut Vec<Symbol>, work: u32) -> Result<(), AllocError>
    requires { 4 ≤ work }
    ensures { OnOk result (cells.new.items ≡ cells.old.items ++ cells_of (work_blocks Pattern.Night work)) }
{
    if LONG_WORK <= work {
        put_block(cells, DAY, EARLIER)?;
        put_block(cells, AFTERNOON, EARLIER)?;
        return put_block(cells, NIGHT, work - 2 * EARLIER);
    }
    put_block(cells, AFTERNOON, EARLIER)?;
    put_block(cells, NIGHT, work - EARLIER)
}

fn put_work(cells: &mut Vec<Symbol>, pattern: Pattern, work: u32) -> Result<(), AllocError>
    requires { 4 ≤ work }
    ensures { OnOk result (cells.new.items ≡ cells.old.items ++ cells_of (work_blocks pattern work)) }
{
    match pattern {
        Pattern::Day => put_block(cells, DAY, work),
        Pattern::Afternoon => {
            put_block(cells, DAY, EARLIER)?;
            put_block(cells, AFTERNOON, work - EARLIER)
        }
        Pattern::Night => put_nights(cells, work),
    }
}

fn put_stint(cells: &mut Vec<Symbol>, stint: Stint) -> Result<(), AllocError>
    requires { IsUsual stint }
    ensures { OnOk result (cells.new.items ≡ cells.old.items ++ cells_of (blocks_of stint)) }
{
    put_work(cells, stint.pattern, stint.work)?;
    put_block(cells, Symbol::OFF, stint.off)
}

/// The roster of the stints. The cost grows with its cells.
pub fn roster_of(alloc: Global, stints: &[Stint]) -> Result<Vec<Symbol>, AllocError>
    requires { All IsUsual stints.now }
    ensures { IfOk result (λ v. v.items ≡ roster_of stints.now) }
{
    let mut cells = Vec::new(alloc);
    for stint in stints {
        put_stint(&mut cells, *stint)?;
    }
    Ok(cells)
}
