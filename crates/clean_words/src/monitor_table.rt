// The table of a monitor: for each day of its period a state for each of its own.
ghost use Rattle.std.specs.Prelude.{◌≡◌, ℕ, ◌+◌, ◌*◌, ◌%◌, ◌<◌, ◌≤◌, length, slice_index, slice_index_or, Some, None, nat_lt, if◌then◌else◌, IfOk};
ghost use Rattle.rwsp_terms.specs.Instance.{shift_count};
ghost use Rattle.rwsp_terms.specs.declared.limits.TheConstants.{MOST_DAYS, GREATEST_BOUND, MOST_SYMBOLS};
ghost use Rattle.clean_words.specs.Monitors.{IsSound, Fits, size_of, first_of, told_of, state_on, entry, all_states, IsLaidOut, IsTableOf};
ghost use Rattle.clean_words.specs.Moves.{move_at};

use crate::monitor::Monitor;
use crate::table::{Row, Table};
use rwsp_model::Problem;
use rwsp_terms::Symbol;
use rwsp_terms::limits::MOST_SYMBOLS;
use std::alloc::{AllocError, Global};

// The number of states of the table.
fn all_states(monitor: Monitor) -> u32
    requires { IsSound monitor }
    ensures value { result ≡ all_states monitor }
    ensures few { result ≤ MOST_DAYS * (GREATEST_BOUND + 1) }
{
    monitor.period() * monitor.states()
}

// The number of a state on a day.
fn state_on(monitor: Monitor, day: u32, state: u32) -> u32
    requires sound { IsSound monitor }
    requires state { state < size_of monitor }
    ensures value { result ≡ state_on monitor day state }
    ensures inside { result < all_states monitor }
{
    day % monitor.period() * monitor.states() + state
}

// For each day of the week the state where words begin.
fn starts_of(alloc: Global, problem: &Problem, monitor: Monitor) -> Result<Vec<usize>, AllocError>
    requires { IsSound monitor }
    ensures long { IfOk result (λ starts. length starts.items ≡ problem.now.days) }
    ensures each { IfOk result (λ starts. (d : ℕ) → d < problem.now.days
        → slice_index starts.items d ≡ state_on monitor d (first_of monitor)) }
{
    let mut starts = Vec::new(alloc);
    for day in 0..problem.days() {
        starts.push(state_on(monitor, day, monitor.first()) as usize)?;
    }
    Ok(starts)
}

// Where a state leads by a symbol.
fn entry(monitor: Monitor, code: u32, x: Symbol) -> Option<usize>
    requires sound { IsSound monitor }
    requires code { code < all_states monitor }
    requires symbol { x.number < MOST_SYMBOLS }
    ensures { result ≡ entry monitor code x.number }
{
    let day = code / monitor.states();
    let to = monitor.next(day, code % monitor.states(), x)?;
    Some(state_on(monitor, day + 1, to) as usize)
}

// The moves of a state.
fn row_of(problem: &Problem, monitor: Monitor, code: u32) -> Row
    requires sound { IsSound monitor }
    requires code { code < all_states monitor }
    ensures { (x : ℕ) → slice_index_or result x None
        ≡ (if nat_lt x (shift_count problem.now + 1) then entry monitor code x else None) }
{
    let mut row = [None; MOST_SYMBOLS as usize];
    for number in 0..problem.shifts() + 1 {
        row[number as usize] = entry(monitor, code, Symbol { number });
    }
    row
}

// The moves of all states.
fn moves_of(alloc: Global, problem: &Problem, monitor: Monitor) -> Result<Vec<Row>, AllocError>
    requires { IsSound monitor }
    ensures long { IfOk result (λ moves. length moves.items ≡ all_states monitor) }
    ensures each { IfOk result (λ moves. (code x : ℕ) → code < all_states monitor
        → move_at moves.items code x ≡ (if nat_lt x (shift_count problem.now + 1) then entry monitor code x else None)) }
{
    let mut moves = Vec::new(alloc);
    for code in 0..all_states(monitor) {
        moves.push(row_of(problem, monitor, code))?;
    }
    Ok(moves)
}

// What each state tells.
fn told_by(alloc: Global, monitor: Monitor) -> Result<Vec<usize>, AllocError>
    requires { IsSound monitor }
    ensures long { IfOk result (λ told. length told.items ≡ all_states monitor) }
    ensures each { IfOk result (λ told. (code : ℕ) → code < all_states monitor
        → slice_index told.items code ≡ told_of monitor (code % size_of monitor)) }
{
    let mut told = Vec::new(alloc);
    for code in 0..all_states(monitor) {
        told.push(monitor.told(code % monitor.states()) as usize)?;
    }
    Ok(told)
}

/// The table of the monitor. Costs a step for each of its states and each symbol.
pub fn table_of(alloc: Global, problem: &Problem, monitor: Monitor) -> Result<Table, AllocError>
    requires { Fits problem.now monitor }
    ensures { IfOk result (IsTableOf problem.now monitor) }
{
    problem.prove_limits();
    Ok(Table {
        starts: starts_of(alloc, problem, monitor)?,
        moves: moves_of(alloc, problem, monitor)?,
        told: told_by(alloc, monitor)?,
    })
}
