// The automaton of a list of short rules.
ghost use Rattle.std.specs.Prelude.{◌≡◌, ◌*◌, ◌<◌, ◌≤◌, ◌==◌, length, map, slice_index_or, false, IfOk};
ghost use Rattle.rwsp_terms.specs.Rules.{NamesShortOnly, NamesShortRules};
ghost use Rattle.rwsp_terms.specs.declared.limits.TheConstants.{MOST_CELLS, MOST_SYMBOLS, MOST_WEEKS};
ghost use Rattle.refutation_terms.specs.Ranges.{AreRules};
ghost use Rattle.clean_words.specs.Tables.{IsReader};

use crate::classes::classes_of;
use crate::image::merged;
use crate::rule_table::rule_table;
use crate::step_list::steps_of;
use crate::table::{Row, Table};
use crate::{Step, Told};
use rwsp_model::{Problem, short_rules};
use rwsp_terms::limits::MOST_SYMBOLS;
use rwsp_terms::{RuleList, Symbol};
use std::alloc::{AllocError, Global};
use std::marker::Model;

/// The automaton of a list of short rules of a problem. It reads words from each day of the week on; words that lead to
/// one state continue together. The number of states doesn't grow with the weeks.
#[derive(Drop)]
pub struct Automaton {
    problem: Problem,
    list: RuleList,
    starts: Vec<usize>,
    moves: Vec<Row>,
    offs: Vec<bool>,
    steps: Vec<Step>,
}

impl Model for Automaton {
    ghost use Rattle.clean_words.specs.Automata.{RuleAutomaton, IsAutomaton};

    ghost Value = { RuleAutomaton };

    ghost view = { λ a. record {
      problem = a.problem;
      rules = a.list;
      starts = a.starts.items;
      moves = a.moves.items;
      offs = a.offs.items;
      steps = a.steps.items;
    } };

    ghost invariant = { λ a. IsAutomaton
        (record {
          problem = a.problem;
          rules = a.list;
          starts = a.starts.items;
          moves = a.moves.items;
          offs = a.offs.items;
          steps = a.steps.items;
        }) };
}

impl Automaton {
    ghost use Rattle.clean_words.specs.Moves.{move_at};
    ghost use Rattle.clean_words.specs.Automata.{IsAutomaton, begin_at};

    /// The automaton of the list, with copies of the problem and the list. States that no continuation tells apart, and
    /// that tell the same, are one.
    pub fn of(
        alloc: Global,
        problem: &Problem,
        rules: &RuleList,
        told: Told,
    ) -> Result<Automaton, AllocError>
        requires { NamesShortOnly problem.now rules.now }
        ensures problem { IfOk result (λ a. a.problem ≡ problem.now) }
        ensures rules { IfOk result (λ a. a.rules ≡ rules.now) }
    {
        let table = small_table(alloc, problem, rules, told)?;
        let steps = steps_of(alloc, &table.moves)?;
        let offs = offs_of(alloc, &table.told)?;
        let list = rules.copy()?;
        let problem = problem.copy()?;
        Ok(Automaton {
            problem,
            list,
            starts: table.starts,
            moves: table.moves,
            offs,
            steps,
        })
    }

    /// The automaton of all short rules of the problem.
    pub fn of_short_rules(
        alloc: Global,
        problem: &Problem,
        told: Told,
    ) -> Result<Automaton, AllocError>
        ensures problem { IfOk result (λ a. a.problem ≡ problem.now) }
        ensures rules { IfOk result (λ a. AreRules problem.now a.rules) }
        ensures short { IfOk result (λ a. NamesShortRules problem.now a.rules) }
    {
        let rules = short_rules(alloc, problem)?;
        Automaton::of(alloc, problem, &rules, told)
    }

    /// A copy, whose states aren't looked for again.
    pub fn copy(&self) -> Result<Automaton, AllocError>
        ensures { IfOk result (λ a. a ≡ self.now) }
    {
        let alloc = *self.moves.allocator();
        Ok(Automaton {
            problem: self.problem.copy()?,
            list: self.list.copy()?,
            starts: Vec::from_slice(alloc, &self.starts)?,
            moves: Vec::from_slice(alloc, &self.moves)?,
            offs: Vec::from_slice(alloc, &self.offs)?,
            steps: Vec::from_slice(alloc, &self.steps)?,
        })
    }

    /// A copy for the problem with this number of weeks, on which the states don't depend.
    pub fn with_weeks(&self, weeks: u32) -> Result<Automaton, AllocError>
        requires some { 1 ≤ weeks }
        requires few { weeks ≤ MOST_WEEKS }
        requires few_cells { weeks * self.now.problem.days ≤ MOST_CELLS }
        ensures { IfOk result (λ a. a ≡ record self.now { problem = record self.now.problem { weeks = weeks } }) }
    {
        let alloc = *self.moves.allocator();
        Ok(Automaton {
            problem: self.problem.with_weeks(weeks)?,
            list: self.list.copy()?,
            starts: Vec::from_slice(alloc, &self.starts)?,
            moves: Vec::from_slice(alloc, &self.moves)?,
            offs: Vec::from_slice(alloc, &self.offs)?,
            steps: Vec::from_slice(alloc, &self.steps)?,
        })
    }

    /// What holds of all automata.
    pub fn prove_facts(&self)
        ensures { IsAutomaton self.now }
    {
        let _ = &self.moves;
    }

    /// The problem.
    pub fn problem(&self) -> &Problem
        ensures { result.now ≡ self.now.problem }
    {
        &self.problem
    }

    /// The list of rules.
    pub fn rules(&self) -> &RuleList
        ensures { result.now ≡ self.now.rules }
    {
        &self.list
    }

    /// The number of states.
    pub fn states(&self) -> usize
        ensures { result ≡ length self.now.moves }
    {
        self.moves.len()
    }

    /// The state where words from the position on begin. On the first day it is state 0.
    pub fn start(&self, position: u32) -> usize
        ensures value { result ≡ begin_at self.now position }
        ensures inside { result < length self.now.moves }
    {
        self.problem.prove_limits();
        self.starts[position as usize % self.starts.len()]
    }

    /// Where the symbol leads from the state; None where no clean word continues with it.
    pub fn follow(&self, state: usize, x: Symbol) -> Option<usize>
        requires state { state < length self.now.moves }
        requires symbol { x.number < MOST_SYMBOLS }
        ensures { result ≡ move_at self.now.moves state x.number }
    {
        self.moves[state][x.number as usize]
    }

    /// Whether the words that lead to the state end with the day off.
    pub fn is_off(&self, state: usize) -> bool
        requires { state < length self.now.moves }
        ensures { result ≡ slice_index_or self.now.offs state false }
    {
        self.offs[state]
    }

    /// All steps, ascending by the state where they begin and then by the symbol.
    pub fn steps(&self) -> &[Step]
        ensures { result.now ≡ self.now.steps }
    {
        &self.steps
    }
}

// The table of the rules, with one state for those that no continuation tells apart.
fn small_table(
    alloc: Global,
    problem: &Problem,
    rules: &RuleList,
    told: Told,
) -> Result<Table, AllocError>
    ensures { IfOk result (IsReader problem.now rules.now) }
{
    let table = rule_table(alloc, problem, rules, told)?;
    let classes = classes_of(alloc, &table)?;
    merged(alloc, problem, rules, table, &classes)
}

// For each state whether its words end with the day off, which is told by 1.
fn offs_of(alloc: Global, told: &[usize]) -> Result<Vec<bool>, AllocError>
    ensures { IfOk result (λ offs. offs.items ≡ map (λ label. label == 1) told.now) }
{
    let mut offs = Vec::new(alloc);
    for label in told {
        offs.push(*label == 1)?;
    }
    Ok(offs)
}

// An automaton may be sent to other threads and shared with them.
fn shared<T: Send + Sync>(_: &T) {}

fn automata_are_shared(automaton: &Automaton) {
    shared(automaton);
}
