// Which states of the automaton are nodes: those that words without beginning and end pass through.
ghost use Rattle.std.specs.Prelude.{◌≡◌, ◌+◌, ◌<◌, ◌≤◌, length, All, IfOk, IfSome, OnOk};
ghost use Rattle.roster_finder.specs.AutomatonSteps.{IsMoveOf};
ghost use Rattle.roster_finder.specs.Steps.{IsBelow};

use clean_words::{Automaton, Step as Move};
use std::alloc::{AllocError, Global};

/// The numbers of the nodes among the states.
#[derive(Drop)]
pub(crate) struct Nodes {
    pub count: usize,
    // For each state its number among the nodes, where it is one.
    numbers: Vec<Option<usize>>,
    ghost within: { All (IsBelow count) numbers.items },
    ghost few: { count ≤ length numbers.items },
}

impl Nodes {
    /// Those of an automaton.
    pub fn of(alloc: Global, automaton: &Automaton) -> Result<Nodes, AllocError>
        ensures { IfOk result (λ n. length n.numbers.items ≡ length automaton.now.moves) }
    {
        let passed = passed_states(alloc, automaton)?;
        let mut nodes = Nodes {
            count: 0,
            numbers: Vec::new(alloc),
        };
        for is_node in &passed {
            nodes.push(*is_node)?;
        }
        Ok(nodes)
    }

    // Numbers the next state, where it is a node.
    fn push(&mut self, is_node: bool) -> Result<(), AllocError>
        ensures { OnOk result (length self.new.numbers.items ≡ length self.old.numbers.items + 1) }
    {
        if !is_node {
            self.numbers.push(None)?;
            return Ok(());
        }
        self.numbers.push(Some(self.count))?;
        self.count += 1;
        Ok(())
    }

    /// The number of a state among the nodes.
    pub fn at(&self, state: usize) -> Option<usize>
        requires { state < length self.now.numbers.items }
        ensures { IfSome result (λ n. n < self.now.count) }
    {
        self.numbers[state]
    }
}

/// A step of the automaton.
pub(crate) fn move_of(automaton: &Automaton, number: usize) -> Move
    requires { number < length automaton.now.steps }
    ensures { IsMoveOf automaton.now result }
{
    prove_moves(automaton);
    let steps = automaton.steps();
    steps[number]
}

// What holds of all steps of an automaton. Does nothing when run.
fn prove_moves(automaton: &Automaton)
    ensures { All (IsMoveOf automaton.now) automaton.now.steps }
{
    automaton.prove_facts();
}

// The states that words without beginning and end pass through (the automaton is trimmed): states are left out until a
// step enters and a step leaves each of those that are left. Costs a look at each step for each time that some are left
// out.
fn passed_states(alloc: Global, automaton: &Automaton) -> Result<Vec<bool>, AllocError>
    ensures { IfOk result (λ passed. length passed.items ≡ length automaton.now.moves) }
{
    let states = automaton.states();
    let mut passed = vec![in alloc; true; states]?;
    for _ in 0..states {
        let still = still_passed(alloc, automaton, &passed)?;
        let is_stable = still == passed;
        passed = still;
        if is_stable {
            break;
        }
    }
    Ok(passed)
}

// The states that a step enters and a step leaves, of the steps between states that are passed.
fn still_passed(
    alloc: Global,
    automaton: &Automaton,
    passed: &[bool],
) -> Result<Vec<bool>, AllocError>
    requires { length passed.now ≡ length automaton.now.moves }
    ensures { IfOk result (λ still. length still.items ≡ length automaton.now.moves) }
{
    let mut entered = vec![in alloc; false; passed.len()]?;
    let mut left = vec![in alloc; false; passed.len()]?;
    mark_ends(automaton, passed, &mut entered, &mut left);
    keep_both(&mut entered, &left);
    Ok(entered)
}

// Marks the states that the steps between passed states enter, and those that they leave.
fn mark_ends(automaton: &Automaton, passed: &[bool], entered: &mut [bool], left: &mut [bool])
    requires passed { length passed.now ≡ length automaton.now.moves }
    requires entered { length entered.old ≡ length automaton.now.moves }
    requires left { length left.old ≡ length automaton.now.moves }
    ensures { length entered.new ≡ length entered.old }
{
    for number in 0..automaton.steps().len() {
        let step = move_of(automaton, number);
        let (from, to) = (step.from, step.to);
        if passed[from] && passed[to] {
            left[from] = true;
            entered[to] = true;
        }
    }
}

// Keeps the marks that both lists have.
fn keep_both(marks: &mut [bool], others: &[bool])
    ensures { length marks.new ≡ length marks.old }
{
    for (mark, other) in marks.iter_mut().zip(others.iter()) {
        *mark = *mark && *other;
    }
}
