// The one layer that long clean words pass through day by day.
ghost use Rattle.std.specs.Prelude.{◌≡◌, ◌↔◌, ℕ, ◌+◌, ◌*◌, ◌<◌, ◌≤◌, ◌^◌, length, All};
ghost use Rattle.std.specs.Prelude.{IfOk, IfSome, IsTrue};
ghost use Rattle.rwsp_terms.specs.Instance.{shift_count};
ghost use Rattle.rwsp_terms.specs.Rules.{NamesShortRules};
ghost use Rattle.rwsp_terms.specs.declared.limits.TheConstants.{MOST_SYMBOLS};
ghost use Rattle.roster_finder.specs.Cycles.{IsCleanCycle};
ghost use Rattle.roster_finder.specs.Led.{LeadsRound, lead_from, word_of};
ghost use Rattle.roster_finder.specs.Steps.{IsStepWithin, IsBelow, IsUnder};

use crate::nodes::{Nodes, move_of};
use crate::numbers::Numbers;
use crate::step::Step;
use clean_words::{Automaton, Told};
use rwsp_model::Problem;
use rwsp_terms::Symbol;
use std::alloc::{AllocError, Global};

/// The nodes that clean words without beginning and end pass through, and the steps between them. A node is a state of
/// the automaton of the short rules; each state tells the last symbol. A word that leads round is a clean cyclic word
/// (`leads_round`).
#[derive(Drop)]
pub struct SteadyLayer {
    /// The number of symbols, the day off among them.
    pub symbols: usize,
    /// The number of nodes.
    pub nodes: usize,
    automaton: Automaton,
    steps: Vec<Step>,
    // The last symbol of each node.
    last: Numbers,
    // The number of the step out of each node by each symbol, node by node.
    out: Vec<Option<usize>>,
    ghost few_symbols: { symbols ≤ MOST_SYMBOLS },
    ghost steps_within: { All (IsStepWithin nodes symbols) steps.items },
    ghost few_steps: { length steps.items < 2 ^ 32 },
    ghost last_whole: { length last.entries.items ≡ nodes },
    ghost last_below: { last.below ≡ symbols },
    ghost out_whole: { length out.items ≡ symbols * nodes },
    ghost out_within: { All (IsBelow (length steps.items)) out.items },
}

impl SteadyLayer {
    /// The layer of a problem's words.
    pub fn of(alloc: Global, problem: &Problem) -> Result<SteadyLayer, AllocError>
        ensures symbols { IfOk result (λ l. l.symbols ≡ shift_count problem.now + 1) }
        ensures problem { IfOk result (λ l. l.automaton.problem ≡ problem.now) }
        ensures rules { IfOk result (λ l. NamesShortRules problem.now l.automaton.rules) }
    {
        let automaton = Automaton::of_short_rules(alloc, problem, Told::LastSymbol)?;
        automaton.prove_facts();
        let nodes = Nodes::of(alloc, &automaton)?;
        let symbols = usize::from(problem.shifts()) + 1;
        let last = last_symbols(alloc, &automaton, &nodes, symbols)?;
        let steps = steps_between(alloc, &automaton, &nodes, &last)?;
        let out = numbered_out(alloc, &steps, nodes.count, symbols)?;
        Ok(SteadyLayer {
            symbols,
            nodes: nodes.count,
            automaton,
            steps,
            last,
            out,
        })
    }

    /// The number of steps.
    pub fn step_count(&self) -> usize
        ensures value { result ≡ length self.now.steps.items }
        ensures few { result < 2 ^ 32 }
    {
        self.steps.len()
    }

    /// The steps, by their numbers.
    pub fn steps(&self) -> &[Step]
        ensures { result.now ≡ self.now.steps.items }
    {
        &self.steps
    }

    /// The last symbol of a node.
    pub fn last(&self, node: usize) -> usize
        requires { node < self.now.nodes }
        ensures { result < self.now.symbols }
    {
        self.last.at(node)
    }

    /// The step of a number.
    pub fn step(&self, number: usize) -> Step
        requires { number < length self.now.steps.items }
        ensures { IsStepWithin self.now.nodes self.now.symbols result }
    {
        self.steps[number]
    }

    /// The number of the step out of a node by a symbol.
    #[tactic(auto, using(crate::proofs::Places::place_within))]
    pub fn step_number(&self, node: usize, symbol: usize) -> Option<usize>
        requires node { node < self.now.nodes }
        requires symbol { symbol < self.now.symbols }
        ensures { IfSome result (λ n. n < length self.now.steps.items) }
    {
        self.out[node * self.symbols + symbol]
    }

    /// The node that follows on a node by a symbol.
    pub fn next(&self, node: usize, symbol: usize) -> Option<usize>
        requires node { node < self.now.nodes }
        requires symbol { symbol < self.now.symbols }
        ensures { IfSome result (λ n. n < self.now.nodes) }
    {
        let number = self.step_number(node, symbol)?;
        Some(self.step(number).to)
    }

    // The state to which a word leads from a state.
    fn state_behind(&self, start: usize, word: &[usize]) -> Option<usize>
        requires start { start < length self.now.automaton.moves }
        requires word { All (IsUnder self.now.symbols) word.now }
        ensures value { result ≡ lead_from self.now.automaton start word.now }
        ensures inside { IfSome result (λ s. s < length self.now.automaton.moves) }
    {
        self.automaton.prove_facts();
        let mut state = start;
        for number in word {
            let symbol = Symbol {
                number: *number as u8,
            };
            state = self.automaton.follow(state, symbol)?;
        }
        Some(state)
    }

    /// Whether a word, read from the first day on, leads to a state, and read once more back to it. Such a word is clean
    /// however often it is repeated.
    pub fn leads_round(&self, word: &[usize]) -> bool
        requires { All (IsUnder self.now.symbols) word.now }
        ensures round { IsTrue result ↔ LeadsRound self.now.automaton word.now }
        ensures clean { IsTrue result → IsCleanCycle self.now.automaton 0 (word_of word.now) }
    {
        self.automaton.prove_facts();
        let Some(state) = self.state_behind(self.automaton.start(0), word) else {
            return false;
        };
        self.state_behind(state, word) == Some(state)
    }
}

// The last symbol of each node: that of each step which leads there.
fn last_symbols(
    alloc: Global,
    automaton: &Automaton,
    nodes: &Nodes,
    symbols: usize,
) -> Result<Numbers, AllocError>
    requires nodes { length nodes.now.numbers.items ≡ length automaton.now.moves }
    requires symbols { symbols ≡ shift_count automaton.now.problem + 1 }
    ensures whole { IfOk result (λ last. length last.entries.items ≡ nodes.now.count) }
    ensures below { IfOk result (λ last. last.below ≡ symbols) }
{
    let mut last = Numbers::zeros(alloc, nodes.count, symbols)?;
    for number in 0..automaton.steps().len() {
        let step = move_of(automaton, number);
        if let Some(to) = nodes.at(step.to) {
            last.set(to, usize::from(step.symbol.number));
        }
    }
    Ok(last)
}

// The steps between nodes, whose last symbols are given; none where there are more than 32 bits can number.
fn steps_between(
    alloc: Global,
    automaton: &Automaton,
    nodes: &Nodes,
    last: &Numbers,
) -> Result<Vec<Step>, AllocError>
    requires nodes { length nodes.now.numbers.items ≡ length automaton.now.moves }
    requires whole { length last.now.entries.items ≡ nodes.now.count }
    requires below { last.now.below ≡ shift_count automaton.now.problem + 1 }
    ensures few { IfOk result (λ steps. length steps.items < 2 ^ 32) }
    ensures within { IfOk result (λ steps. All (IsStepWithin nodes.now.count last.now.below) steps.items) }
{
    let mut steps = Vec::new(alloc);
    if automaton.steps().len() > u32::MAX as usize {
        return Ok(steps);
    }
    for number in 0..automaton.steps().len() {
        if let Some(step) = step_between(automaton, nodes, last, number) {
            steps.push(step)?;
        }
    }
    Ok(steps)
}

// The step of a number, where it is one between nodes.
fn step_between(automaton: &Automaton, nodes: &Nodes, last: &Numbers, number: usize) -> Option<Step>
    requires number { number < length automaton.now.steps }
    requires nodes { length nodes.now.numbers.items ≡ length automaton.now.moves }
    requires whole { length last.now.entries.items ≡ nodes.now.count }
    requires below { last.now.below ≡ shift_count automaton.now.problem + 1 }
    ensures { IfSome result (IsStepWithin nodes.now.count last.now.below) }
{
    let step = move_of(automaton, number);
    let from = nodes.at(step.from)?;
    let to = nodes.at(step.to)?;
    let symbol = usize::from(step.symbol.number);
    Some(Step {
        from,
        to,
        symbol,
        stays_off: symbol == 0 && last.at(from) == 0,
    })
}

// The number of the step out of each node by each symbol, node by node.
fn numbered_out(
    alloc: Global,
    steps: &[Step],
    nodes: usize,
    symbols: usize,
) -> Result<Vec<Option<usize>>, AllocError>
    requires { All (IsStepWithin nodes symbols) steps.now }
    ensures whole { IfOk result (λ out. length out.items ≡ symbols * nodes) }
    ensures within { IfOk result (λ out. All (IsBelow (length steps.now)) out.items) }
{
    // No memory holds more places than a number of it can count.
    let Some(places) = symbols.checked_mul(nodes) else {
        return Err(AllocError);
    };
    let mut out = vec![in alloc; None; places]?;
    for number in 0..steps.len() {
        let step = steps[number];
        put_number(&mut out, place_out(step, nodes, symbols), number);
    }
    Ok(out)
}

// The place of the number of a step.
#[tactic(auto, using(crate::proofs::Places::place_within))]
fn place_out(step: Step, nodes: usize, symbols: usize) -> usize
    requires within { IsStepWithin nodes symbols step }
    requires few { symbols * nodes < 2 ^ 64 }
    ensures { result < symbols * nodes }
{
    step.from * symbols + step.symbol
}

// Writes the number of a step.
fn put_number(out: &mut Vec<Option<usize>>, place: usize, number: usize)
    requires { place < length out.old.items }
    ensures long { length out.new.items ≡ length out.old.items }
    ensures below { (bound : ℕ) → number < bound
        → All (IsBelow bound) out.old.items → All (IsBelow bound) out.new.items }
{
    out[place] = Some(number);
}
