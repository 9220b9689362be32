// Laws about walks through an automaton.
ghost use Rattle.std.specs.Prelude.{ℕ, List};
ghost use Rattle.rwsp_terms.specs.declared.data.Symbol.{Symbol};
ghost use Rattle.roster_finder.specs.Cycles.{IsCleanCycle, IsClosedWalk};

use clean_words::Automaton;

/// A word that leads from a state back to it is a clean cyclic word: a word is read exactly where it is clean, and so is
/// what it is repeated. It begins on the day of the week behind the word that leads to that state.
pub fn closed_walks_are_clean(automaton: &Automaton)
    ensures { (p : ℕ) (w : List Symbol) → IsClosedWalk automaton.now p w → IsCleanCycle automaton.now p w }
{
    automaton.prove_facts();
}
