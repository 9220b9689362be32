// The first day and symbol whose demand can't be met by what is counted.
ghost use Rattle.std.specs.Prelude.{◌↔◌, IsTrue};
ghost use Rattle.rwsp_terms.specs.Instance.{IsDay, IsSymbol};
ghost use Rattle.refutation_terms.specs.DayLeaf.{HasTooMany, HasTooFew};
ghost use Rattle.domain_store.specs.Store.{Store, has_domain};
ghost use Rattle.propagators.specs.Counted.{StandsFor, CountsFor, has_counted};
ghost use Rattle.propagators.specs.Overruns.{IsSymbolAnswer, IsDayAnswer, IsOverrunAnswer};

use crate::Counts;
use rwsp_model::Problem;
use rwsp_terms::Symbol;

impl Counts {
    /// The first overrun by day, then symbol, then over (true) before short (false). Over: more weeks certainly hold
    /// the symbol on the day than may hold it. Short: fewer can hold it than must.
    pub fn overrun(&self, problem: &Problem) -> Option<(u32, Symbol, bool)>
        requires { CountsFor problem.now self.now }
        ensures { (S : Store) → StandsFor self.now S → IsOverrunAnswer problem.now (has_domain S) result }
    {
        self.first_overrun(problem)
    }

    // The first overrun under the domains that are kept.
    fn first_overrun(&self, problem: &Problem) -> Option<(u32, Symbol, bool)>
        requires { CountsFor problem.now self.now }
        ensures { IsOverrunAnswer problem.now (has_counted self.now) result }
    {
        for day in 1..problem.days() + 1 {
            if let Some((x, over)) = self.overrun_of_day(problem, day) {
                return Some((day, x, over));
            }
        }
        None
    }

    // The first overrun of the day.
    fn overrun_of_day(&self, problem: &Problem, day: u32) -> Option<(Symbol, bool)>
        requires problem { CountsFor problem.now self.now }
        requires day { IsDay problem.now day }
        ensures { IsDayAnswer problem.now (has_counted self.now) day result }
    {
        for number in 0..problem.shifts() + 1 {
            let x = Symbol { number };
            if let Some(over) = self.overrun_of_symbol(problem, day, x) {
                return Some((x, over));
            }
        }
        None
    }

    // Whether the symbol is over or short on the day.
    fn overrun_of_symbol(&self, problem: &Problem, day: u32, x: Symbol) -> Option<bool>
        requires problem { CountsFor problem.now self.now }
        requires day { IsDay problem.now day }
        requires symbol { IsSymbol problem.now x }
        ensures { IsSymbolAnswer problem.now (has_counted self.now) day x.number result }
    {
        if self.is_over(problem, day, x) {
            return Some(true);
        }
        if self.is_short(problem, day, x) {
            return Some(false);
        }
        None
    }

    // Whether more weeks certainly hold the symbol on the day than may hold it.
    fn is_over(&self, problem: &Problem, day: u32, x: Symbol) -> bool
        requires problem { CountsFor problem.now self.now }
        requires day { IsDay problem.now day }
        requires symbol { IsSymbol problem.now x }
        ensures { IsTrue result ↔ HasTooMany problem.now (has_counted self.now) day x.number }
    {
        let fixed = self.fixed(x, day) as i32;
        fixed > problem.demand_greatest(x, day)
    }

    // Whether fewer weeks can hold the symbol on the day than must hold it.
    #[tactic(auto, using(crate::proofs::OverrunLemmas::possible_here))]
    fn is_short(&self, problem: &Problem, day: u32, x: Symbol) -> bool
        requires problem { CountsFor problem.now self.now }
        requires day { IsDay problem.now day }
        requires symbol { IsSymbol problem.now x }
        ensures { IsTrue result ↔ HasTooFew problem.now (has_counted self.now) day x.number }
    {
        let possible = self.possible(x, day) as i32;
        possible < problem.demand_least(x, day)
    }
}
