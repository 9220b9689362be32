// A log whose tree is one leaf.
ghost use Rattle.std.specs.Prelude.{◌≡◌, ◌↔◌, ◌⊎◌, ◌∷◌, [], ℕ, Bool, Option, IfOk};
ghost use Rattle.rwsp_terms.specs.declared.data.Rule.{Rule};
ghost use Rattle.rwsp_terms.specs.Rules.{Names};
ghost use Rattle.refutation_terms.specs.declared.lines.Line.{Line};
ghost use Rattle.refutation_terms.specs.Ranges.{AreRules};
ghost use Rattle.refutation_terms.specs.Leaves.{LeafFits};
ghost use Rattle.refutation_terms.specs.Log.{LineFits, Cites, OpeningFits, CountsFit, OpeningCites, NamesOnlyCited, Passes};
ghost use Rattle.refutation_log.specs.OneLeaf.{ClosesAll};

use crate::Log;
use crate::cited::{put_cited, put_opening_cited};
use refutation_terms::{Leaf, Line, Opening, Terms};
use rwsp_model::Problem;
use rwsp_terms::RuleList;
use std::alloc::{AllocError, Global};

/// The log of these terms, with this opening, whose tree is the leaf. It names the rules that the opening and the leaf
/// cite, and no more; where the leaf closes all cases it passes.
pub fn one_leaf_log(
    alloc: Global,
    problem: &Problem,
    opening: Opening,
    terms: Terms,
    leaf: Leaf,
) -> Result<Log, AllocError>
    requires opening { OpeningFits problem.now opening }
    requires counts { CountsFit opening terms.counts }
    requires leaf { LeafFits problem.now terms.goal terms.counts leaf }
    ensures opening { IfOk result (λ g. g.opening ≡ opening) }
    ensures goal { IfOk result (λ g. g.goal ≡ terms.goal) }
    ensures counts { IfOk result (λ g. g.counts ≡ terms.counts) }
    ensures lines { IfOk result (λ g. g.lines ≡ Line.Closing leaf ∷ []) }
    ensures cited { IfOk result (NamesOnlyCited problem.now) }
    ensures passes { ClosesAll problem.now opening terms.goal leaf → IfOk result (Passes problem.now) }
{
    let line = Line::Closing(leaf);
    let named = cited_rules(alloc, problem, &opening, &line)?;
    let lines = one_line(alloc, line)?;
    Ok(Log::new(named, opening, terms.goal, terms.counts, lines))
}

// The rules that the opening and the line cite.
fn cited_rules(
    alloc: Global,
    problem: &Problem,
    opening: &Opening,
    line: &Line,
) -> Result<RuleList, AllocError>
    requires opening { OpeningFits problem.now opening.now }
    requires line { (goal : Option ℕ) × (counts : Bool) × LineFits problem.now goal counts line.now }
    ensures rules { IfOk result (AreRules problem.now) }
    ensures names { IfOk result (λ R. (r : Rule) → Names problem.now R r
        ↔ (OpeningCites opening.now r ⊎ Cites problem.now line.now r)) }
{
    let mut rules = RuleList::new(alloc);
    put_opening_cited(&mut rules, problem, opening)?;
    put_cited(&mut rules, problem, line)?;
    rules.numbers();
    Ok(rules)
}

fn one_line(alloc: Global, line: Line) -> Result<Vec<Line>, AllocError>
    ensures { IfOk result (λ lines. lines.items ≡ line ∷ []) }
{
    let mut lines = Vec::new(alloc);
    lines.push(line)?;
    Ok(lines)
}
