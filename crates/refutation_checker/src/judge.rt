// The lines of a log's tree, judged one after the other.
ghost use Rattle.std.specs.Prelude.{◌≡◌, IfOk, MatchOption, false};
ghost use Rattle.refutation_terms.specs.declared.lines.Opening.TheVariants.{Full};
ghost use Rattle.refutation_terms.specs.Log.{LineFits, ListsShortOnly};
ghost use Rattle.rwsp_model.specs.Refusals.{MatchAnswer};
ghost use Rattle.domain_store.specs.Store.{BelongsTo, has_domain};
ghost use Rattle.domain_store.specs.States.{IsWalkOf};
ghost use Rattle.refutation_checker.specs.LineTexts.{HoldsByWordsUnder, EscapesUnder, IsSoundUnder, HasCause, ReadsNext, RefusesNext, PassesNext, HasCauseNext, IsSpellingRefusal};

use crate::kept::{automaton_of, is_kept};
use crate::line_walk::step;
use crate::plain_causes::plain_refusal;
use crate::word_leaves::{escape_of, holds_plainly, list_of};
use clean_words::Automaton;
use domain_store::{Domains, Walk};
use refutation_log::{LineRefusal, read_line};
use refutation_terms::{Line, LogRefusal, Terms};
use rwsp_model::{Fail, Problem};
use rwsp_terms::{RuleList, Word};
use std::alloc::{AllocError, Global};
use std::marker::Model;

/// What lines are judged by: the problem, the rules that the header of their log names, and what the lines of the log
/// may be.
#[derive(Drop)]
pub struct Judging<'a> {
    pub problem: &'a Problem,
    pub named: &'a RuleList,
    pub terms: Terms,
}

impl<'a> Model for Judging<'a> {
    ghost use Rattle.refutation_terms.specs.declared.lines.Opening.TheVariants.{Full};
    ghost use Rattle.refutation_terms.specs.Log.{GoalFits};
    ghost use Rattle.refutation_checker.specs.LineTexts.{Judging};

    ghost Value = { Judging };

    ghost view = { λ j. record {
      problem = j.problem.now;
      named = j.named.now;
      goal = j.terms.goal;
      counts = j.terms.counts;
    } };

    ghost invariant = { λ j. GoalFits j.problem.now Full j.terms.goal };
}

/// Judges lines of a log of these terms, under the rules that its header names. The automaton of the list of a line
/// serves the next lines with the same list.
#[derive(Drop)]
pub struct Judge<'a> {
    problem: &'a Problem,
    named: &'a RuleList,
    terms: Terms,
    automaton: Option<Automaton>,
}

impl<'a> Model for Judge<'a> {
    ghost use Rattle.std.specs.Prelude.{◌≡◌, IfSome};
    ghost use Rattle.refutation_terms.specs.declared.lines.Opening.TheVariants.{Full};
    ghost use Rattle.refutation_terms.specs.Log.{GoalFits};
    ghost use Rattle.refutation_checker.specs.LineTexts.{Judging};

    ghost Value = { Judging };

    ghost view = { λ j. record {
      problem = j.problem.now;
      named = j.named.now;
      goal = j.terms.goal;
      counts = j.terms.counts;
    } };

    ghost invariant = { λ j. GoalFits j.problem.now Full j.terms.goal
        × IfSome j.automaton (λ automaton. automaton.problem ≡ j.problem.now) };
}

impl<'a> Judge<'a> {
    /// A judge that has judged no line.
    pub fn new(judging: &Judging<'a>) -> Judge<'a>
        ensures { result ≡ judging.now }
    {
        Judge {
            problem: judging.problem,
            named: judging.named,
            terms: judging.terms,
            automaton: None,
        }
    }

    /// Reads the next line of a log's tree from its text, line `number` of all, and judges it under the domains there.
    /// The walk has read the line where it is refused for no cause; after a refusal or want of memory it can't be used
    /// any longer.
    pub fn read(
        &mut self,
        alloc: Global,
        walk: &mut Walk,
        bytes: &[u8],
        number: u32,
    ) -> Result<Line, Fail<LogRefusal>>
        requires state { IsWalkOf self.old.problem walk.old }
        ensures same { self.new ≡ self.old }
        ensures read { MatchAnswer result
            (ReadsNext self.old walk.old bytes.now walk.new)
            (RefusesNext self.old walk.old bytes.now number) }
    {
        if walk.is_whole() {
            return Err(Fail::Refused(LogRefusal::Extra(number)));
        }
        let line = match read_line(alloc, self.problem, self.terms, bytes) {
            Ok(line) => line,
            Err(Fail::Memory) => return Err(Fail::Memory),
            Err(Fail::Refused(why)) => return Err(Fail::Refused(spelling_refusal(why, number))),
        };
        match self.pass(alloc, walk, &line, number) {
            Ok(None) => Ok(line),
            Ok(Some(why)) => {
                drop(line);
                Err(Fail::Refused(why))
            }
            Err(_) => {
                drop(line);
                Err(Fail::Memory)
            }
        }
    }

    /// Judges the next line of a tree, line `number` of all, under the domains of the walk: None
    /// where it has no cause, and then the walk has read it.
    pub fn pass(
        &mut self,
        alloc: Global,
        walk: &mut Walk,
        line: &Line,
        number: u32,
    ) -> Result<Option<LogRefusal>, AllocError>
        requires state { IsWalkOf self.old.problem walk.old }
        requires part { walk.old.whole ≡ false }
        requires line { LineFits self.old.problem self.old.goal self.old.counts line.now }
        ensures same { self.new ≡ self.old }
        ensures passed { IfOk result (λ found. MatchOption found
            (PassesNext self.old walk.old line.now walk.new)
            (HasCauseNext self.old walk.old number line.now)) }
    {
        self.problem.prove_limits();
        walk.domains().prove_facts();
        if let Some(why) = self.line_refusal(alloc, walk.domains(), line, number)? {
            return Ok(Some(why));
        }
        step(walk, line)?;
        Ok(None)
    }

    // The lowest cause of a line under domains; None exactly where there is none.
    fn line_refusal(
        &mut self,
        alloc: Global,
        doms: &Domains,
        line: &Line,
        number: u32,
    ) -> Result<Option<LogRefusal>, AllocError>
        requires domains { BelongsTo self.old.problem doms.now }
        requires line { LineFits self.old.problem self.old.goal self.old.counts line.now }
        ensures same { self.new ≡ self.old }
        ensures cause { IfOk result (λ found. MatchOption found
            (IsSoundUnder self.old (has_domain doms.now) line.now)
            (HasCause self.old (has_domain doms.now) number line.now)) }
    {
        if let Some(why) = plain_refusal(self.problem, self.named, self.terms, doms, line, number) {
            return Ok(Some(why));
        }
        match self.leaf_escape(alloc, doms, line)? {
            Some(word) => Ok(Some(LogRefusal::Escape(number, word))),
            None => Ok(None),
        }
    }

    /// The word that escapes a leaf of words; None exactly where the leaf holds, and for other lines.
    pub fn leaf_escape(
        &mut self,
        alloc: Global,
        doms: &Domains,
        line: &Line,
    ) -> Result<Option<Word>, AllocError>
        requires domains { BelongsTo self.old.problem doms.now }
        requires line { LineFits self.old.problem self.old.goal self.old.counts line.now }
        requires short { ListsShortOnly self.old.problem line.now }
        ensures same { self.new ≡ self.old }
        ensures escape { IfOk result (λ found. MatchOption found
            (HoldsByWordsUnder self.old (has_domain doms.now) line.now)
            (EscapesUnder self.old (has_domain doms.now) line.now)) }
    {
        let Some(list) = list_of(line) else {
            return Ok(None);
        };
        if !is_kept(&self.automaton, list) && holds_plainly(alloc, self.problem, doms, line)? {
            return Ok(None);
        }
        let automaton = automaton_of(alloc, self.problem, self.automaton.take(), list)?;
        let found = escape_of(alloc, &automaton, doms, self.terms, line);
        self.keep(automaton);
        found
    }

    // Keeps the automaton for the next lines.
    fn keep(&mut self, automaton: Automaton)
        requires { automaton.problem ≡ self.old.problem }
        ensures { self.new ≡ self.old }
    {
        self.automaton = Some(automaton);
    }
}

// The cause of a line of the text that is no line of a log.
fn spelling_refusal(why: LineRefusal, number: u32) -> LogRefusal
    ensures { IsSpellingRefusal why number result }
{
    match why {
        LineRefusal::Form => LogRefusal::Form(number),
        LineRefusal::Name => LogRefusal::Name(number),
    }
}
