// The search for a roster.
ghost use Rattle.std.specs.Prelude.{◌≡◌, ◌*◌, ◌<◌, ◌≤◌, length, All, IfOk, IfSome, IsTrue};
ghost use Rattle.rwsp_terms.specs.Roster.{IsRoster};
ghost use Rattle.refutation_terms.specs.FreeWeekends.{free_weekends};
ghost use Rattle.roster_finder.specs.Found.{IsRosterHolding, IsRosterWith};
ghost use Rattle.refutation_terms.specs.GivenCells.{AreGivenIn, HoldsCells};
ghost use Rattle.roster_finder.specs.DayDomains.{AreDomainsFor, AreDomainsOf};
ghost use Rattle.roster_finder.specs.Moves.{IsMoverOf};
ghost use Rattle.roster_finder.specs.Starters.{IsStarterOf};
ghost use Rattle.roster_finder.specs.ByStep.{IsByStep};
ghost use Rattle.roster_finder.specs.declared.finding.TheConstants.{PATIENCE};
ghost use Rattle.roster_finder.specs.Walks.{HaveOneShape, IsWalkOf};

use crate::counters::Change;
use crate::day_domains::DayDomains;
use crate::demand::Demand;
use crate::draft::Draft;
use crate::random::Random;
use crate::rewriting::drawn_rewriting;
use crate::setting::Setting;
use crate::shares::Shares;
use crate::start::{Lead, Starter};
use crate::steady_layer::SteadyLayer;
use crate::window::Mover;
use domain_store::Domains;
use refutation_terms::{GivenCell, GivenCells};
use roster_checker::{first_broken, free_weekends};
use rwsp_model::{Problem, Roster};
use rwsp_terms::Symbol;
use std::alloc::{AllocError, Global};
use std::marker::Model;
use std::mem;

/// Rosters of fewer days are left to searches that distinguish cases.
const FEWEST_CELLS: u32 = 14;

/// The most windows that are rewritten.
const MOST_MOVES: usize = 160_000;

/// The most of a search that is to end soon.
const MOST_SHORT_MOVES: usize = 16_000;

/// The most of a search of middle length.
const MOST_MIDDLE_MOVES: usize = 48_000;

/// Where a layer has many steps, this divided by their number, since each move looks at each step.
const MOST_STEP_MOVES: usize = 36_000_000;

/// The most windows that are rewritten where the shares don't hang together.
const MOST_LOOSE_MOVES: usize = 32_000;

/// After this many moves new shares are made.
const SHARES_FOR: usize = 16_000;

/// So often cuts are looked for at most.
const CUTTING_TURNS: usize = 10;

/// All shares except the first ones are blurred by random numbers below this.
const SHARES_NOISE: u32 = 3_000;

/// After this many moves a new word is begun.
const WORD_FOR: usize = 4_000;

/// A word is begun with the best of this many start words.
const STARTS: u32 = 16;

/// The first start word is led also by random numbers below this.
const FIRST_NOISE: u32 = 300;

/// By how much this bound grows with each further start word.
const MORE_NOISE: u32 = 200;

/// After this many moves without a new best the counters that are off weigh more.
const PATIENCE: usize = 200;

/// The search ends when the words that met the demand and broke a rule of long blocks have this many cells in all.
const MOST_REFUSED: usize = 10_000_000;

/// How long a search goes on that has found nothing.
#[derive(Clone, Copy)]
pub enum Patience {
    /// Most rosters that can be found are found by then.
    Short,
    /// Three times as long.
    Middle,
    Long,
}

impl Patience {
    // The lesser one of both.
    fn up_to(self, most: Patience) -> Patience {
        match (self, most) {
            (Patience::Short, _) | (_, Patience::Short) => Patience::Short,
            (Patience::Middle, _) | (_, Patience::Middle) => Patience::Middle,
            (Patience::Long, Patience::Long) => Patience::Long,
        }
    }

    // How often a finder with at most this patience looks for cuts. They take more time than all moves of a shorter
    // search.
    fn cutting_turns(self) -> usize {
        match self {
            Patience::Short | Patience::Middle => 0,
            Patience::Long => CUTTING_TURNS,
        }
    }
}

/// A search, as far as it is.
#[derive(Drop)]
struct Search<'a> {
    setting: Setting<'a>,
    domains: &'a DayDomains,
    shares: Shares,
    cutting_turns: usize,
    random: Random,
    draft: Draft,
    // Another word: the best start word so far.
    other: Draft,
    starter: Starter,
    mover: Mover,
    // The least deviation of the word (of the incumbent), and the moves since it was found.
    least: i64,
    since: usize,
    ghost nodes: { 0 < setting.layer.now.nodes },
    ghost steps: { 0 < length setting.layer.now.steps.items },
    ghost days: { draft.walk.days ≡ setting.demand.now.days },
    ghost cells: { draft.walk.cells ≡ setting.demand.now.weeks * setting.demand.now.days },
    ghost draft_walk: { IsWalkOf setting.layer.now draft.walk },
    ghost other_walk: { IsWalkOf setting.layer.now other.walk },
    ghost other_shape: { HaveOneShape other.walk draft.walk },
    ghost starter_room: { IsStarterOf setting.layer.now draft.walk starter },
    ghost mover_room: { IsMoverOf setting.layer.now mover },
    ghost uses: { IsByStep setting shares.uses },
    ghost domains_fit: { AreDomainsFor draft.walk domains.now },
    ghost few_moves: { since < PATIENCE },
}

impl<'a> Search<'a> {
    // A search without a word yet. None where there is no walk, or there are no shares.
    fn new(
        setting: Setting<'a>,
        domains: &'a DayDomains,
        cutting_turns: usize,
        seed: u32,
    ) -> Result<Option<Search<'a>>, AllocError>
        requires { AreDomainsOf setting domains.now }
    {
        if setting.layer.nodes == 0 || setting.layer.step_count() == 0 {
            return Ok(None);
        }
        let mut random = Random::new(seed);
        let Some(shares) = Shares::of(setting, &mut random, 0, cutting_turns)? else {
            return Ok(None);
        };
        let search = Search::of(setting, domains, shares, cutting_turns, random)?;
        Ok(Some(search))
    }

    // The search that has these shares.
    fn of(
        setting: Setting<'a>,
        domains: &'a DayDomains,
        shares: Shares,
        cutting_turns: usize,
        random: Random,
    ) -> Result<Search<'a>, AllocError>
        requires domains { AreDomainsOf setting domains.now }
        requires nodes { 0 < setting.layer.now.nodes }
        requires steps { 0 < length setting.layer.now.steps.items }
        requires uses { IsByStep setting shares.uses }
    {
        let draft = Draft::new(setting)?;
        let other = Draft::new(setting)?;
        let starter = Starter::new(setting, &draft)?;
        let mover = Mover::new(setting)?;
        Ok(Search {
            setting,
            domains,
            shares,
            cutting_turns,
            random,
            draft,
            other,
            starter,
            mover,
            least: i64::MAX,
            since: 0,
        })
    }

    // Makes new shares where their turn has come. Where there are none this time, the old ones stay.
    fn renew_shares(&mut self, turn: usize) -> Result<(), AllocError> {
        if turn > 0 && turn % SHARES_FOR == 0 {
            let turns = self.cutting_turns;
            if let Some(shares) = Shares::of(self.setting, &mut self.random, SHARES_NOISE, turns)? {
                self.shares = shares;
            }
        }
        Ok(())
    }

    // Begins a new word where its turn has come. False where there is none.
    fn renew_word(&mut self, turn: usize) -> bool {
        if turn % WORD_FOR != 0 {
            return true;
        }
        let mut least = i64::MAX;
        for number in 0..STARTS {
            let deviation = self.started(FIRST_NOISE + number * MORE_NOISE);
            if deviation < least {
                least = deviation;
                mem::swap(&mut self.draft, &mut self.other);
            }
        }
        mem::swap(&mut self.draft, &mut self.other);
        self.draft.change_counters(Change::WeighOne);
        self.least = i64::MAX;
        self.since = 0;
        least < i64::MAX
    }

    // Begins the word anew. How far it is off the demand; as far as possible where there is none.
    fn started(&mut self, noise: u32) -> i64 {
        let lead = Lead {
            shares: &self.shares,
            domains: self.domains,
            noise,
        };
        let layer = self.setting.layer;
        if self
            .starter
            .start(layer, lead, &mut self.draft, &mut self.random)
        {
            self.draft.counters.deviation()
        } else {
            i64::MAX
        }
    }

    // Rewrites a window, and lets counters weigh more where that hasn't helped for long.
    fn rewrite(&mut self) {
        let Setting { layer, demand, .. } = self.setting;
        let rewriting = drawn_rewriting(demand, self.domains, &self.draft, &mut self.random);
        self.mover
            .rewrite(layer, &mut self.draft, &mut self.random, rewriting);
        let deviation = self.draft.counters.deviation();
        if deviation < self.least {
            self.least = deviation;
            self.since = 0;
            return;
        }
        if self.since + 1 < self.patience() {
            self.since += 1;
            return;
        }
        self.since = 0;
        self.draft.change_counters(Change::WeighMore);
    }

    // After so many moves without a new best the counters that are off weigh more: the fewer days are open, the sooner.
    fn patience(&self) -> usize
        ensures { result ≤ PATIENCE }
    {
        let cells = self.draft.walk.cells;
        let open = self.domains.open().len().min(cells);
        (PATIENCE * open / cells).min(PATIENCE)
    }

    // At most this many moves are made. Where no day is open, one word is all that there is.
    fn most_moves(&self, patience: Patience) -> usize {
        if self.domains.open().len() == 0 {
            return 1;
        }
        let most = match patience {
            Patience::Short => MOST_SHORT_MOVES,
            Patience::Middle if self.shares.hang_together => MOST_MIDDLE_MOVES,
            Patience::Long if self.shares.hang_together => MOST_MOVES,
            Patience::Middle | Patience::Long => MOST_LOOSE_MOVES,
        };
        (MOST_STEP_MOVES / self.setting.layer.step_count()).min(most)
    }

    // The roster of the word, where it meets every rule and has `free` free weekends at least.
    fn met(&self, problem: &Problem, free: u32) -> Result<Option<Roster>, AllocError>
        requires { 0 < free → problem.now.days ≡ 7 }
        ensures { IfOk result (λ found. IfSome found (IsRosterWith problem.now free)) }
    {
        let Some(symbols) = self.draft.walk.closed_word(self.setting.layer) else {
            return Ok(None);
        };
        met_roster(self.setting.alloc, problem, free, symbols)
    }

    // Rewrites windows until the word is a roster that meets every rule and has `free` free weekends at least.
    fn run(
        &mut self,
        problem: &Problem,
        free: u32,
        patience: Patience,
    ) -> Result<Option<Roster>, AllocError>
        requires { 0 < free → problem.now.days ≡ 7 }
        ensures { IfOk result (λ found. IfSome found (IsRosterWith problem.now free)) }
    {
        // The words that met the demand and were refused, each with all its cells.
        let mut refused: usize = 0;
        for turn in 0..self.most_moves(patience) {
            self.renew_shares(turn)?;
            if !self.renew_word(turn) || refused > MOST_REFUSED {
                return Ok(None);
            }
            if self.draft.counters.deviation() == 0 {
                if let Some(roster) = self.met(problem, free)? {
                    return Ok(Some(roster));
                }
                refused += self.draft.walk.cells;
            }
            self.rewrite();
        }
        Ok(None)
    }
}

/// The roster of these symbols by their numbers, where it meets every rule and has `free` free weekends at least.
pub fn met_roster(
    alloc: Global,
    problem: &Problem,
    free: u32,
    symbols: &[usize],
) -> Result<Option<Roster>, AllocError>
    requires { 0 < free → problem.now.days ≡ 7 }
    ensures { IfOk result (λ found. IfSome found (IsRosterWith problem.now free)) }
{
    let Some(roster) = roster_of(problem, cells_of(alloc, symbols)?) else {
        return Ok(None);
    };
    if !has_free(problem, &roster, free) {
        return Ok(None);
    }
    match first_broken(problem, &roster) {
        Some(_) => Ok(None),
        None => Ok(Some(roster)),
    }
}

// What was found, where it holds each given cell.
#[tactic(auto, using(crate::proofs::GivenCells::cells_within))]
fn holding(problem: &Problem, given: &GivenCells, found: Option<Roster>) -> Option<Roster>
    requires given { AreGivenIn problem.now given.now }
    requires found { IfSome found (IsRosterWith problem.now 0) }
    ensures { IfSome result (IsRosterHolding problem.now given.now) }
{
    let roster = found?;
    if holds(&roster, given.cells()) {
        Some(roster)
    } else {
        None
    }
}

// Whether the roster holds each given cell.
fn holds(roster: &Roster, given: &[GivenCell]) -> bool
    requires { All (λ c. c.p < length roster.now.cells) given.now }
    ensures { IsTrue result → HoldsCells given.now roster.now.cells }
{
    given.iter().all(|cell| roster.at(cell.p) == cell.x)
}

// Whether the roster has `free` free weekends at least.
fn has_free(problem: &Problem, roster: &Roster, free: u32) -> bool
    requires roster { IsRoster problem.now roster.now.cells }
    requires week { 0 < free → problem.now.days ≡ 7 }
    ensures { IsTrue result → free ≤ free_weekends roster.now.cells }
{
    if free == 0 {
        return true;
    }
    free <= free_weekends(problem, roster)
}

// The cells that hold these symbols.
fn cells_of(alloc: Global, symbols: &[usize]) -> Result<Vec<Symbol>, AllocError> {
    let mut cells = Vec::new(alloc);
    for symbol in symbols {
        let number = u8::try_from(*symbol).unwrap_or(u8::MAX);
        cells.push(Symbol { number })?;
    }
    Ok(cells)
}

// The roster of these cells, where there are as many as the problem has and each holds one of its symbols.
fn roster_of(problem: &Problem, cells: Vec<Symbol>) -> Option<Roster>
    ensures days { IfSome result (λ s. s.days ≡ problem.now.days) }
    ensures roster { IfSome result (λ s. IsRoster problem.now s.cells) }
{
    let last = problem.shifts();
    if cells.len() != problem.cells() as usize {
        return None;
    }
    if !cells.iter().all(|x| x.number <= last) {
        return None;
    }
    Some(Roster::of(problem, cells))
}

/// A search for rosters of a problem that distinguishes no cases.
///
/// A fractional flow is found first, that is, how often each step of clean words is taken on each weekday in the mean
/// (G. Dantzig and P. Wolfe's generation of columns, 1960). It is rounded to words that meet the demand nearly; windows
/// of them are then rewritten, each by the clean word that fits best, until the demand is met. Words are made within
/// domains: the fewer symbols propagation has left there, the sooner one is a roster. The same problem, domains and seed
/// give the same answer each time.
#[derive(Drop)]
pub struct RosterFinder<'a> {
    problem: &'a Problem,
    layer: &'a SteadyLayer,
    // None where it is known that there is no roster.
    domains: Option<&'a Domains>,
    // No search goes on for longer.
    most: Patience,
    // Its random numbers are those of this seed.
    seed: u32,
}

impl<'a> Model for RosterFinder<'a> {
    ghost use Rattle.rwsp_terms.specs.Instance.{Instance};

    ghost Value = { Instance };

    ghost use Rattle.std.specs.Prelude.{◌≡◌, ◌+◌, IfSome};
    ghost use Rattle.rwsp_terms.specs.Instance.{shift_count};
    ghost use Rattle.domain_store.specs.Store.{BelongsTo};

    ghost view = { λ f. f.problem.now };

    ghost invariant = { λ f. (f.layer.now.symbols ≡ shift_count f.problem.now + 1)
        × IfSome f.domains (λ d. BelongsTo f.problem.now d.now) };
}

impl<'a> RosterFinder<'a> {
    ghost use Rattle.std.specs.Prelude.{◌+◌};
    ghost use Rattle.rwsp_terms.specs.Instance.{shift_count};
    ghost use Rattle.domain_store.specs.Store.{BelongsTo};

    /// A search for rosters of the problem within the domains, over the layer of its words; without domains none is
    /// found. No search goes on for longer than `most`, whatever is asked for: a problem that is likely to have no
    /// roster gets little patience. The seed is 0.
    pub fn over(
        problem: &'a Problem,
        layer: &'a SteadyLayer,
        domains: Option<&'a Domains>,
        most: Patience,
    ) -> RosterFinder<'a>
        requires symbols { layer.now.symbols ≡ shift_count problem.now + 1 }
        requires domains { IfSome domains (λ d. BelongsTo problem.now d.now) }
        ensures { result ≡ problem.now }
    {
        RosterFinder {
            problem,
            layer,
            domains,
            most,
            seed: 0,
        }
    }

    /// The same search with at most this patience.
    pub fn at_most(&self, most: Patience) -> RosterFinder<'a>
        ensures { result ≡ self.now }
    {
        RosterFinder {
            problem: self.problem,
            layer: self.layer,
            domains: self.domains,
            most: most.up_to(self.most),
            seed: self.seed,
        }
    }

    /// The same search with the random numbers of this seed.
    pub fn seeded(&self, seed: u32) -> RosterFinder<'a>
        ensures { result ≡ self.now }
    {
        RosterFinder {
            problem: self.problem,
            layer: self.layer,
            domains: self.domains,
            most: self.most,
            seed,
        }
    }

    /// The seed of its random numbers.
    pub fn seed(&self) -> u32 {
        self.seed
    }

    /// The layer of the problem's words.
    pub fn layer(&self) -> &SteadyLayer
        ensures { result.now.symbols ≡ shift_count self.now + 1 }
    {
        self.layer
    }

    /// The problem.
    pub fn problem(&self) -> &Problem
        ensures { result.now ≡ self.now }
    {
        self.problem
    }

    /// A roster that meets every rule and has at least `free` free weekends, or None. None says nothing: another search
    /// may find one. Costs at most some seconds.
    pub fn find(
        &self,
        alloc: Global,
        free: u32,
        patience: Patience,
    ) -> Result<Option<Roster>, AllocError>
        requires { 0 < free → self.now.days ≡ 7 }
        ensures { IfOk result (λ found. IfSome found (IsRosterWith self.now free)) }
    {
        let Some(domains) = self.domains else {
            return Ok(None);
        };
        if self.problem.cells() < FEWEST_CELLS {
            return Ok(None);
        }
        let demand = Demand::of(alloc, self.problem, free)?;
        let setting = Setting {
            alloc,
            layer: self.layer,
            demand: &demand,
        };
        let days = DayDomains::of(setting, domains)?;
        let turns = self.most.cutting_turns();
        let Some(mut search) = Search::new(setting, &days, turns, self.seed)? else {
            return Ok(None);
        };
        search.run(self.problem, free, patience.up_to(self.most))
    }

    /// A roster that meets every rule and holds each given cell, or None. None says nothing: another search may find
    /// one. It looks within the domains alone, so these had best leave the given cells nothing else.
    pub fn find_given(
        &self,
        alloc: Global,
        given: &GivenCells,
        patience: Patience,
    ) -> Result<Option<Roster>, AllocError>
        requires { AreGivenIn self.now given.now }
        ensures { IfOk result (λ found. IfSome found (IsRosterHolding self.now given.now)) }
    {
        let found = self.find(alloc, 0, patience)?;
        Ok(holding(self.problem, given, found))
    }
}
