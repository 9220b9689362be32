// How a window of a word is to be rewritten, and which one.
ghost use Rattle.std.specs.Prelude.{◌≡◌, ◌+◌, ◌*◌, ◌<◌, ◌≤◌, IfSome};
ghost use Rattle.roster_finder.specs.DayDomains.{AreDomainsFor};
ghost use Rattle.roster_finder.specs.Moves.{IsRewritingOf, IsWindowOf};
ghost use Rattle.roster_finder.specs.declared.window.TheConstants.{LONGEST_WINDOW};

use crate::day_domains::DayDomains;
use crate::demand::Demand;
use crate::draft::{Draft, Window};
use crate::random::Random;
use crate::walk::Walk;
use crate::window::LONGEST_WINDOW;

/// That a day is to get a symbol, or to lose it.
#[derive(Clone, Copy)]
pub(crate) struct Wish {
    pub day: usize,
    pub symbol: usize,
    pub gets: bool,
}

impl Wish {
    // Whether it bars a symbol on a day.
    fn bars(self, day: usize, symbol: usize) -> bool {
        day == self.day && (symbol == self.symbol) != self.gets
    }
}

/// A window, what its days may have, and what one of them is to become.
#[derive(Clone, Copy)]
pub(crate) struct Rewriting<'a> {
    pub window: Window,
    pub domains: &'a DayDomains,
    pub wish: Option<Wish>,
}

impl<'a> Rewriting<'a> {
    /// Whether a day may have a symbol.
    pub fn allows(self, day: usize, symbol: usize) -> bool
        requires day { day < self.domains.now.left.rows }
        requires symbol { symbol < self.domains.now.left.columns }
    {
        let is_barred = match self.wish {
            Some(wish) => wish.bars(day, symbol),
            None => false,
        };
        !is_barred && self.domains.may_have(day, symbol)
    }
}

/// A rewriting that is drawn. Where some days are settled, most go by a wish: where few days are open, windows at random
/// seldom hit the days that are off.
pub(crate) fn drawn_rewriting<'a>(
    demand: &Demand,
    domains: &'a DayDomains,
    draft: &Draft,
    random: &mut Random,
) -> Rewriting<'a>
    requires domains { AreDomainsFor draft.now.walk domains.now }
    requires days { draft.now.walk.days ≡ demand.now.days }
    requires cells { draft.now.walk.cells ≡ demand.now.weeks * demand.now.days }
    ensures { IsRewritingOf draft.now.walk result }
{
    let wish = drawn_wish(demand, domains, draft, random);
    let window = match wish {
        Some(wish) => window_round(&draft.walk, wish.day, random),
        None => drawn_window(&draft.walk, domains, random),
    };
    Rewriting {
        window,
        domains,
        wish,
    }
}

// A wish, for two moves of three where some days are settled.
fn drawn_wish(
    demand: &Demand,
    domains: &DayDomains,
    draft: &Draft,
    random: &mut Random,
) -> Option<Wish>
    requires domains { AreDomainsFor draft.now.walk domains.now }
    requires days { draft.now.walk.days ≡ demand.now.days }
    requires cells { draft.now.walk.cells ≡ demand.now.weeks * demand.now.days }
    ensures { IfSome result (λ w. w.day < draft.now.walk.cells) }
{
    if domains.open().len() < draft.walk.cells && random.below(3) < 2 {
        helpful_wish(demand, domains, draft, random)
    } else {
        None
    }
}

// A wish for a weekday and a symbol that are off: the first day that can help, from a drawn week on. Costs a look at
// each week.
#[tactic(auto, using(crate::proofs::Places::day_of_week))]
fn helpful_wish(
    demand: &Demand,
    domains: &DayDomains,
    draft: &Draft,
    random: &mut Random,
) -> Option<Wish>
    requires domains { AreDomainsFor draft.now.walk domains.now }
    requires days { draft.now.walk.days ≡ demand.now.days }
    requires cells { draft.now.walk.cells ≡ demand.now.weeks * demand.now.days }
    ensures { IfSome result (λ w. w.day < draft.now.walk.cells) }
{
    let (weekday, symbol) = draft.counters.drawn_off(random)?;
    let gets = draft.counters.lacks(symbol, weekday);
    let first = random.below(demand.weeks);
    for later in 0..demand.weeks {
        let week = (first + later) % demand.weeks;
        let day = week * demand.days + weekday;
        let helps = (draft.walk.symbol(day) == symbol) != gets;
        if helps && domains.may_have(day, symbol) && domains.is_open(day) {
            return Some(Wish { day, symbol, gets });
        }
    }
    None
}

// A window with some days before a day and some behind it.
fn window_round(walk: &Walk, day: usize, random: &mut Random) -> Window
    requires { day < walk.now.cells }
    ensures { IsWindowOf walk.now result }
{
    let reach = LONGEST_WINDOW / 2;
    let most = random.below(reach) + 1;
    let before = random.below(most).min(walk.cells / 2);
    let behind = random.below(reach);
    Window {
        start: (day + walk.cells - before) % walk.cells,
        len: (before + 1 + behind).min(walk.cells / 2),
    }
}

// A window: of a week at most, anywhere, where all days are open, and else one of open days.
fn drawn_window(walk: &Walk, domains: &DayDomains, random: &mut Random) -> Window
    requires domains { AreDomainsFor walk.now domains.now }
    ensures { IsWindowOf walk.now result }
{
    if domains.open().len() < walk.cells {
        return window_of_open(walk, domains, random);
    }
    let len = random.below(walk.days.min(LONGEST_WINDOW)) + 1;
    Window {
        start: random.below(walk.cells),
        len: len.min(walk.cells / 2),
    }
}

// A window from an open day on, with so many open days that are drawn, one of each weekday at most.
fn window_of_open(walk: &Walk, domains: &DayDomains, random: &mut Random) -> Window
    requires domains { AreDomainsFor walk.now domains.now }
    ensures { IsWindowOf walk.now result }
{
    let wanted = random.below(walk.days) + 1;
    let open = domains.open();
    if open.len() == 0 {
        return Window { start: 0, len: 0 };
    }
    let start = open.at(random.below(open.len()));
    Window {
        start,
        len: days_with(walk, domains, start, wanted),
    }
}

// The most days from a day on that have so many open days, one of each weekday at most: so what a window costs is the sum
// of what its days cost.
fn days_with(walk: &Walk, domains: &DayDomains, start: usize, wanted: usize) -> usize
    requires domains { AreDomainsFor walk.now domains.now }
    requires start { start < walk.now.cells }
    ensures few { result ≤ LONGEST_WINDOW }
    ensures within { result ≤ walk.now.cells }
{
    let longest = LONGEST_WINDOW.min(walk.cells / 2);
    let mut count: usize = 0;
    for after in 0..longest {
        if domains.is_open(walk.later(start, after)) {
            if count == wanted || has_weekday(walk, domains, start, after) {
                return after;
            }
            count += 1;
        }
    }
    longest
}

// Whether a day some whole weeks before the one that is so many days after the start, but not before the start, is open.
fn has_weekday(walk: &Walk, domains: &DayDomains, start: usize, after: usize) -> bool
    requires domains { AreDomainsFor walk.now domains.now }
    requires start { start < walk.now.cells }
    requires after { after ≤ walk.now.cells }
{
    let mut left = after;
    for _ in 0..LONGEST_WINDOW {
        let Some(earlier) = left.checked_sub(walk.days) else {
            return false;
        };
        if domains.is_open(walk.later(start, earlier)) {
            return true;
        }
        left = earlier;
    }
    false
}
