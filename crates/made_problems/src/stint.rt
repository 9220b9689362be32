// Stints of work and days off.
ghost use Rattle.std.specs.Prelude.{◌≡◌, ◌+◌, ◌<◌, ◌≤◌, ◌^◌};
ghost use Rattle.made_problems.specs.Draws.{state_after};
ghost use Rattle.made_problems.specs.Stints.{stint_days, stint_of_days, drawn_stint, pattern_of, IsUsual};

use crate::draws::Draws;

// Days of a stint.
const LEAST_STINT: u32 = 6;

const MOST_STINT: u32 = 11;
// Days off in a stint, and the days of work that come before them.
const LEAST_OFF: u32 = 2;

const MOST_OFF: u32 = 4;

const LEAST_WORK: u32 = 4;

const MOST_WORK: u32 = 7;

/// The shifts of a stint's work: day shifts alone, afternoon shifts behind day shifts, or night shifts at the end.
#[derive(Clone, Copy)]
pub enum Pattern {
    Day,
    Afternoon,
    Night,
}

fn pattern_of(number: u32) -> Pattern
    ensures { result ≡ pattern_of number }
{
    match number {
        0 => Pattern::Day,
        1 => Pattern::Afternoon,
        _ => Pattern::Night,
    }
}

/// Days of work and then days off.
#[derive(Clone, Copy)]
pub struct Stint {
    pub work: u32,
    pub off: u32,
    pub pattern: Pattern,
}

impl Stint {
    /// All its days.
    pub fn days(self) -> u32
        requires { stint_days self < 2 ^ 32 }
        ensures { result ≡ stint_days self }
    {
        self.work + self.off
    }
}

// A stint of this length, by two draws.
fn stint_of_days(draws: &mut Draws, days: u32) -> Stint
    requires { (6 ≤ days) × (days ≤ 11) }
    ensures value { result ≡ stint_of_days draws.old days }
    ensures days { stint_days result ≡ days }
    ensures usual { IsUsual result }
    ensures state { draws.new ≡ state_after draws.old 2 }
{
    let least = LEAST_OFF.max(days.saturating_sub(MOST_WORK));
    let most = MOST_OFF.min(days - LEAST_WORK);
    let off = draws.between(least, most);
    let pattern = pattern_of(draws.between(0, 2));
    Stint {
        work: days - off,
        off,
        pattern,
    }
}

/// The next stint, where this many days are left: it takes all of them, or leaves 6 or more.
pub fn draw_stint(draws: &mut Draws, left: u32) -> Stint
    requires { 6 ≤ left }
    ensures value { result ≡ drawn_stint draws.old left }
    ensures usual { IsUsual result }
    ensures last { left ≤ 11 → stint_days result ≡ left }
    ensures more { 11 < left → (6 + stint_days result ≤ left) × (draws.new ≡ state_after draws.old 3) }
{
    if left <= MOST_STINT {
        return stint_of_days(draws, left);
    }
    let days = draws.between(LEAST_STINT, MOST_STINT.min(left - LEAST_STINT));
    stint_of_days(draws, days)
}
