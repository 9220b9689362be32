// What the symbols of a day gain.
ghost use Rattle.std.specs.Prelude.{◌≡◌, ◌+◌, ◌<◌, IfOk};
ghost use Rattle.rwsp_terms.specs.Instance.{shift_count};
ghost use Rattle.rwsp_terms.specs.declared.limits.TheConstants.{GREATEST_REWARD, GREATEST_WEIGHT};
ghost use Rattle.clean_words.specs.Rows.{IsWithin};
ghost use Rattle.clean_words.specs.Trellis.{trellis};
ghost use Rattle.clean_words.specs.Choices.{AreDayGains, AreGains, gain_within, gains_behind};

use crate::{CleanWords, Gain};
use domain_store::SymbolSet;
use rwsp_terms::Symbol;
use std::alloc::{AllocError, Global};

/// What each symbol gains on a day, behind work and behind the day off; None where the domain hasn't the symbol.
#[derive(Drop)]
pub struct DayGains {
    pub behind_work: Vec<Option<i32>>,
    pub behind_off: Vec<Option<i32>>,
}

impl DayGains {
    /// The gains of a day.
    pub fn on<G: Gain>(
        alloc: Global,
        words: &CleanWords<'_>,
        gain: &G,
        day: u32,
    ) -> Result<DayGains, AllocError>
        requires { day < words.now.days }
        ensures { IfOk result (λ gains. AreDayGains (trellis words.now (G.gain_of gain.now)) day gains) }
    {
        let behind_work = gains_on(alloc, words, gain, day, false)?;
        let behind_off = gains_on(alloc, words, gain, day, true)?;
        Ok(DayGains {
            behind_work,
            behind_off,
        })
    }

    /// The gains behind the day off, or behind work.
    pub fn behind(&self, off: bool) -> &[Option<i32>]
        ensures { result.now ≡ gains_behind self.now off }
    {
        if off {
            &self.behind_off
        } else {
            &self.behind_work
        }
    }
}

// What each symbol gains on a day, where the day before is off or not.
fn gains_on<G: Gain>(
    alloc: Global,
    words: &CleanWords<'_>,
    gain: &G,
    day: u32,
    behind_off: bool,
) -> Result<Vec<Option<i32>>, AllocError>
    requires { day < words.now.days }
    ensures { let count = shift_count words.now.automaton.now.problem + 1 in IfOk result
        (λ gains. AreGains (trellis words.now (G.gain_of gain.now)) day behind_off count gains.items) }
{
    words.prove_facts();
    let domain = words.domains.set(words.place(day));
    let mut gains = Vec::new(alloc);
    for number in 0..words.domains.shifts() + 1 {
        gains.push(gain_within(domain, gain, day, behind_off, number))?;
    }
    Ok(gains)
}

// What a symbol gains, if the domain has it.
fn gain_within<G: Gain>(
    domain: &SymbolSet,
    gain: &G,
    day: u32,
    behind_off: bool,
    number: u8,
) -> Option<i32>
    ensures value { result ≡ gain_within domain.now (G.gain_of gain.now) day behind_off number }
    ensures light { IsWithin (GREATEST_WEIGHT + GREATEST_REWARD) result }
{
    if domain.has(number) {
        Some(gain.gain(day, behind_off, Symbol { number }))
    } else {
        None
    }
}
