// Which symbols each day of a roster may have.
ghost use Rattle.std.specs.Prelude.{◌≡◌, ◌+◌, ◌<◌, length, IfOk};

use crate::numbers::Numbers;
use crate::setting::Setting;
use crate::table::Table;
use domain_store::Domains;
use rwsp_terms::Symbol;
use std::alloc::{AllocError, Global};

/// For each day of all weeks the symbols that it may have: domains, laid out for the many looks at them.
#[derive(Drop)]
pub(crate) struct DayDomains {
    // By day and symbol.
    left: Table<bool>,
    // The days that may have more symbols than one.
    undecided: Numbers,
    ghost undecided_below: { undecided.below ≡ left.rows },
}

impl DayDomains {
    ghost use Rattle.roster_finder.specs.DayDomains.{AreDomainsOf, HaveDaysOf};

    /// The symbols that domains have at each day.
    pub fn of(setting: Setting<'_>, domains: &Domains) -> Result<DayDomains, AllocError>
        requires { HaveDaysOf setting domains.now }
        ensures { IfOk result (AreDomainsOf setting.entry) }
    {
        let Setting { alloc, demand, .. } = setting;
        domains.prove_facts();
        let undecided = undecided_days(alloc, domains)?;
        let mut left = Table::new(alloc, demand.cells(), demand.symbols, false)?;
        put_symbols(&mut left, domains);
        Ok(DayDomains { left, undecided })
    }

    /// Whether a day may have a symbol.
    pub fn may_have(&self, day: usize, symbol: usize) -> bool
        requires day { day < self.now.left.rows }
        requires symbol { symbol < self.now.left.columns }
    {
        self.left.at(day, symbol)
    }

    /// Whether a day may have more symbols than one.
    pub fn is_open(&self, day: usize) -> bool
        requires day { day < self.now.left.rows }
    {
        let mut count: u32 = 0;
        for may_have in self.left.row(day) {
            if *may_have && count < 2 {
                count += 1;
            }
        }
        count > 1
    }

    /// The days that may have more symbols than one, in order.
    pub fn open(&self) -> &Numbers
        ensures { result.now ≡ self.now.undecided }
    {
        &self.undecided
    }
}

// The days that have more symbols than one.
fn undecided_days(alloc: Global, domains: &Domains) -> Result<Numbers, AllocError>
    ensures { IfOk result (λ days. days.below ≡ length domains.now.sets) }
{
    let mut undecided = Numbers::none(alloc, domains.cells() as usize);
    for p in 0..domains.cells() {
        if domains.size(p) > 1 {
            undecided.push(p as usize)?;
        }
    }
    Ok(undecided)
}

// Notes for each day and symbol whether the day's domain has it.
fn put_symbols(left: &mut Table<bool>, domains: &Domains)
    requires days { left.old.rows ≡ length domains.now.sets }
    requires symbols { left.old.columns ≡ domains.now.shifts + 1 }
    ensures rows { left.new.rows ≡ left.old.rows }
    ensures columns { left.new.columns ≡ left.old.columns }
{
    for p in 0..domains.cells() {
        for number in 0..domains.shifts() + 1 {
            let has = domains.has(p, Symbol { number });
            left.set(p as usize, usize::from(number), has);
        }
    }
}
