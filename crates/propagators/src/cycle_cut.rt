// Symbols that no clean word of two turns has.
ghost use Rattle.std.specs.Prelude.{◌≡◌, ℕ, ◌<◌, ◌↔◌, length, IsTrue, MatchOption};
ghost use Rattle.rwsp_terms.specs.declared.data.Symbol.{Symbol};
ghost use Rattle.propagators.specs.Known.{KnowsDomains};
ghost use Rattle.propagators.specs.CycleCuts.{IsUnsupported};

use crate::Cycle;
use domain_store::Domains;
use rwsp_terms::Symbol;

/// The first symbol, by position and then by number, that is beside another in its domain while no clean word of
/// two turns has it there. Asks for the symbols of the pending positions, and settles those where each is supported;
/// at all others it takes a step.
pub fn first_unsupported(cycle: &mut Cycle, doms: &Domains) -> Option<(u32, Symbol)>
    requires { KnowsDomains cycle.old doms.now }
    ensures cut { MatchOption result
        ((p : ℕ) (x : Symbol) → IsUnsupported cycle.old doms.now p x → ⊥)
        (λ r. IsUnsupported cycle.old doms.now r.0 r.1) }
    ensures same { cycle.new ≡ cycle.old }
{
    for p in 0..doms.cells() {
        if let Some(x) = unsupported_at(cycle, doms, p) {
            return Some((p, x));
        }
    }
    None
}

// The first at the position. Where there is none, the position is settled.
fn unsupported_at(cycle: &mut Cycle, doms: &Domains, p: u32) -> Option<Symbol>
    requires stands { KnowsDomains cycle.old doms.now }
    requires position { p < length doms.now.sets }
    ensures cut { MatchOption result
        ((x : Symbol) → IsUnsupported cycle.old doms.now p x → ⊥)
        (λ x. IsUnsupported cycle.old doms.now p x) }
    ensures same { cycle.new ≡ cycle.old }
{
    doms.prove_facts();
    if !cycle.is_pending(p) {
        return None;
    }
    let Some(x) = unsupported_symbol(cycle, doms, p) else {
        cycle.settle(p);
        return None;
    };
    Some(x)
}

// The first at the position, of all symbols.
fn unsupported_symbol(cycle: &Cycle, doms: &Domains, p: u32) -> Option<Symbol>
    requires stands { KnowsDomains cycle.now doms.now }
    requires position { p < length doms.now.sets }
    ensures { MatchOption result
        ((x : Symbol) → IsUnsupported cycle.now doms.now p x → ⊥)
        (λ x. IsUnsupported cycle.now doms.now p x) }
{
    doms.prove_facts();
    for number in 0..doms.shifts() + 1 {
        let x = Symbol { number };
        if is_unsupported(cycle, doms, p, x) {
            return Some(x);
        }
    }
    None
}

// Whether the symbol is beside another there, while no word has it.
fn is_unsupported(cycle: &Cycle, doms: &Domains, p: u32, x: Symbol) -> bool
    requires stands { KnowsDomains cycle.now doms.now }
    requires position { p < length doms.now.sets }
    ensures { IsTrue result ↔ IsUnsupported cycle.now doms.now p x }
{
    doms.prove_facts();
    if doms.size(p) < 2 {
        return false;
    }
    if !doms.has(p, x) {
        return false;
    }
    !cycle.supported(p, x)
}
