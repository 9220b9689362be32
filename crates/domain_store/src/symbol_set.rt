// Sets of symbols.
ghost use Rattle.std.specs.Prelude.{◌≡◌, ◌≢◌, ℕ, ◌+◌, ◌<◌, ◌≤◌, List, [], ◌∷◌, length, MatchOption, slice_get, IsTrue, ◌↔◌};
ghost use Rattle.std.specs.List.{range_with_len};
ghost use Rattle.domain_store.specs.Sets.{has_symbol, without_symbol};

use rwsp_terms::limits::MOST_SYMBOLS;
use std::marker::Model;

/// A set of symbols whose numbers are below `MOST_SYMBOLS`, seen as the ascending list of the numbers. Each symbol has
/// the bit of its number.
#[derive(Clone, Copy)]
pub struct SymbolSet {
    bits: u16,
}

impl Model for SymbolSet {
    ghost use Rattle.std.specs.Prelude.{List, ℕ, ◌<◌, ◌^◌};
    ghost use Rattle.rwsp_terms.specs.declared.limits.TheConstants.{MOST_SYMBOLS};
    ghost use Rattle.domain_store.specs.Sets.{symbols_of, bits_of};
    ghost use Rattle.domain_store.specs.Bits.{bits_of_symbols};

    ghost Value = { List ℕ };

    ghost view = { λ s. symbols_of s.bits };

    ghost invariant = { λ s. s.bits < 2 ^ MOST_SYMBOLS };

    ghost inverse = { λ set. record { bits = bits_of set } };

    ghost inverse_ok = { λ s small i. record { bits = bits_of_symbols s.bits small i } };
}

impl SymbolSet {
    /// No symbol.
    #[tactic(auto, using(crate::proofs::BitLemmas::no_bits))]
    pub fn empty() -> SymbolSet
        ensures { result ≡ [] }
    {
        SymbolSet { bits: 0 }
    }

    /// All symbols up to the last.
    #[tactic(auto, using(crate::proofs::BitLemmas::low_bits, crate::proofs::BitLemmas::low_bits_fit))]
    pub fn up_to(last: u8) -> SymbolSet
        requires { last < MOST_SYMBOLS }
        ensures { result ≡ range_with_len 0 (last + 1) }
    {
        SymbolSet {
            bits: (1 << (last + 1)) - 1,
        }
    }

    /// The one symbol.
    #[tactic(auto, using(crate::proofs::BitLemmas::one_bit, crate::proofs::BitLemmas::one_bit_fits))]
    pub fn single(x: u8) -> SymbolSet
        requires { x < MOST_SYMBOLS }
        ensures { result ≡ x ∷ [] }
    {
        SymbolSet { bits: 1 << x }
    }

    /// Whether both have the same symbols.
    pub fn is_same(&self, other: &SymbolSet) -> bool
        ensures { IsTrue result ↔ (self.now ≡ other.now) }
    {
        self.bits == other.bits
    }

    /// The set less the symbol.
    #[tactic(auto, using(crate::proofs::BitLemmas::bit_cleared, crate::proofs::BitLemmas::cleared_fits))]
    pub fn without(&self, x: u8) -> SymbolSet
        requires { x < MOST_SYMBOLS }
        ensures { result ≡ without_symbol x self.now }
    {
        SymbolSet {
            bits: self.bits & !(1 << x),
        }
    }

    /// Whether the set has the symbol.
    #[tactic(auto, using(crate::proofs::BitLemmas::has_bit, crate::proofs::BitLemmas::has_no_bit_past))]
    pub fn has(&self, x: u8) -> bool
        ensures { result ≡ has_symbol self.now x }
    {
        u32::from(x) < MOST_SYMBOLS && (self.bits >> x) & 1 == 1
    }

    /// The number of symbols.
    pub fn size(&self) -> u32
        ensures value { result ≡ length self.now }
        ensures few { result ≤ MOST_SYMBOLS }
    {
        self.bits.count_ones()
    }

    /// The lowest symbol.
    #[tactic(auto, using(crate::proofs::BitLemmas::no_bits))]
    pub fn first(&self) -> Option<u8>
        ensures { result ≡ slice_get self.now 0 }
    {
        if self.bits == 0 {
            None
        } else {
            Some(self.bits.trailing_zeros() as u8)
        }
    }

    /// The symbol, where there is just one.
    #[tactic(auto, using(crate::proofs::SetLemmas::only_number, crate::proofs::SetLemmas::no_number))]
    pub fn only(&self) -> Option<u8>
        ensures { MatchOption result (length self.now ≢ 1) (λ x. self.now ≡ x ∷ []) }
    {
        if self.size() == 1 { self.first() } else { None }
    }

    /// Whether the set has the symbol and no other.
    pub fn is_only(&self, x: u8) -> bool
        ensures { IsTrue result ↔ (self.now ≡ x ∷ []) }
    {
        self.only() == Some(x)
    }
}
