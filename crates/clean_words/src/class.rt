// Whether a symbol is in a class.
ghost use Rattle.std.specs.Prelude.{◌≡◌};
ghost use Rattle.clean_words.specs.Blocks.{in_class};

use rwsp_terms::{Class, Symbol};

pub fn is_in(class: Class, x: Symbol) -> bool
    ensures { result ≡ in_class class x }
{
    match class {
        Class::Shift(shift) => x.number == shift.number,
        Class::Off => x.number == 0,
        Class::Work => x.number > 0,
    }
}
