// Demands.
ghost use Rattle.std.specs.Prelude.{◌≡◌, position};
ghost use Rattle.rwsp_file.specs.Reading.{written_demand, range_of, range_from, is_dot};

use rwsp_terms::Bounds;
use rwsp_text::number;

fn range_from(least: Option<u32>, rest: &[u8]) -> Option<Bounds>
    ensures { result ≡ range_from least rest.now }
{
    let least = least?;
    let (dot, greatest) = rest.split_first()?;
    if *dot != b'.' {
        return None;
    }
    let greatest = number(greatest)?;
    Some(Bounds { least, greatest })
}

fn place_of_dot(text: &[u8]) -> Option<usize>
    ensures { result ≡ position is_dot text.now }
{
    text.iter().position(|b| *b == b'.')
}

fn range(text: &[u8]) -> Option<Bounds>
    ensures { result ≡ range_of text.now }
{
    let place = place_of_dot(text)?;
    range_from(number(&text[..place]), &text[place + 1..])
}

/// The demand that a text spells, as the least and the greatest number.
pub fn demand(text: &[u8]) -> Option<Bounds>
    ensures { result ≡ written_demand text.now }
{
    match number(text) {
        Some(n) => Some(Bounds {
            least: n,
            greatest: n,
        }),
        None => range(text),
    }
}
