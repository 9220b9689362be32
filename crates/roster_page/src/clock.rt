// Numbers of minutes as texts.
ghost use Rattle.std.specs.Prelude.{◌≡◌, ◌++◌, ◌<◌, OnOk};
ghost use Rattle.made_problems.specs.Times.{day_minutes};
ghost use Rattle.roster_page.specs.Clock.{two_digits, hours_text, clock_text, later_text, moment_text};

use crate::pieces::{CLOSED, LATER, put};
use made_problems::DAY_MINUTES;
use rwsp_text::put_number;
use std::alloc::AllocError;

// Appends a number in two digits.
#[tactic(auto, unfolding(crate::specs::Clock::two_digits))]
fn put_two_digits(out: &mut Vec<u8>, n: u32) -> Result<(), AllocError>
    requires { n < 100 }
    ensures { OnOk result (out.new.items ≡ out.old.items ++ two_digits n) }
{
    out.push(b'0' + (n / 10) as u8)?;
    out.push(b'0' + (n % 10) as u8)?;
    Ok(())
}

/// Appends hours and minutes, as 37:20.
#[tactic(auto, unfolding(crate::specs::Clock::hours_text))]
pub fn put_hours(out: &mut Vec<u8>, minutes: u32) -> Result<(), AllocError>
    ensures { OnOk result (out.new.items ≡ out.old.items ++ hours_text minutes) }
{
    put_number(out, u64::from(minutes / 60))?;
    out.push(b':')?;
    put_two_digits(out, minutes % 60)
}

// Appends a time of day, as 06:00.
#[tactic(auto, unfolding(crate::specs::Clock::clock_text))]
fn put_clock(out: &mut Vec<u8>, minutes: u32) -> Result<(), AllocError>
    requires { minutes < day_minutes }
    ensures { OnOk result (out.new.items ≡ out.old.items ++ clock_text minutes) }
{
    put_two_digits(out, minutes / 60)?;
    out.push(b':')?;
    put_two_digits(out, minutes % 60)
}

// Appends how many days later, where it isn't the same day.
#[tactic(auto, unfolding(crate::specs::Clock::later_text))]
fn put_later(out: &mut Vec<u8>, days: u32) -> Result<(), AllocError>
    ensures { OnOk result (out.new.items ≡ out.old.items ++ later_text days) }
{
    if days == 0 {
        return Ok(());
    }
    put(out, LATER)?;
    put_number(out, u64::from(days))?;
    put(out, CLOSED)
}

/// Appends a number of minutes after midnight: the time of day, and how many days later.
#[tactic(auto, unfolding(crate::specs::Clock::moment_text))]
pub fn put_moment(out: &mut Vec<u8>, minutes: u32) -> Result<(), AllocError>
    ensures { OnOk result (out.new.items ≡ out.old.items ++ moment_text minutes) }
{
    put_clock(out, minutes % DAY_MINUTES)?;
    put_later(out, minutes / DAY_MINUTES)
}
