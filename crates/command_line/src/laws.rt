// Laws of the words of a command line. Each function's contract is the law.
ghost use Rattle.std.specs.Prelude.{◌≡◌, ◌↔◌, List, ℕ, Some};
ghost use Rattle.crew_calendar.specs.Calendar.{Date, IsDateWord};
ghost use Rattle.crew_calendar.proofs.DateWords.{date_in};

/// A word is read as a date exactly where it names it.
pub fn dates_are_named()
    ensures { (word : List ℕ) (date : Date) → (date_in word ≡ Some date) ↔ IsDateWord word date }
{}
