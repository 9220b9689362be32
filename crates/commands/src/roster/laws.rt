// Laws of what `roster` answers. Each function's contract is the law.
ghost use Rattle.commands.specs.RosterLaws.{PlansAreGivenBack, BestsAreGivenBack, StaffsAreGivenBack, StaffsSpellNoRoster, ShownRostersStand};

/// To what `plan` prints of a roster that meets every rule, `roster` answers the roster.
pub fn plans_are_given_back()
    ensures { PlansAreGivenBack }
{}

/// And so to what `best` prints with one, whatever names the shifts have.
pub fn bests_are_given_back()
    ensures { BestsAreGivenBack }
{}

/// And to what `staff` prints with one, where that isn't the text of a roster with other weeks.
pub fn staffs_are_given_back()
    ensures { StaffsAreGivenBack }
{}

/// It is none where a week hasn't three days or no shift has the name `weeks`.
pub fn staffs_spell_no_roster()
    ensures { StaffsSpellNoRoster }
{}

/// No roster is shown but of bytes that as a whole spell it, or are what `best` or `staff` prints with it.
pub fn shown_rosters_stand()
    ensures { ShownRostersStand }
{}
