// Laws of the definitions. Each function's contract is the law.
ghost use Rattle.crew_calendar.specs.Facts.{DemandIsMetDaily, EmployeesFollowTheCycle, EmployeesKeepTheRules, EmployeesGoRound};
ghost use Rattle.crew_calendar.specs.OnDate.{DatesHaveOneText};
ghost use Rattle.crew_calendar.specs.ReadDates.{DatesAreAsInTables};
ghost use Rattle.crew_calendar.specs.ContentLines.{LinesAreReadBack, TextsAreReadBack, RowsAreShort, CharactersStayWhole};
ghost use Rattle.crew_calendar.specs.ReadEvents.{EventsAreReadBack, DutiesAreListed};
ghost use Rattle.crew_calendar.specs.Csv.{RecordsAreReadBack};
ghost use Rattle.crew_calendar.specs.Sheet.{SheetsAreOne, SheetsAreReadBack, SheetsAreAsTables};
ghost use Rattle.crew_calendar.specs.Laws.{TablesAreOne, DutiesAreOne, EventsAreOne, WordsNameOneDate};

/// Where a roster meets all rules, on each day at least as many employees as the least demand and at most as many as
/// the greatest have each symbol, the day off too.
pub fn demand_is_met_daily()
    ensures { DemandIsMetDaily }
{}

/// An employee's days in a row are the cycle of the roster, from the week of his number on.
pub fn employees_follow_the_cycle()
    ensures { EmployeesFollowTheCycle }
{}

/// Where a roster meets all rules, no days in a row of an employee break one.
pub fn employees_keep_the_rules()
    ensures { EmployeesKeepTheRules }
{}

/// In as many days in a row as the cycle has, from any day on, an employee is once at each position.
pub fn employees_go_round()
    ensures { EmployeesGoRound }
{}

/// A table has one text.
pub fn tables_are_one()
    ensures { TablesAreOne }
{}

/// The duties of an employee have one text.
pub fn duties_are_one()
    ensures { DutiesAreOne }
{}

/// A word names one date at most.
pub fn words_name_one_date()
    ensures { WordsNameOneDate }
{}

/// Who works on a date has one text.
pub fn dates_have_one_text()
    ensures { DatesHaveOneText }
{}

/// Read from both texts, the name that the table of all employees has for an employee on a date is that of the line in
/// which his number stands in who works on that date, and it stands in no other line.
pub fn dates_are_as_in_tables()
    ensures { DatesAreAsInTables }
{}

/// The events of an employee's duties have one text.
pub fn events_are_one()
    ensures { EventsAreOne }
{}

/// A line without CR is read back from how it is written.
pub fn lines_are_read_back()
    ensures { LinesAreReadBack }
{}

/// A text is read back from how it is escaped.
pub fn texts_are_read_back()
    ensures { TextsAreReadBack }
{}

/// Each row of a line has at most 75 bytes.
pub fn rows_are_short()
    ensures { RowsAreShort }
{}

/// No row of a line begins within a character.
pub fn characters_stay_whole()
    ensures { CharactersStayWhole }
{}

/// The events of a calendar, read back from its whole text, are the employee's duties, with their moments and names.
pub fn events_are_read_back()
    ensures { EventsAreReadBack }
{}

/// The text of an employee's duties is a line for each of them.
pub fn duties_are_listed()
    ensures { DutiesAreListed }
{}

/// Records are read back from how they are written.
pub fn records_are_read_back()
    ensures { RecordsAreReadBack }
{}

/// A sheet has one text.
pub fn sheets_are_one()
    ensures { SheetsAreOne }
{}

/// The records of a sheet, read back from its text, are its head and its days.
pub fn sheets_are_read_back()
    ensures { SheetsAreReadBack }
{}

/// The days of a sheet, read back from its text, have the cells of the table of the same days, read back from its own.
pub fn sheets_are_as_tables()
    ensures { SheetsAreAsTables }
{}
