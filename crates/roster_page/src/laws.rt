// Laws of the definitions. Each function's contract is the law.
ghost use Rattle.roster_page.specs.Laws.{PagesAreReadBack, PagesShowOneRoster, NamesAreReadBack};

/// The weeks of a page, read back from its whole text, are those of the roster, and the names of its cells name the
/// roster's symbols.
pub fn pages_are_read_back()
    ensures { PagesAreReadBack }
{}

/// The cells of a page are those of one roster.
pub fn pages_show_one_roster()
    ensures { PagesShowOneRoster }
{}

/// A name is read back from its text.
pub fn names_are_read_back()
    ensures { NamesAreReadBack }
{}
