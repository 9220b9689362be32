// Laws of the definitions. Each function's contract is the law.
ghost use Rattle.roster_print.specs.Laws.{TextSpellsOneRoster, RefusalsDecideSpelling, RefusalsAreFirst, SpelledIsRoster, PrintedIsSpelled, PrintedIsShort};

/// A text spells one roster at most.
pub fn text_spells_one_roster()
    ensures { TextSpellsOneRoster }
{}

/// A text that isn't refused spells a roster, and one that is refused spells none.
pub fn refusals_decide_spelling()
    ensures { RefusalsDecideSpelling }
{}

/// Where weeks have days, a text is refused for exactly what fails first in it. A line is named where each line in
/// front is a week or without words, and this one is neither: what stands in front of it can be gone on with to a text
/// that spells a roster, unless it has too many weeks, and with the line it can't. The number of weeks is named where
/// each line is a week or without words: with too few the text can be gone on with, and with too many it can't.
pub fn refusals_are_first()
    ensures { RefusalsAreFirst }
{}

/// What a text spells has a symbol for each cell.
pub fn spelled_is_roster()
    ensures { SpelledIsRoster }
{}

/// The printed text of a roster of a valid problem spells it.
pub fn printed_is_spelled()
    ensures { PrintedIsSpelled }
{}

/// The printed text of a roster of a valid problem is short enough to be read.
pub fn printed_is_short()
    ensures { PrintedIsShort }
{}
