// Laws of the definitions. Each function's contract is the law, and specs/Laws.antt states it.
ghost use Rattle.refutation_terms.specs.Laws.{TreesAreAsSaid, WalksReadTrees, SidesAreAsSaid, DomainsAreAsSaid, IdleIsAsSaid, OverIsAsSaid, DomainsAreNeverEmpty, WindowsAreOver, SidesTakeAll, SidesShareNone, WindowsAreClean, PartsAreClean, FewerRulesAreClean, WindowsWeighEnough, WindowsWeighExactly, TurningKeepsRules, TurningKeepsLists, SomeTurnHasIt, FreeWeekendsAreWeeks, TurnsHaveFreeWeekends, PassingLeavesNoRoster, ScarcestTurnIsOne, PassingIsNotSpent, BlockCountsFit};
ghost use Rattle.refutation_terms.specs.TextLaws.{SpelledLinesFit, FittingLinesAreSpelled, TextsAreDistinct, VerdictIsUnique};

/// A log that passes, with a turn, a goal or given cells or without, and a roster that meets the rules that it names,
/// has as many free weekends as the goal and holds the cells exclude each other.
pub fn passing_leaves_no_roster()
    ensures { PassingLeavesNoRoster }
{}

/// In weeks of seven days the free weekends of a roster are the weeks with days 6 and 7 off, and a word that goes
/// through the whole roster a number of times has them that many times.
pub fn free_weekends_are_weeks()
    ensures weeks { FreeWeekendsAreWeeks }
    ensures turns { TurnsHaveFreeWeekends }
{}

/// The number of blocks that a roster has of a symbol is one that counting days alone lets it have.
pub fn block_counts_fit()
    ensures { BlockCountsFit }
{}

/// Within the domains, every window of a roster is a word over them, from every position, for every length.
pub fn windows_are_over()
    ensures { WindowsAreOver }
{}

/// The two sides of a split take in every roster within the domains, and share none.
pub fn sides_part_rosters()
    ensures all { SidesTakeAll }
    ensures none_twice { SidesShareNone }
{}

/// A roster that meets the rules of a list has only windows that are clean for it.
pub fn windows_are_clean()
    ensures { WindowsAreClean }
{}

/// A window of whole turns of a roster that meets the days weighs at least the total for each turn, and exactly that
/// where each demand is a single number.
pub fn windows_weigh_enough()
    ensures enough { WindowsWeighEnough }
    ensures exactly { WindowsWeighExactly }
{}

/// Turning a roster by whole weeks keeps every rule met and not met; so some turned roster has in week 1 what must
/// be there.
pub fn turning_keeps_rules()
    ensures each { TurningKeepsRules }
    ensures lists { TurningKeepsLists }
    ensures some { SomeTurnHasIt }
{}

/// The turn to the scarcest shift is one.
pub fn scarcest_turn_is_one()
    ensures { ScarcestTurnIsOne }
{}

/// A log that passes is not spent, whatever the budget.
pub fn passing_is_not_spent()
    ensures { PassingIsNotSpent }
{}

/// A clean word stays clean when it is cut at either end, and when rules are taken out of the list.
pub fn clean_stays_clean()
    ensures parts { PartsAreClean }
    ensures fewer { FewerRulesAreClean }
{}

/// No domain at a line is empty where no earlier split is idle.
pub fn domains_are_never_empty()
    ensures { DomainsAreNeverEmpty }
{}

/// A whole tree is one leaf line, or a split followed by two whole trees; a walk from the front reads exactly these.
pub fn trees_are_as_said()
    ensures trees { TreesAreAsSaid }
    ensures walks { WalksReadTrees }
{}

/// A line is in the first side of a split where no front of the lines between is a whole tree, and in the second
/// where one is and no front of the lines behind it is; the domains at a line are what these sides leave.
pub fn domains_are_as_said()
    ensures sides { SidesAreAsSaid }
    ensures domains { DomainsAreAsSaid }
{}

/// A split isn't idle where its symbol is in the domain beside another.
pub fn idle_is_as_said()
    ensures { IdleIsAsSaid }
{}

/// A word over domains from a position has at each place a symbol of the domain there, round the cycle.
pub fn over_is_as_said()
    ensures { OverIsAsSaid }
{}

/// Bytes that spell a line are its text, and the line fits the problem; the text of a line that fits spells it.
pub fn lines_have_one_spelling()
    ensures fit { SpelledLinesFit }
    ensures spelled { FittingLinesAreSpelled }
{}

/// No two logs that fit a problem have one text.
pub fn texts_are_distinct()
    ensures { TextsAreDistinct }
{}

/// A text has one verdict at most as a log of a kind.
pub fn the_verdict_is_unique()
    ensures { VerdictIsUnique }
{}
