// Laws of the text of logs. Each function's contract is the law.
ghost use Rattle.refutation_log.specs.Laws.{TextsHaveOneHeader, LogsHaveOneText, TextsOfLogsAreRead, TextsHaveOneVerdict, UnreadTextsHaveOneCause};

/// A text begins with one header at most, of whatever kind.
pub fn texts_have_one_header()
    ensures { TextsHaveOneHeader }
{}

/// No two logs that fit a problem, of one kind or of two, have one text.
pub fn logs_have_one_text()
    ensures { LogsHaveOneText }
{}

/// The text of a whole log that fits is not refused by reading as a log of its kind. So it is read, and as this log,
/// unless there is no memory.
pub fn texts_of_logs_are_read()
    ensures { TextsOfLogsAreRead }
{}

/// As a log of a kind a text has one verdict at most, for each valid problem: a log that passes, or one cause on one
/// line.
pub fn texts_have_one_verdict()
    ensures { TextsHaveOneVerdict }
{}

/// A text that `read_log` refuses has one cause: no other refusal fits it.
#[tactic(auto, using(crate::proofs::OneCause::one_cause))]
pub fn unread_texts_have_one_cause()
    ensures { UnreadTextsHaveOneCause }
{}
