// A law of verdicts. The function's contract is the law.
ghost use Rattle.crew_checker.specs.Laws.{StaffTextsHaveAVerdict};

/// No text is without a verdict: it decides numbers of weeks, or it is refused. That it has one at most is
/// `staff_texts_have_one_verdict` of `crew_size`.
pub fn staff_texts_have_a_verdict()
    ensures { StaffTextsHaveAVerdict }
{}
