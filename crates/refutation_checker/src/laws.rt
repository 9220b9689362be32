// Laws of verdicts. Each function's contract is the law.
ghost use Rattle.refutation_checker.specs.Laws.{TextsHaveAVerdict};

/// No text is without a verdict as a log of a kind: it is that of a log that passes, or it is refused for a cause. That
/// it has one at most is `texts_have_one_verdict` of `refutation_log`.
pub fn texts_have_a_verdict()
    ensures { TextsHaveAVerdict }
{}
