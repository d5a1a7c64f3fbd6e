//! Laws on logs: what is read of their texts, which step is refused, and one text with a formula and its log.
#![tactic(auto)]

ghost use Rattle.log_laws.specs.Joined.{JudgedAsApart, PrintedIsJudged};
ghost use Rattle.log_laws.specs.Refused.{RejectedAtTheFirst};
ghost use Rattle.log_laws.specs.Spelled.{ReadAsSpelled, RefusedAtItsFault, SpelledOrFaulty};

/// An LRAT text is read as the log that it spells, and any other text is refused at its first line that says no step.
pub fn logs_are_read_as_spelled()
    ensures spells { ReadAsSpelled }
    ensures faults { RefusedAtItsFault }
    ensures either { SpelledOrFaulty }
{}

/// The step that a checker rejects is the first that is refused, or one past the last where all go on and none adds the empty clause.
pub fn first_refused_step_is_named()
    ensures { RejectedAtTheFirst }
{}

/// A formula, a line `c proof` and a log in one text are judged as the formula and the log apart; and so what is printed of a formula and of a log is
/// judged as these two.
pub fn one_text_is_judged_as_two()
    ensures apart { JudgedAsApart }
    ensures printed { PrintedIsJudged }
{}
