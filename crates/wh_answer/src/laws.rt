//! The law of answers: a line is of one answer.

ghost use Rattle.std.specs.Prelude.{◌≡◌};
ghost use Rattle.wh_answer.specs.Stands.{Stands};
ghost use Rattle.wh_answer.specs.Texts.{report_text};
ghost use Rattle.wh_answer.specs.declared.report.Report.{Report};

/// Answers with the same line are the same.
pub fn one_answer()
    ensures { (r s : Report) → Stands r → Stands s → report_text r ≡ report_text s → r ≡ s }
{}
