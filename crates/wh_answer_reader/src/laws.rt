//! The law of reading answers: a printed answer is read back as it was.

ghost use Rattle.std.specs.Prelude.{◌≡◌, Option, Some};
ghost use Rattle.wh_answer.specs.Stands.{Reads, Stands};
ghost use Rattle.wh_answer.specs.Texts.{report_text};
ghost use Rattle.wh_answer.specs.declared.report.Report.{Report};

/// What is read from the line of an answer is that answer.
pub fn read_back()
    ensures { (r : Report) (found : Option Report) → Stands r → Reads Stands report_text (report_text r) found → found ≡ Some r }
{}
