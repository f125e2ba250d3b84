//! From the reader's reasons for refusing a text to the words of reports.

ghost use Rattle.std.specs.Prelude.{◌≡◌};
ghost use Rattle.wh_top_naming.specs.Rows.{reason_of};

use wh_answer::ReasonWord;
use wh_read::Reason;

/// The word for a reason.
pub fn word_of(reason: &Reason) -> ReasonWord
    ensures { result ≡ reason_of reason.now }
{
    match reason {
        Reason::BadByte => ReasonWord::BadByte,
        Reason::BadNumber => ReasonWord::BadNumber,
        Reason::NameTooLong => ReasonWord::NameTooLong,
        Reason::Syntax => ReasonWord::Syntax,
        Reason::UnknownName => ReasonWord::UnknownName,
        Reason::Twice => ReasonWord::Twice,
        Reason::IllTyped => ReasonWord::IllTyped,
        Reason::NotPattern => ReasonWord::NotPattern,
        Reason::OpenSide => ReasonWord::OpenSide,
        Reason::NewMeta => ReasonWord::NewMeta,
        Reason::HeadNotFun => ReasonWord::HeadNotFun,
        Reason::UnevenRules => ReasonWord::UnevenRules,
        Reason::TooMany => ReasonWord::TooMany,
    }
}
