//! Laws of answers: of what a check answers on the bytes of a certificate, and on what the search found.

ghost use Rattle.wh_top.specs.Laws.{LoopsAreAccepted, LoopsMeanUnbounded, ProofsAreAccepted, ProofsMeanBounded};
ghost use Rattle.std.specs.Prelude.{◌≤◌, ℕ, List, length};
ghost use Rattle.wh_types.specs.Limits.{certificate_limit};
ghost use Rattle.wh_answer.specs.declared.report.Report.{Report};
ghost use Rattle.wh_pairs.specs.PairData.{PairData};
ghost use Rattle.wh_system.specs.Systems.{SystemData};
ghost use Rattle.wh_system.specs.WellMade.{IsWellMadeSystem};
ghost use Rattle.wh_top_replies.specs.Complete.{AreOneAnswer};
ghost use Rattle.wh_top_judging.specs.Outcomes.{Judged};

use wh_checker::valid_certificates_mean_bounded;
use wh_no::valid_claims_are_unbounded;

/// The bytes of a certificate come to one answer. The one exception: values may exceed both limits in one node. So a
/// check answers `YES` exactly where the bytes are the text of a valid certificate of termination in which no value
/// exceeds a limit, and `NO` exactly where they are the text of a valid one of non-termination.
pub fn checks_have_one_answer()
    ensures { (d : SystemData) (ps : List PairData) (bytes : List ℕ) (a b : Report) → IsWellMadeSystem d
        → Judged d ps bytes a → Judged d ps bytes b → AreOneAnswer a b }
{}

/// The bytes of a certificate within the limit come to an answer. So the answer to a check is this one, except where
/// values exceed both limits in one node.
pub fn each_check_has_an_answer()
    ensures { (d : SystemData) (ps : List PairData) (bytes : List ℕ) → IsWellMadeSystem d → length bytes ≤ certificate_limit
        → (o : Report) × Judged d ps bytes o }
{}

/// The text of a proof is that of no other certificate, and the certificate has no fault: so the check, given the text,
/// accepts.
pub fn proofs_are_accepted()
    ensures { ProofsAreAccepted }
{}

/// The text of a loop's certificate is that of no other certificate, and the certificate has no fault: so the check,
/// given the text, accepts.
pub fn loops_are_accepted()
    ensures { LoopsAreAccepted }
{}

/// A proof that the search finds means that every well-typed term is bounded (Kop 2012; Fuhs and Kop 2019).
pub fn proofs_mean_bounded()
    ensures { ProofsMeanBounded }
{
    valid_certificates_mean_bounded();
}

/// A loop that the search finds means that the term of its certificate has reductions of every length.
pub fn loops_mean_unbounded()
    ensures { LoopsMeanUnbounded }
{
    valid_claims_are_unbounded();
}
