//! Laws of loops: the term of a valid claim has reductions of every length, and a certificate has one first fault.

ghost use Rattle.std.specs.Prelude.{◌≡◌, ◌⊎◌, ℕ, List};
ghost use Rattle.wh_terms.specs.Typing.{Symbols};
ghost use Rattle.wh_terms.specs.Rules.{RewriteRule, AreWellMade};
ghost use Rattle.wh_terms.specs.declared.path.Step as taken;
ghost use Rattle.wh_text.specs.RawTree.{RTm};
ghost use Rattle.wh_step.specs.Reduction.{Unbounded};
ghost use Rattle.wh_system.specs.Systems.{SystemData};
ghost use Rattle.wh_system.specs.WellMade.{IsWellMadeSystem};
ghost use Rattle.wh_cert.specs.Written as written;
ghost use Rattle.wh_cert.specs.Written.{Cert, no};
ghost use Rattle.wh_no.specs.declared.check.AcceptedNo as check;
ghost use Rattle.wh_no.specs.declared.fault.NoFault as fault;
ghost use Rattle.wh_no.specs.declared.fault.NoFault.{NoFault};
ghost use Rattle.wh_no.specs.Claim.{Claim};
ghost use Rattle.wh_no.specs.Faults.{IsFirstFault, IsAccepted, IsValidNo};
ghost use Rattle.wh_no.specs.Valid.{IsValid};

/// The term of a valid claim has reductions of every length, since it can go round its loop as often as it takes.
pub fn valid_claims_are_unbounded()
    ensures { (S : Symbols) (rules : List RewriteRule) (c : Claim) → AreWellMade S rules → IsValid S rules c → Unbounded rules c.term }
{}

/// One fault at most is the first of a certificate.
pub fn one_first_fault()
    ensures { (d : SystemData) (cert : Cert) (f g : fault.NoFault) → AreWellMade d.symbols d.rules → IsFirstFault d cert f
        → IsFirstFault d cert g → f ≡ g }
{}

/// A certificate that is accepted has no fault; so the check accepts exactly the certificates of valid claims.
pub fn accepted_or_refused()
    ensures { (d : SystemData) (cert : Cert) (accepted : check.AcceptedNo) (f : fault.NoFault) → AreWellMade d.symbols d.rules
        → IsAccepted d cert accepted → IsFirstFault d cert f → ⊥ }
{}

/// A NO certificate is valid, or one of its conditions is the first that is false.
pub fn claims_are_valid_or_have_a_first_fault()
    ensures { (d : SystemData) (raw : RTm) (steps : List taken.Step) (at : List ℕ) (lines : List written.Put) → IsWellMadeSystem d
        → IsValidNo d (no raw steps at lines) ⊎ ((f : NoFault) × IsFirstFault d (no raw steps at lines) f) }
{}
