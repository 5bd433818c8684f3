//! Laws of certificates by dominance: lists of smaller matrices that show a form to be nowhere negative.

ghost use Rattle.std.specs.Prelude.{ℕ, ℤ, pos, ◌≤ℤ◌, List, IsFalse};
ghost use Rattle.whole_algebra.specs.Matrices.{quad, IsTriangle};
ghost use Rattle.whole_algebra.specs.Chains.{stops, lower_chain};
ghost use Rattle.whole_algebra.specs.Certificates.{IsDominant, CertificateHolds, lower_remainders};

/// A certificate that holds for a matrix shows its form to be negative on no list of whole numbers.
#[tactic(auto, using(crate::proofs::Dominance::dominant_nonneg, crate::proofs::Dominance::certificate_nonneg))]
pub fn certificate_is_sound()
    ensures dominant { (m : List (List ℤ)) (x : List ℤ) → IsDominant m → pos 0 ≤ℤ quad m x }
    ensures certified { (remainders : List (List (List ℤ))) (m : List (List ℤ)) (x : List ℤ)
        → CertificateHolds remainders m → pos 0 ≤ℤ quad m x }
{}

/// The matrices that a lower chain leaves, where it doesn't stop, are a certificate that holds.
#[tactic(auto, using(crate::proofs::LowerCertificate::lower_chain_certifies))]
pub fn lower_chain_is_a_certificate()
    ensures { (n : ℕ) (m : List (List ℤ))
        → IsTriangle n m → IsFalse (stops (lower_chain m))
        → CertificateHolds (lower_remainders n m) m }
{}
