ghost use Rattle.std.specs.Prelude.{◌≡◌, ◌+◌, ◌-◌, ◌≤◌, ◌↔◌, ℤ, pos, ◌≤ℤ◌, List, [], length, get_or, All, IsTrue, IsFalse, IfOk, MatchOption};
ghost use Rattle.std.specs.Option.{ForSome};
ghost use Rattle.whole_algebra.specs.Matrices.{quad};
ghost use Rattle.whole_algebra.specs.Chains.{stops, lower_chain};
ghost use Rattle.whole_algebra.specs.Certificates.{CertificateHolds, lower_remainders};
ghost use Rattle.lent_parts.specs.Triangle.{IsTri};
ghost use Rattle.psd_cert.specs.Sizes.{Fits};
ghost use Rattle.psd_cert.specs.Certificate.{IsCertificate};
ghost use Rattle.psd_cert.specs.Lower.{last_matrix as last_of};

use crate::lower::lower_step;
use crate::{fits, step_holds};
use geo_base::NoMemory;
use lent_parts::Tri;
use std::alloc::Global;
use std::marker::Model;

/// A certificate that a quadratic form is nowhere negative: claimed remainders of the sizes `n - 1`
/// down to 0, with entries of at most `2^61` in size. Contracts see it as their list.
#[derive(Debug, Drop)]
pub struct SquareCert {
    remainders: Vec<Tri>,
}

impl Model for SquareCert {
    ghost use Rattle.std.specs.Prelude.{List, ℤ};
    ghost use Rattle.psd_cert.specs.Certificate.{IsKeptCertificate};

    ghost Value = { List (List (List ℤ)) };

    ghost view = { λ cert. cert.remainders.items };

    ghost invariant = { λ cert. IsKeptCertificate cert.remainders.items };
}

impl SquareCert {
    /// The remainders of the lower chain from `first`, a certificate that holds; None exactly where
    /// that chain stops.
    pub fn make(alloc: Global, first: &Tri) -> Result<Option<SquareCert>, NoMemory>
        requires { Fits first.now }
        ensures remainders { IfOk result (λ answer. MatchOption answer (IsTrue (stops (lower_chain first.now)))
            (λ cert. IsFalse (stops (lower_chain first.now)) × (cert ≡ lower_remainders (length first.now) first.now))) }
        ensures holds { IfOk result (λ answer. ForSome answer (λ cert.
            (length cert ≡ length first.now) × CertificateHolds cert first.now)) }
    {
        let mut remainders = Vec::new(alloc);
        for _step in 0..first.size() {
            let Some(left) = lower_step(alloc, last_matrix(first, &remainders))? else {
                return Ok(None);
            };
            if !fits(&left) {
                return Ok(None);
            }
            remainders.push(left)?;
        }
        Ok(Some(SquareCert { remainders }))
    }

    /// The certificate with these remainders, whose sizes go down by one to 0.
    pub fn new(remainders: Vec<Tri>) -> SquareCert
        requires sizes { IsCertificate (length remainders.items) remainders.items }
        requires fits { All Fits remainders.items }
        ensures { result ≡ remainders.items }
    {
        SquareCert { remainders }
    }

    /// The remainder of step `t`, counted from 1.
    pub fn remainder(&self, t: u32) -> &Tri
        requires low { 1 ≤ t }
        requires high { t ≤ length self.now }
        ensures value { result.now ≡ get_or self.now (t - 1) [] }
        ensures shape { IsTri (length self.now - t) result.now }
        ensures fits { Fits result.now }
    {
        &self.remainders[t as usize - 1]
    }

    // All remainders.
    fn remainders(&self) -> &[Tri]
        ensures value { result.now ≡ self.now }
        ensures sizes { IsCertificate (length self.now) self.now }
        ensures fits { All Fits self.now }
    {
        self.remainders.as_slice()
    }
}

/// Whether each step of the certificate holds, from `first` on. If so, the form of `first` is
/// negative on no list of whole numbers.
pub fn holds(first: &Tri, cert: &SquareCert) -> bool
    requires size { length cert.now ≡ length first.now }
    requires fits { Fits first.now }
    ensures exact { IsTrue result ↔ CertificateHolds cert.now first.now }
    ensures nowhere_negative { IsTrue result → (x : List ℤ) → pos 0 ≤ℤ quad first.now x }
{
    holds_from(first, cert.remainders())
}

// Whether each step to these remainders holds.
fn holds_from(current: &Tri, remainders: &[Tri]) -> bool
    requires size { length current.now ≡ length remainders.now }
    requires sizes { IsCertificate (length remainders.now) remainders.now }
    requires fits { Fits current.now }
    requires remainders_fit { All Fits remainders.now }
    ensures { IsTrue result ↔ CertificateHolds remainders.now current.now }
{
    match remainders {
        [] => true,
        [remainder, rest @ ..] => step_holds(current, remainder) && holds_from(remainder, rest),
    }
}

// The last of the remainders, or `first` where there is none.
fn last_matrix<'a>(first: &'a Tri, remainders: &'a [Tri]) -> &'a Tri
    ensures { result.now ≡ last_of first.now remainders.now }
{
    match remainders {
        [.., last] => last,
        [] => first,
    }
}
