//! The laws between loads and covariances. Each function has an empty body: what it ensures is a
//! theorem.

ghost use Rattle.covariance_law.specs.Covariance.{EigenvaluesBoundForms, EnergiesBoundCovariances};

/// Alpha times the energy is at least beta times the sum of squares of some linear forms at every
/// displacement exactly where no combination of the forms has a variance above alpha / beta. The
/// energy is the form of a normal matrix that has an inverse.
pub fn energies_bound_covariances()
    ensures { EnergiesBoundCovariances }
{}

/// The greatest value of a form of two variables along a vector of length 1 is the greatest
/// eigenvalue of its matrix: a number bounds the one exactly where it bounds the other.
pub fn eigenvalues_bound_forms()
    ensures { EigenvaluesBoundForms }
{}
