use geo_model::Plan;

/// The best plan that a search has found so far: none, one that is certified, or one that is
/// unsettled, that is, neither certified nor refuted.
#[derive(Debug, Drop)]
pub enum Best {
    NoPlan,
    Certified(Plan),
    Unsettled(Plan),
}
