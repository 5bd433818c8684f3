use candidate_tables::Candidates;
use geo_model::{Network, Plan};
use point_tables::Points;

// A plan of the network of two tables, with the redundancy that is asked for, in thousandths.
#[derive(Clone, Copy)]
pub(crate) struct Reported<'a> {
    pub points: &'a Points,
    pub candidates: &'a Candidates,
    pub q: u32,
    pub network: &'a Network,
    pub plan: &'a Plan,
}
