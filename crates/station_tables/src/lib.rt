//! The table of station prices against accepted points: what setting up an instrument at a point
//! costs, or the first fault of the table; and the stations of candidates with their prices, as a
//! network takes them.
//!
//! Proved: the prices of a table of stations, or its first fault; the station of each candidate and
//! the price of each point, within the bounds of networks.
//!
//! Said by: `read_stations`, clauses `answer`, `accepted`; `stations_of`, `Stations::price`,
//! `first_station_fault_is_least`.
//!
//! Caller: `shown` of `table_tests/src/stations.rt`.
#![tactic(auto)]

mod fault;
mod laws;
mod network;
mod read;
mod record;
mod stations;

pub use fault::{StationAnswer, StationFault};
pub use laws::first_station_fault_is_least;
pub use network::stations_of;
pub use read::read_stations;
pub use record::StationRecord;
pub use stations::Stations;
