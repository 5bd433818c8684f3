ghost use Rattle.std.specs.Prelude.{◌≡◌, ◌↔◌, ◌≢◌, ◌<◌, ◌≤◌, ℕ, length, Some, IsNone, IfOk, slice_get};
ghost use Rattle.design_rows.specs.Bounds.{AreUnknowns};
ghost use Rattle.design_rows.specs.Unknowns.{is_same, is_same_component, number_of, unknowns_of};

use crate::numbering::{coordinates_of, push_orientations};
use candidate_tables::Candidates;
use geo_base::NoMemory;
use geo_model::{Component, Unknown};
use point_tables::Points;
use std::alloc::Global;
use std::marker::Model;

/// The unknowns of a network, each at its number. Contracts see them as their list.
#[derive(Debug, Drop)]
pub struct Columns {
    unknowns: Vec<Unknown>,
}

impl Model for Columns {
    ghost use Rattle.std.specs.Prelude.{List};
    ghost use Rattle.geo_model.specs.declared.network.Unknown.{Unknown};

    ghost Value = { List Unknown };

    ghost view = { λ columns. columns.unknowns.items };

    ghost use Rattle.design_rows.specs.Bounds.{AreUnknowns};

    ghost invariant = { λ columns. AreUnknowns columns.unknowns.items };
}

// Whether two components are the same.
fn is_same_component(first: Component, second: Component) -> bool
    ensures { result ≡ is_same_component first second }
{
    match (first, second) {
        (Component::X, Component::X) => true,
        (Component::Y, Component::Y) => true,
        (Component::Z, Component::Z) => true,
        (Component::Turn, Component::Turn) => true,
        _ => false,
    }
}

// Whether two unknowns are the same.
pub(crate) fn is_same(first: Unknown, second: Unknown) -> bool
    ensures { result ≡ is_same first second }
{
    is_same_component(first.component, second.component) && first.point == second.point
}

// The place of an unknown among others.
#[tactic(auto, unfolding(crate::specs::Unknowns::number_of))]
fn place_in(unknowns: &[Unknown], wanted: Unknown) -> Option<usize>
    ensures { result ≡ number_of unknowns.now wanted }
{
    unknowns.iter().position(|other| is_same(wanted, *other))
}

impl Columns {
    /// Numbers the unknowns of these points and candidates: the coordinates point by point, x and y
    /// where the plane part is new and then z where the height part is, and then the orientations
    /// of the stations of directions, both in the order of the points table. Refused for want of
    /// memory alone.
    pub fn number(
        alloc: Global,
        points: &Points,
        candidates: &Candidates,
    ) -> Result<Columns, NoMemory>
        ensures { IfOk result (λ columns. columns ≡ unknowns_of points.now candidates.now) }
    {
        let mut unknowns = coordinates_of(alloc, points)?;
        push_orientations(&mut unknowns, points, candidates)?;
        Ok(Columns { unknowns })
    }

    /// The unknowns, each at its number: at most 4000, which all differ.
    pub fn unknowns(&self) -> &[Unknown]
        ensures value { result.now ≡ self.now }
        ensures bounds { AreUnknowns self.now }
    {
        self.unknowns.as_slice()
    }

    /// The number of an unknown, counted from 0. None where the component is none of the unknowns.
    pub fn find(&self, unknown: Unknown) -> Option<u32>
        ensures place { result ≡ number_of self.now unknown }
        ensures found { (k : ℕ) → (result ≡ Some k) ↔ (slice_get self.now k ≡ Some unknown) }
        ensures none { IsNone result ↔ ((k : ℕ) → slice_get self.now k ≢ Some unknown) }
    {
        match place_in(self.unknowns.as_slice(), unknown) {
            Some(place) => Some(place as u32),
            None => None,
        }
    }
}
