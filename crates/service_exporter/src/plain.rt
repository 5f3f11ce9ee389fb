//! The routes of an exporter as they are seen at a moment: copied in plain lists, and compared.
ghost use Rattle.std.specs.Prelude.{◌≡◌, ◌++◌, ◌∷◌, [], IfOk, OnOk};
ghost use Rattle.service_exporter.specs.Routes.{living};
ghost use Rattle.service_exporter.specs.Slots.{standing_in};

use crate::slots::Slot;
use crate::{Exporter, Route};
use base::{Alike, Copying, Items, NoMemory};
use std::alloc::Global;
use std::marker::Model;

/// A route under its number. A clause sees the pair.
#[derive(Drop)]
pub struct PlainRoute {
    number: u64,
    route: Route,
}

impl Model for PlainRoute {
    ghost use Rattle.service_exporter.specs.Routes.{Numbered};

    ghost Value = { Numbered };

    ghost view = { λ p. (p.number, p.route) };
}

/// What an exporter had at a moment. A clause sees its last number, and the routes that lived.
#[derive(Drop)]
pub struct PlainExporter {
    last: u64,
    routes: Items<PlainRoute>,
}

impl Model for PlainExporter {
    ghost use Rattle.service_exporter.specs.Routes as exporters;

    ghost Value = { exporters.Exporter };

    ghost view = { λ e. record { last = e.last; routes = e.routes } };
}

impl PlainExporter {
    ghost use Rattle.service_exporter.specs.Routes.{pruned_of};

    /// What is seen of an exporter at a moment. `NoMemory` where memory could not be had.
    pub(crate) fn of(
        alloc: Global,
        last: u64,
        slots: &[Slot],
        now: u64,
    ) -> Result<PlainExporter, NoMemory>
        ensures { IfOk result (λ plain. plain ≡ pruned_of now (record { last = last; routes = standing_in slots.now })) }
    {
        let routes = plain_routes(alloc, slots, now)?;
        Ok(PlainExporter {
            last,
            routes: Items::from_vec(routes),
        })
    }
}

/// The routes in slots that live at a moment.
#[tactic(auto, using(crate::proofs::Places::living_first))]
fn plain_routes(alloc: Global, slots: &[Slot], now: u64) -> Result<Vec<PlainRoute>, NoMemory>
    ensures { IfOk result (λ routes. routes.items ≡ living now (standing_in slots.now)) }
{
    let mut routes = Vec::new(alloc);
    for slot in slots {
        add_if_living(alloc, &mut routes, slot, now)?;
    }
    Ok(routes)
}

/// Appends the route in a slot, if there is one that lives at a moment.
fn add_if_living(
    alloc: Global,
    routes: &mut Vec<PlainRoute>,
    slot: &Slot,
    now: u64,
) -> Result<(), NoMemory>
    ensures { OnOk result (routes.new.items ≡ routes.old.items ++ living now (standing_in (slot.now ∷ []))) }
{
    match &slot.route {
        None => Ok(()),
        Some(route) => {
            if route.lives(now) {
                routes.push(PlainRoute {
                    number: slot.number,
                    route: route.copy(alloc)?,
                })?;
            }
            Ok(())
        }
    }
}

impl Alike for PlainRoute {
    fn is_like(&self, other: &PlainRoute) -> bool {
        self.number == other.number && self.route.is_like(&other.route)
    }
}

impl Alike for PlainExporter {
    fn is_like(&self, other: &PlainExporter) -> bool {
        self.last == other.last && self.routes.is_like(&other.routes)
    }
}
