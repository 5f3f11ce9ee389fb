//! What is seen of an exporter at a moment, under its name.
ghost use Rattle.std.specs.Prelude.{◌≡◌, IfOk};
ghost use Rattle.service_exporter.specs.Routes.{pruned_of};

use base::{Alike, NoMemory};
use bytes::Bytes;
use service_exporter::{Exporter, PlainExporter};
use std::alloc::Global;
use std::marker::Model;

/// What an exporter had at a moment, under its name. A clause sees the pair.
#[derive(Drop)]
pub struct NamedExporter {
    name: Bytes,
    exporter: PlainExporter,
}

impl Model for NamedExporter {
    ghost use Rattle.service_routes.specs.Routes.{Name};
    ghost use Rattle.service_exporter.specs.Routes as exporters;

    ghost Value = { Name × exporters.Exporter };

    ghost view = { λ e. (e.name, e.exporter) };
}

impl NamedExporter {
    /// What is seen of an exporter at a moment. `NoMemory` where memory could not be had.
    pub(crate) fn of(
        alloc: Global,
        name: &Bytes,
        exporter: &Exporter,
        now: u64,
    ) -> Result<NamedExporter, NoMemory>
        ensures { IfOk result (λ plain. plain ≡ (name.now, pruned_of now exporter.now.exporter)) }
    {
        Ok(NamedExporter {
            name: name.clone()?,
            exporter: exporter.plain(alloc, now)?,
        })
    }
}

impl Alike for NamedExporter {
    fn is_like(&self, other: &NamedExporter) -> bool {
        self.name.is_like(&other.name) && self.exporter.is_like(&other.exporter)
    }
}
