//! What stands at a key of the registry.
ghost use Rattle.std.specs.Prelude.{◌≡◌, option_map};
ghost use Rattle.std.specs.Arc.{arc_value};
ghost use Rattle.pg_registry.specs.Registered.{unannounced, announcing, taking, refusing};

use pg_audit::PmuStats;
use pg_config::PmuConfig;
use pg_wire::Refusal;
use std::marker::Model;
use std::sync::Arc;

/// A registered PMU: what it announced last, and its counters.
#[derive(Drop)]
pub(crate) struct Pmu {
    config: Option<Arc<PmuConfig>>,
    stats: PmuStats,
}

impl Model for Pmu {
    ghost use Rattle.std.specs.Prelude.{option_map};
    ghost use Rattle.std.specs.Arc.{arc_value};
    ghost use Rattle.pg_registry.specs.Registered.{Pmu as PmuValue};

    ghost Value = { PmuValue };

    ghost view = { λ p. record { config = option_map arc_value p.config; stats = p.stats } };
}

impl Pmu {
    /// One that has announced nothing, all counters at 0.
    pub(crate) fn new() -> Pmu
        ensures { result ≡ unannounced }
    {
        Pmu {
            config: None,
            stats: PmuStats::new(),
        }
    }

    /// Puts a configuration in the place of the one before it.
    pub(crate) fn announce(&mut self, config: Arc<PmuConfig>)
        ensures { self.new ≡ announcing (arc_value config) self.old }
    {
        self.config = Some(config);
    }

    /// Counts a block that was taken.
    pub(crate) fn count_taken(&mut self)
        ensures { self.new ≡ taking self.old }
    {
        self.stats.count_taken();
    }

    /// Counts a refusal under the number of its reason.
    pub(crate) fn count_refusal(&mut self, refusal: Refusal)
        ensures { self.new ≡ refusing refusal self.old }
    {
        self.stats.count_refusal(refusal);
    }

    /// What it announced last.
    pub(crate) fn config(&self) -> Option<&Arc<PmuConfig>>
        ensures { option_map (λ config. arc_value config.now) result ≡ self.now.config }
    {
        self.config.as_ref()
    }

    /// Its counters.
    pub(crate) fn stats(&self) -> &PmuStats
        ensures { result.now ≡ self.now.stats }
    {
        &self.stats
    }
}
