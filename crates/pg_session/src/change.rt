//! How the CFG-1 list of a subscriber changes.

ghost use Rattle.std.specs.Prelude.{◌≡◌, ◌<◌, List, length, map, option_map, not, All};
ghost use Rattle.pg_outcfg.specs.Listing.{config_at};
ghost use Rattle.pg_session.specs.Shape.{same_config, same_at, same_list};
ghost use Rattle.pg_session.specs.Changing.{IsOfParts, list_after, keys_changed};
ghost use Rattle.pg_session.specs.Events.{announced_at};
ghost use Rattle.pg_session.specs.Private.{put_all};

use pg_config::{PmuConfig, SourceConfig};
use pg_outcfg::ConfigList;
use pg_wire::PmuKey;

/// What becomes of some PMUs in a CFG-1 list.
#[derive(Clone, Copy)]
pub(crate) enum Change<'a> {
    /// A PMU has this configuration.
    Put(PmuKey, &'a PmuConfig),
    /// Those PMUs of a source, by their places in its configuration, have what it says of them.
    PutAll(&'a SourceConfig, &'a [usize]),
    /// A PMU is in the list no more.
    Remove(PmuKey),
}

/// Whether a PMU's block is the same but for CFGCNT, or the PMU is absent both times.
pub(crate) fn is_same(before: Option<&PmuConfig>, after: Option<&PmuConfig>) -> bool
    ensures { result ≡ same_config (option_map (λ c. c.now) before.entry) (option_map (λ c. c.now) after.entry) }
{
    match (before, after) {
        (None, None) => true,
        (Some(before), Some(after)) => before.is_same_but_count(after),
        _ => false,
    }
}

/// The configuration of a PMU in the list.
pub(crate) fn config_of<'a>(listed: &'a ConfigList, key: &PmuKey) -> Option<&'a PmuConfig>
    ensures { option_map (λ c. c.now) result ≡ config_at listed.now key.now }
{
    match listed.get(key) {
        Some(config) => Some(config),
        None => None,
    }
}

/// The configuration of a PMU in the list once those PMUs of a source were put into it.
fn after_all<'a>(
    config: &'a SourceConfig,
    places: &[usize],
    listed: &'a ConfigList,
    key: &PmuKey,
) -> Option<&'a PmuConfig>
    requires places { All (λ i. i < length config.now.parts) places.now }
    ensures { option_map (λ c. c.now) result ≡ config_at (put_all listed.now (announced_at config.now places.now)) key.now }
{
    for place in places {
        if *key == config.key(*place) {
            return Some(&config.parts[*place]);
        }
    }
    config_of(listed, key)
}

impl<'a> Change<'a> {
    /// The configuration of a PMU in the list after the change.
    pub fn after(&'a self, listed: &'a ConfigList, key: &PmuKey) -> Option<&'a PmuConfig>
        requires places { IsOfParts self.now }
        ensures { option_map (λ c. c.now) result ≡ config_at (list_after listed.now self.now) key.now }
    {
        match self {
            Change::Put(changed, config) => {
                if *key == *changed {
                    Some(*config)
                } else {
                    config_of(listed, key)
                }
            }
            Change::PutAll(config, places) => after_all(config, places, listed, key),
            Change::Remove(changed) => {
                if *key == *changed {
                    None
                } else {
                    config_of(listed, key)
                }
            }
        }
    }

    /// Whether a PMU's block is another one after the change, CFGCNT aside, or the PMU comes or goes.
    pub fn concerns(&self, listed: &ConfigList, key: &PmuKey) -> bool
        requires places { IsOfParts self.now }
        ensures { result ≡ not (same_config (config_at listed.now key.now) (config_at (list_after listed.now self.now) key.now)) }
    {
        !is_same(config_of(listed, key), self.after(listed, key))
    }

    /// Whether the change makes another CFG-1 list, CFGCNT aside.
    pub fn counts(&self, listed: &ConfigList) -> bool
        requires places { IsOfParts self.now }
        ensures { result ≡ not (same_list listed.now (list_after listed.now self.now)) }
    {
        match self {
            Change::Put(key, _) => self.concerns(listed, key),
            Change::PutAll(config, places) => self.concerns_one(listed, config, places),
            Change::Remove(key) => self.concerns(listed, key),
        }
    }

    /// Whether the change is one for one of those PMUs of a source.
    fn concerns_one(&self, listed: &ConfigList, config: &SourceConfig, places: &[usize]) -> bool
        requires own { IsOfParts self.now }
        requires places { All (λ i. i < length config.now.parts) places.now }
        ensures { result ≡ not (same_at listed.now (list_after listed.now self.now) (map (λ a. a.key) (announced_at config.now places.now))) }
    {
        for place in places {
            if self.concerns(listed, &config.key(*place)) {
                return true;
            }
        }
        false
    }
}
