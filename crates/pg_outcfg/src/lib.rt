//! Output frames of a stream: CFG-1 and CFG-2, header and data frames, and the count of configuration changes.
//! What no clause of IEEE C37.118.2 is named for is a rule of this project.
#![tactic(auto)]

mod config;
mod data;
mod head_prefix;
mod laws;
mod list;
mod stamp_cache;

pub use config::{OutCfg, header};
pub use data::{data_frame, data_frame_at_once, data_frame_near};
pub use head_prefix::HeadPrefix;
pub use laws::{config_is_read, data_is_read, quality_is_joined};
pub use list::{ConfigList, Listed};
pub use stamp_cache::StampCache;
