//! What the workers of the running service share: mailboxes, the poll that a worker waits with, its ready queue, how sources and
//! ports stand, the gate that counts what goes through it, the registry's names by worker, the resolver, and the log's writer. All of it is a rule
//! of this project.
#![tactic(auto)]

mod acceptor;
mod advice;
mod assignment;
mod connections;
mod directory;
mod edits;
mod edits_in_force;
mod logger;
mod mail;
mod metered_gate;
mod poller;
mod ready_queue;
mod reasons;
mod resolver;
mod rules;
mod status_collector;
mod stderr_poll;
mod targets;
mod worker_handles;

pub use acceptor::{ACCEPTED, AcceptTimer, Acceptor};
pub use advice::{Advice, MemberDelays, StreamPace, behind_of, is_late_after};
pub use assignment::Assignment;
pub use connections::{Connections, ConnectionsWorker};
pub use directory::{Change, Directory, FollowUp};
pub use edits::post_edits;
pub use edits_in_force::EditsInForce;
pub use logger::Logger;
pub use mail::{Mailbox, PortOrder, SourceOrder};
pub use metered_gate::{ClockCheck, GateStats, Guards, MeteredGate};
pub use poller::{LONGEST_WAIT_MS, Poller, sooner};
pub use ready_queue::{READS, ReadyQueue};
pub use reasons::ended;
pub use resolver::{Lookup, Resolver, ResolverWorker};
pub use rules::ConnectionRules;
pub use status_collector::{LinkState, PortReport, Reports, SourceReport, StatusCollector};
pub use targets::{Address, Dial, Target, Targets};
pub use worker_handles::WorkerHandles;
