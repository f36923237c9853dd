//! A source's line: its link, and whether its connection was ever up.

ghost use Rattle.std.specs.Prelude.{◌≡◌, [], true, false, IfOk};
ghost use Rattle.pg_gateway.specs.State.{SharedMachine};
ghost use Rattle.pg_gateway.specs.Shown.{GatewayShows};
ghost use Rattle.pg_serve.specs.Inputs.{outcome};
ghost use Rattle.pg_serve.specs.WorldStates.{SourceLinkPast, new_source_link};
ghost use Rattle.pg_serve.specs.Shown.{SourceLinkShows};
ghost use Rattle.pg_serve.specs.Taking.{GoesUp, TakesBytes};

use crate::feeding::{commands_owed, feed_link, give_commands};
use crate::input::Output;
use pg_gateway::Gateway;
use pg_ingest::Link;
use pg_wire::{PmuId, Refusal};
use std::alloc::{AllocError, Global};

/// A source's link, and whether its connection was ever up: a link that had no connection sends nothing.
#[derive(Drop)]
pub(crate) struct SourceLink {
    pub(crate) link: Link,
    pub(crate) is_up: bool,
}

impl SourceLink {
    /// A new line. The one refusal is `NoMemory`.
    pub(crate) fn new(alloc: Global, source: PmuId) -> Result<SourceLink, Refusal>
        ensures shows { IfOk result (λ line. SourceLinkShows line (new_source_link source)) }
    {
        Ok(SourceLink {
            link: Link::new(alloc, source)?,
            is_up: false,
        })
    }

    /// The connection is up: what is to be sent.
    pub(crate) fn go_up(&mut self, alloc: Global) -> Result<Vec<u8>, AllocError>
        ensures goes { IfOk result (λ frames. (line : SourceLinkPast) → SourceLinkShows self.old line → GoesUp line frames.items self.new) }
    {
        self.link.reset();
        self.is_up = true;
        Ok(commands_owed(alloc, &mut self.link)?)
    }

    /// The source's bytes came: what they make, and what is to be sent, in place of what the output held.
    pub(crate) fn take(
        &mut self,
        gateway: &mut Gateway,
        bytes: &[u8],
        output: &mut Output,
    ) -> Result<(), AllocError>
        ensures takes { IfOk result (λ _. (S : SharedMachine) (line : SourceLinkPast) → GatewayShows gateway.old S → SourceLinkShows self.old line
            → TakesBytes S line bytes.now (outcome output.new) gateway.new self.new) }
    {
        output.notes.clear();
        output.to_pmu.clear();
        feed_link(gateway, &mut self.link, bytes, &mut output.notes)?;
        if !self.is_up {
            return Ok(());
        }
        give_commands(&mut self.link, &mut output.to_pmu)?;
        Ok(())
    }
}
