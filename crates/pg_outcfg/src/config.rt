//! The count of configuration changes, and the frames CFG-1, CFG-2 and header.
ghost use Rattle.std.specs.Prelude.{◌≡◌, ◌⊎◌, ℕ, ◌+◌, ◌<◌, ◌≤◌, ◌++◌, ◌^◌, length, map, IfOk, IfErr, vec_len, vec_capacity};
ghost use Rattle.std.specs.Map.{values_of};
ghost use Rattle.pg_wire.specs.Stream.{joined};
ghost use Rattle.pg_config.specs.Writing.{block_with_count};
ghost use Rattle.pg_stream.specs.Limits.{IsWithinLimits};
ghost use Rattle.pg_outcfg.specs.Places.{shown};
ghost use Rattle.pg_outcfg.specs.Frames.{changed, effective_of, cfg1_frame, cfg2_frame, header_frame};

use crate::list::{ConfigList, Listed};
use pg_config::{end_config, start_config, write_header};
use pg_stream::Definition;
use pg_wire::{Kind, PmuKey, Refusal};
use std::alloc::Global;
use std::marker::Model;

/// The count of a stream's configuration changes: how many events since its definition changed the CFG-1 list, modulo
/// 65536. Each block of CFG-1 and CFG-2 carries it as CFGCNT.
#[derive(Clone, Copy, PartialEq, Eq)]
pub struct OutCfg {
    count: u16,
}

impl Model for OutCfg {
    ghost use Rattle.std.specs.Prelude.{ℕ, ◌<◌, ◌^◌};

    ghost Value = { ℕ };

    ghost view = { λ c. c.count };

    ghost inverse = { λ n. record { count = n } };

    ghost invariant = { λ c. c.count < 2 ^ 16 };
}

impl OutCfg {
    /// No change yet.
    pub fn new() -> OutCfg
        ensures value { result ≡ 0 }
    {
        OutCfg { count: 0 }
    }

    /// The count of changes, modulo 65536.
    pub fn count(&self) -> u16
        ensures value { result ≡ self.now }
    {
        self.count
    }

    /// One change more: the count goes up by one, modulo 65536.
    pub fn changed(&mut self)
        ensures value { self.new ≡ changed self.old }
    {
        self.count = self.count.wrapping_add(1);
    }

    /// The frame CFG-1 of a stream (C37.118.2, 6.4): what the subscriber may see, all PMUs of `listed` by rising key, at the
    /// stream's resolution and rate, each block with this count. `soc` is the last tick's SOC, 0 before any.
    ///
    /// It asks for a definition that `check_definition` accepts. The one refusal is `NoMemory`; the frame is one
    /// allocation of its size.
    pub fn cfg1(
        &self,
        alloc: Global,
        definition: &Definition,
        soc: u32,
        listed: &ConfigList,
    ) -> Result<Vec<u8>, Refusal>
        requires limits { IsWithinLimits definition.now }
        ensures frame { IfOk result (λ v. v.items ≡ cfg1_frame definition.now self.now soc listed.now) }
        ensures least { IfOk result (λ v. 24 ≤ vec_len v) }
        ensures most { IfOk result (λ v. vec_len v ≤ 64024) }
        ensures memory { IfErr result (λ refusal. refusal ≡ Refusal.NoMemory) }
    {
        write_listed(alloc, definition, self.count, soc, listed.as_slice())
    }

    /// The frame CFG-2 of a stream (C37.118.2, 6.4): what it reports now, those of its members that stand in `listed`, in
    /// the definition's order, at the stream's resolution and rate, each block with this count. `soc` is the last tick's
    /// SOC, 0 before any.
    ///
    /// It asks for a definition that `check_definition` accepts. The one refusal is `NoMemory`; the frame is one
    /// allocation of its size.
    pub fn cfg2(
        &self,
        alloc: Global,
        definition: &Definition,
        soc: u32,
        listed: &ConfigList,
    ) -> Result<Vec<u8>, Refusal>
        requires limits { IsWithinLimits definition.now }
        ensures frame { IfOk result (λ v. v.items ≡ cfg2_frame definition.now self.now soc listed.now) }
        ensures least { IfOk result (λ v. 24 ≤ vec_len v) }
        ensures most { IfOk result (λ v. vec_len v ≤ 64024) }
        ensures memory { IfErr result (λ refusal. refusal ≡ Refusal.NoMemory) }
    {
        write_effective(alloc, definition, self.count, soc, listed)
    }
}

/// The header frame of a stream (C37.118.2, 6.5), with the definition's text. `soc` is the last tick's SOC, 0 before any.
///
/// It asks for a definition that `check_definition` accepts. The one refusal is `NoMemory`; the frame is one allocation of
/// its size.
pub fn header(alloc: Global, definition: &Definition, soc: u32) -> Result<Vec<u8>, Refusal>
    requires limits { IsWithinLimits definition.now }
    ensures frame { IfOk result (λ v. v.items ≡ header_frame definition.now soc) }
    ensures least { IfOk result (λ v. 16 ≤ vec_len v) }
    ensures most { IfOk result (λ v. vec_len v ≤ 1040) }
    ensures memory { IfErr result (λ refusal. refusal ≡ Refusal.NoMemory) }
{
    write_header(alloc, definition.stream, soc, definition.header.as_slice())
}

/// How many bytes the configuration blocks of these PMUs have.
fn listed_len(listed: &[Listed]) -> u16
    requires { length listed.now ≤ 32 }
    ensures value { (count : ℕ) → result ≡ length (joined (map (block_with_count count) (values_of (map shown listed.now)))) }
    ensures most { result ≤ 64000 }
{
    let mut len = 0;
    for one in listed {
        len += one.config.config_len() as u16;
    }
    len
}

/// Adds the blocks of these PMUs, each with this CFGCNT, in the room that is there.
fn add_listed(frame: &mut Vec<u8>, count: u16, listed: &[Listed])
    requires { vec_len frame.old + length (joined (map (block_with_count count) (values_of (map shown listed.now)))) ≤ vec_capacity frame.old }
    ensures bytes { frame.new.items ≡ frame.old.items ++ joined (map (block_with_count count) (values_of (map shown listed.now))) }
    ensures room { vec_capacity frame.old ≤ vec_capacity frame.new }
{
    for one in listed {
        one.config.add_to(frame, count);
    }
}

/// CFG-1.
fn write_listed(
    alloc: Global,
    definition: &Definition,
    count: u16,
    soc: u32,
    listed: &[Listed],
) -> Result<Vec<u8>, Refusal>
    requires limits { IsWithinLimits definition.now }
    requires few { length listed.now ≤ 32 }
    ensures frame { IfOk result (λ v. v.items ≡ cfg1_frame definition.now count soc (map shown listed.now)) }
    ensures least { IfOk result (λ v. 24 ≤ vec_len v) }
    ensures most { IfOk result (λ v. vec_len v ≤ 64024) }
    ensures memory { IfErr result (λ refusal. refusal ≡ Refusal.NoMemory) }
{
    let blocks = listed.len() as u16;
    let len = listed_len(listed);
    let mut frame = start_config(
        alloc,
        Kind::CfgOne,
        definition.stream,
        soc,
        definition.base,
        blocks,
        len,
    )?;
    add_listed(&mut frame, count, listed);
    end_config(&mut frame, definition.rate);
    Ok(frame)
}

/// How many of the members stand in the list, and how many bytes their configuration blocks have.
fn effective_len(members: &[PmuKey], listed: &ConfigList) -> (u16, u16)
    requires { length members.now ≤ 32 }
    ensures blocks { result.0 ≡ length (effective_of listed.now members.now) }
    ensures value { (count : ℕ) → result.1 ≡ length (joined (map (block_with_count count) (effective_of listed.now members.now))) }
    ensures most { result.1 ≤ 64000 }
{
    let mut blocks = 0;
    let mut len = 0;
    for key in members {
        if let Some(config) = listed.get(key) {
            blocks += 1;
            len += config.config_len() as u16;
        }
    }
    (blocks, len)
}

/// Adds the blocks of the members that stand in the list, each with this CFGCNT, in the room that is there.
fn add_effective(frame: &mut Vec<u8>, count: u16, members: &[PmuKey], listed: &ConfigList)
    requires { vec_len frame.old + length (joined (map (block_with_count count) (effective_of listed.now members.now))) ≤ vec_capacity frame.old }
    ensures bytes { frame.new.items ≡ frame.old.items ++ joined (map (block_with_count count) (effective_of listed.now members.now)) }
    ensures room { vec_capacity frame.old ≤ vec_capacity frame.new }
{
    for key in members {
        if let Some(config) = listed.get(key) {
            config.add_to(frame, count);
        }
    }
}

/// CFG-2.
fn write_effective(
    alloc: Global,
    definition: &Definition,
    count: u16,
    soc: u32,
    listed: &ConfigList,
) -> Result<Vec<u8>, Refusal>
    requires limits { IsWithinLimits definition.now }
    ensures frame { IfOk result (λ v. v.items ≡ cfg2_frame definition.now count soc listed.now) }
    ensures least { IfOk result (λ v. 24 ≤ vec_len v) }
    ensures most { IfOk result (λ v. vec_len v ≤ 64024) }
    ensures memory { IfErr result (λ refusal. refusal ≡ Refusal.NoMemory) }
{
    let members = definition.members.as_slice();
    let (blocks, len) = effective_len(members, listed);
    let mut frame = start_config(
        alloc,
        Kind::CfgTwo,
        definition.stream,
        soc,
        definition.base,
        blocks,
        len,
    )?;
    add_effective(&mut frame, count, members, listed);
    end_config(&mut frame, definition.rate);
    Ok(frame)
}
