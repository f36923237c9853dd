//! The slow reference: a stream by the whole list of its arrivals, where each answer is looked for in all of them. Each
//! contract is the definition itself.
ghost use Rattle.std.specs.Prelude.{◌≡◌, ◌+◌, ◌<◌, ◌^◌, ◌↔◌, [], length, reverse, option_map, IsTrue, IfOk, IfErr};
ghost use Rattle.pg_align.specs.Histories.{answer_to, arrived, discarded, first_tick, flush_one, has_all, is_above, is_due, leave_one, next_to_flush, next_to_leave, open_numbers, open_slots, opening, parts_for, put_number, reshaped, started, take_arrival, ticked};
ghost use Rattle.pg_align.specs.Slots.{head_with};

use pg_align::Arrived;
use std::alloc::{AllocError, Global};
use std::marker::Model;

/// A part that was kept, for a slot and for a member by its place, and the tick count at which it came.
#[derive(Drop)]
struct Arrival {
    slot: u64,
    place: usize,
    part: u8,
    tick: u64,
}

impl Model for Arrival {
    ghost use Rattle.std.specs.Prelude.{ℕ};
    ghost use Rattle.pg_align.specs.Histories.{Arrival as Came};

    ghost Value = { Came ℕ };

    ghost view = { λ a. record { slot = a.slot; place = a.place; part = a.part; tick = a.tick } };
}

/// A stream and all arrivals that it kept, the newest last. A part is a number. It does not look back on what left.
#[derive(Drop)]
pub(crate) struct PlainAlign {
    window: usize,
    wait: u32,
    effective: Vec<bool>,
    is_on: bool,
    last: Option<u64>,
    arrivals: Vec<Arrival>,
    ticks: u64,
}

impl Model for PlainAlign {
    ghost use Rattle.std.specs.Prelude.{ℕ, [], reverse};
    ghost use Rattle.pg_align.specs.Histories.{StreamHistory};

    ghost Value = { StreamHistory ℕ };

    ghost view = { λ p. record {
      window = p.window;
      wait = p.wait;
      effective = p.effective.items;
      is_on = p.is_on;
      last = p.last;
      arrivals = reverse p.arrivals.items;
      ticks = p.ticks;
      past = [];
    } };
}

/// A slot that left, and for each member what had come for it.
#[derive(Debug, PartialEq, Eq, Drop)]
pub(crate) struct PlainLeft {
    pub(crate) slot: u64,
    pub(crate) parts: Vec<Option<u8>>,
}

/// Whether a slot comes after the last one that left.
fn is_above(last: Option<u64>, slot: u64) -> bool
    ensures { result ≡ is_above last slot }
{
    match last {
        None => true,
        Some(last) => last < slot,
    }
}

/// What came for a slot and a place.
fn arrived(arrivals: &[Arrival], slot: u64, place: usize) -> Option<u8>
    ensures { result ≡ arrived (reverse arrivals.now) slot place }
{
    let mut part = None;
    for arrival in arrivals {
        if arrival.slot == slot && arrival.place == place {
            part = Some(arrival.part);
        }
    }
    part
}

/// When the first arrival for a slot came.
fn first_tick(arrivals: &[Arrival], slot: u64) -> Option<u64>
    ensures { result ≡ first_tick (reverse arrivals.now) slot }
{
    let mut first = None;
    for arrival in arrivals {
        if arrival.slot == slot {
            first = Some(first.unwrap_or(arrival.tick));
        }
    }
    first
}

/// Puts a number into a rising list, once.
fn put_number(numbers: &mut Vec<u64>, number: u64) -> Result<(), AllocError>
    ensures { IfOk result (λ _. numbers.new.items ≡ put_number number numbers.old.items) }
{
    for at in 0..numbers.len() {
        if number < numbers[at] {
            numbers.insert(at, number)?;
            return Ok(());
        }
        if number == numbers[at] {
            return Ok(());
        }
    }
    numbers.push(number)?;
    Ok(())
}

/// The distinct slots of the arrivals above the last one that left, rising.
fn open_numbers(
    alloc: Global,
    last: Option<u64>,
    arrivals: &[Arrival],
) -> Result<Vec<u64>, AllocError>
    ensures { IfOk result (λ numbers. numbers.items ≡ open_numbers last (reverse arrivals.now)) }
{
    let mut numbers = Vec::new(alloc);
    for arrival in arrivals {
        if is_above(last, arrival.slot) {
            put_number(&mut numbers, arrival.slot)?;
        }
    }
    Ok(numbers)
}

/// Whether each effective place has a part.
fn has_all(effective: &[bool], parts: &[Option<u8>]) -> bool
    requires { length effective.now ≡ length parts.now }
    ensures { result ≡ has_all effective.now parts.now }
{
    for (place, wanted) in effective.iter().enumerate() {
        if *wanted && parts[place].is_none() {
            return false;
        }
    }
    true
}

impl PlainAlign {
    /// A stream that is off, of as many members, none of them effective.
    pub(crate) fn new(
        alloc: Global,
        window: usize,
        wait: u32,
        members: usize,
    ) -> Result<Self, AllocError>
        ensures { IfOk result (λ plain. plain ≡ opening window wait members) }
    {
        Ok(PlainAlign {
            window,
            wait,
            effective: vec![in alloc; false; members]?,
            is_on: false,
            last: None,
            arrivals: Vec::new(alloc),
            ticks: 0,
        })
    }

    /// Switches the stream on, with no last slot and no arrival. A stream that is on stays as it is.
    pub(crate) fn start(&mut self)
        ensures { self.new ≡ started self.old }
    {
        if !self.is_on {
            self.is_on = true;
            self.last = None;
            self.arrivals.clear();
        }
    }

    /// Switches the stream off; its arrivals are discarded.
    pub(crate) fn discard(&mut self)
        ensures { self.new ≡ discarded self.old }
    {
        self.is_on = false;
        self.arrivals.clear();
    }

    /// Takes other members for effective.
    pub(crate) fn reshape(&mut self, effective: &[bool])
        requires { length effective.now ≡ length self.old.effective }
        ensures { self.new ≡ reshaped self.old effective.now }
    {
        self.effective.copy_from_slice(effective);
    }

    /// Whether a further tick can be counted.
    pub(crate) fn can_tick(&self) -> bool
        ensures { IsTrue result ↔ self.now.ticks + 1 < 2 ^ 64 }
    {
        self.ticks < u64::MAX
    }

    /// Counts one tick more.
    pub(crate) fn tick(&mut self)
        requires { self.old.ticks + 1 < 2 ^ 64 }
        ensures { self.new ≡ ticked self.old }
    {
        self.ticks += 1;
    }

    /// Takes an arrival: late where its slot is at or below the last one that left, twice where one of its slot and place
    /// was kept, and otherwise kept.
    pub(crate) fn arrive(
        &mut self,
        slot: u64,
        place: usize,
        part: u8,
    ) -> Result<Arrived, AllocError>
        ensures answer { IfOk result (λ answer. answer ≡ answer_to self.old slot place) }
        ensures taken { IfOk result (λ _. self.new ≡ record (take_arrival self.old slot place part) { past = [] }) }
        ensures failed { IfErr result (λ _. self.new ≡ self.old) }
    {
        if !is_above(self.last, slot) {
            return Ok(Arrived::Late);
        }
        if arrived(&self.arrivals, slot, place).is_some() {
            return Ok(Arrived::Twice);
        }
        self.arrivals.push(Arrival {
            slot,
            place,
            part,
            tick: self.ticks,
        })?;
        Ok(Arrived::Kept)
    }

    /// The open slots, rising.
    pub(crate) fn open_slots(&self, alloc: Global) -> Result<Vec<u64>, AllocError>
        ensures { IfOk result (λ slots. slots.items ≡ open_slots self.now) }
    {
        open_numbers(alloc, self.last, &self.arrivals)
    }

    /// The least open slot leaves, if it is complete, due, or one of more than the window.
    pub(crate) fn leave_next(&mut self, alloc: Global) -> Result<Option<PlainLeft>, AllocError>
        ensures answer { IfOk result (λ left.
            option_map (λ left. head_with left.slot left.parts.items) left ≡ next_to_leave self.old) }
        ensures left { IfOk result (λ _. self.new ≡ record (leave_one self.old) { past = [] }) }
        ensures failed { IfErr result (λ _. self.new ≡ self.old) }
    {
        let open = self.open_slots(alloc)?;
        if open.is_empty() {
            return Ok(None);
        }
        let slot = open[0];
        let parts = self.parts_for(alloc, slot)?;
        let is_to_leave = has_all(&self.effective, &parts)
            || self.is_due(slot)
            || open.len() > self.window;
        if !is_to_leave {
            return Ok(None);
        }
        self.last = Some(slot);
        Ok(Some(PlainLeft { slot, parts }))
    }

    /// The least open slot leaves, whatever has come.
    pub(crate) fn flush_next(&mut self, alloc: Global) -> Result<Option<PlainLeft>, AllocError>
        ensures answer { IfOk result (λ left.
            option_map (λ left. head_with left.slot left.parts.items) left ≡ next_to_flush self.old) }
        ensures left { IfOk result (λ _. self.new ≡ record (flush_one self.old) { past = [] }) }
        ensures failed { IfErr result (λ _. self.new ≡ self.old) }
    {
        let open = self.open_slots(alloc)?;
        if open.is_empty() {
            return Ok(None);
        }
        let slot = open[0];
        let parts = self.parts_for(alloc, slot)?;
        self.last = Some(slot);
        Ok(Some(PlainLeft { slot, parts }))
    }

    /// What came for a slot, for each member.
    fn parts_for(&self, alloc: Global, slot: u64) -> Result<Vec<Option<u8>>, AllocError>
        ensures { IfOk result (λ parts. parts.items ≡ parts_for self.now slot) }
    {
        let mut parts = Vec::new(alloc);
        for place in 0..self.effective.len() {
            parts.push(arrived(&self.arrivals, slot, place))?;
        }
        Ok(parts)
    }

    /// Whether the ticks since the first arrival for a slot are at least the wait.
    fn is_due(&self, slot: u64) -> bool
        ensures { result ≡ is_due self.now slot }
    {
        let first = first_tick(&self.arrivals, slot).unwrap_or(self.ticks);
        u64::from(self.wait) <= self.ticks.saturating_sub(first)
    }
}
