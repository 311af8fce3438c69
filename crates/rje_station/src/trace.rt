//! The last events of a station.
ghost use Rattle.std.specs.Prelude.{◌≡◌, [], ◌∷◌, ◌++◌, length, slice_get, IfOk};
ghost use Rattle.rje_station.specs.Trace.{last_events};

use crate::Event;
use circular_buffer::HeapCircularBuffer;
use std::alloc::{AllocError, Global};
use std::marker::Model;

/// How many events a trace keeps.
pub const MAX_EVENTS: usize = 64;

/// The last events of a station, oldest first: a ring of 64.
#[derive(Drop)]
pub struct Trace {
    ring: HeapCircularBuffer<Event>,
}

impl Model for Trace {
    ghost use Rattle.std.specs.Prelude.{◌≡◌, List};
    ghost use Rattle.rje_station.specs.declared.event.Event.{Event as Item};

    ghost Value = { List Item };

    ghost view = { λ t. t.ring.items };

    ghost invariant = { λ t. t.ring.capacity ≡ 64 };
}

impl Trace {
    /// A trace of no events, with memory for all that it will keep.
    pub(crate) fn new(alloc: Global) -> Result<Self, AllocError>
        ensures { IfOk result (λ t. t ≡ []) }
    {
        let ring = HeapCircularBuffer::with_capacity(alloc, MAX_EVENTS)?;
        Ok(Trace { ring })
    }

    /// How many events are kept.
    pub fn len(&self) -> usize
        ensures { result ≡ length self.now }
    {
        self.ring.len()
    }

    /// An event by its place, from 0, the oldest first; `None` after the last.
    pub fn get(&self, place: usize) -> Option<Event>
        ensures { result ≡ slice_get self.now place }
    {
        self.ring.get(place).copied()
    }

    /// Adds an event after the others; the oldest goes where there were 64.
    pub(crate) fn note(&mut self, event: Event)
        ensures { self.new ≡ last_events (self.old ++ event ∷ []) }
    {
        self.ring.push_back(event);
    }
}
