//! The events of a schedule, in order.
ghost use Rattle.std.specs.Prelude.{◌≡◌, ◌==◌, true, false, [], ◌∷◌, ◌++◌, length, IfOk, MatchOption, None, Some, OnOk, OnErr};
ghost use Rattle.schedule_text.specs.inner.ShortEvents as spec;

use crate::event::{Event, NodeEvent, SystemEvent};
use sb_calls::Call;
use std::alloc::{AllocError, Global};
use std::marker::Model;
use std::mem::size_of;

// An event without its call, if it has one.
#[derive(Clone, Copy)]
enum ShortEvent {
    Ask { client: u32, request: u32 },
    Append { client: u32, request: u32 },
    At { replica: u32, event: NodeEvent },
    System(SystemEvent),
}

const _: () = prove!(size_of::<ShortEvent>() == 20);

/// The events of a schedule, in order. Each takes 20 bytes, and calls stand in a list of their own.
#[derive(Drop)]
pub struct Events {
    short: Vec<ShortEvent>,
    calls: Vec<Call>,
}

impl Model for Events {
    ghost use Rattle.std.specs.Prelude.{◌≡◌, List, count_by, length};
    ghost use Rattle.schedule_text.specs.declared.event.Event.{Event as AnyEvent};
    ghost use Rattle.schedule_text.specs.inner.ShortEvents.{events_with_calls, has_call};

    ghost Value = { List AnyEvent };

    ghost view = { λ e. events_with_calls e.short.items e.calls.items };

    // Each event that has a call has its own, and there is no other.
    ghost invariant = { λ e. count_by has_call e.short.items ≡ length e.calls.items };
}

impl Events {
    /// No events.
    pub fn new(alloc: Global) -> Events
        ensures { result ≡ [] }
    {
        Events {
            short: Vec::new(alloc),
            calls: Vec::new(alloc),
        }
    }

    /// No events, with room for so many. A call takes room of its own.
    pub fn with_capacity(alloc: Global, capacity: usize) -> Result<Events, AllocError>
        ensures { IfOk result (λ events. events ≡ []) }
    {
        let short = Vec::with_capacity(alloc, capacity)?;
        Ok(Events {
            short,
            calls: Vec::new(alloc),
        })
    }

    /// The number of events.
    pub fn len(&self) -> usize
        ensures { result ≡ length self.now }
    {
        self.short.len()
    }

    /// Whether there are no events.
    pub fn is_empty(&self) -> bool
        ensures { result ≡ (length self.now == 0) }
    {
        self.short.is_empty()
    }

    /// Adds an event after the last one. If memory is refused, nothing changes.
    pub fn push(&mut self, event: Event) -> Result<(), AllocError>
        ensures ok { OnOk result (self.new ≡ self.old ++ event ∷ []) }
        ensures err { OnErr result (self.new ≡ self.old) }
    {
        self.short.reserve(1)?;
        if let Some(call) = event_call(&event) {
            self.calls.push(call)?;
        }
        self.short.push_reserved(without_call(&event));
        Ok(())
    }

    /// The events from the first one on.
    pub fn walk(&self) -> EventWalk<'_>
        ensures { result ≡ self.now }
    {
        EventWalk {
            short: &self.short,
            calls: &self.calls,
        }
    }
}

/// The events of a schedule that weren't come to yet, in order.
#[derive(Drop)]
pub struct EventWalk<'a> {
    short: &'a [ShortEvent],
    calls: &'a [Call],
}

impl<'a> Model for EventWalk<'a> {
    ghost use Rattle.std.specs.Prelude.{◌≡◌, List, count_by, length};
    ghost use Rattle.schedule_text.specs.declared.event.Event.{Event as AnyEvent};
    ghost use Rattle.schedule_text.specs.inner.ShortEvents.{events_with_calls, has_call};

    ghost Value = { List AnyEvent };

    ghost view = { λ w. events_with_calls w.short.now w.calls.now };

    ghost invariant = { λ w. count_by has_call w.short.now ≡ length w.calls.now };
}

impl<'a> EventWalk<'a> {
    /// The number of events that weren't come to yet.
    pub fn len(&self) -> usize
        ensures { result ≡ length self.now }
    {
        self.short.len()
    }

    /// Takes the next event, or returns `None` if there is none.
    pub fn next(&mut self) -> Option<Event>
        ensures { MatchOption result
            ((self.old ≡ []) × (self.new ≡ []))
            (λ event. self.old ≡ event ∷ self.new) }
    {
        let [first, rest @ ..] = self.short else {
            return None;
        };
        self.short = rest;
        let Some(whole) = whole_event(*first) else {
            let [call, calls @ ..] = self.calls else {
                return None;
            };
            self.calls = calls;
            return event_with_call(first, *call);
        };
        Some(whole)
    }
}

// The event that this is with its call, or `None` if it has no call.
#[inline(always)]
fn event_with_call(short: &ShortEvent, call: Call) -> Option<Event>
    ensures { MatchOption result
        (spec.has_call short.now ≡ false)
        (λ event. (spec.without_call event ≡ short.now) × (spec.event_call event ≡ Some call)) }
{
    match short {
        ShortEvent::Ask { client, request } => Some(Event::Ask {
            client: *client,
            request: *request,
            call,
        }),
        ShortEvent::Append { client, request } => Some(Event::Append {
            client: *client,
            request: *request,
            call,
        }),
        _ => None,
    }
}

// The event that this is, or `None` if it lacks its call.
#[inline(always)]
fn whole_event(short: ShortEvent) -> Option<Event>
    ensures { MatchOption result
        (spec.has_call short ≡ true)
        (λ event. (spec.without_call event ≡ short) × (spec.event_call event ≡ None)) }
{
    match short {
        ShortEvent::Ask { .. } | ShortEvent::Append { .. } => None,
        ShortEvent::At { replica, event } => Some(Event::At { replica, event }),
        ShortEvent::System(event) => Some(Event::System(event)),
    }
}

// The call of an event, if it has one.
fn event_call(event: &Event) -> Option<Call>
    ensures { result ≡ spec.event_call event.now }
{
    match event {
        Event::Ask { call, .. } | Event::Append { call, .. } => Some(*call),
        _ => None,
    }
}

// An event without its call, if it has one.
fn without_call(event: &Event) -> ShortEvent
    ensures { result ≡ spec.without_call event.now }
{
    match *event {
        Event::Ask {
            client,
            request,
            ..
        } => ShortEvent::Ask { client, request },
        Event::Append {
            client,
            request,
            ..
        } => ShortEvent::Append { client, request },
        Event::At { replica, event } => ShortEvent::At { replica, event },
        Event::System(event) => ShortEvent::System(event),
    }
}
