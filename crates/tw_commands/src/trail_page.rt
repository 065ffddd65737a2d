//! The page that `trail` writes.

ghost use Rattle.std.specs.Prelude.{◌≡◌, ◌-◌, ◌<◌, [], ◌∷◌, ◌++◌, drop, false, length, take, true, IfOk, OnOk, Some};
ghost use Rattle.std.specs.Io.KnownBytes.{Appends};
ghost use Rattle.std.specs.List.{All};
ghost use Rattle.tw_commands.specs.Trail.{router_line, send_line, send_lines, state_with, trail_text, undo_lines, undone_lines};
ghost use Rattle.tw_device.specs.Sink.{Puts};
ghost use Rattle.tw_model.specs.Effect.{effect, fits};
ghost use Rattle.tw_model.specs.History.{state_after};
ghost use Rattle.tw_model.specs.State.{IsCounted, opening};
ghost use Rattle.tw_report.specs.Lines.{NamesPath};

use crate::no_memory::NoMemory;
use smallvec::SmallVec;
use std::alloc::{AllocError, Global};
use tw_device::{Failed, Page, Sink, put_all};
use tw_event::Event;
use tw_handlers::{CounterFull, Trail};
use tw_instance::Instance;
use tw_model::OrMemory;
use tw_report::Word::Name;
use tw_report::{EventPage, put_line, put_router};
use tw_router::Router;

/// A router after these events, what undoing all but the first `keep` takes back, and the router after
/// that.
pub(crate) fn trail_page(
    alloc: Global,
    instance: &Instance,
    node: u32,
    events: &[Event],
    keep: usize,
) -> Result<Page, NoMemory>
    requires node { node < instance.now.nodes }
    requires fits { All (λ e. fits instance.now node e ≡ true) events.now }
    requires counted { IsCounted (state_after instance.now node (opening instance.now node) events.now).counters }
    ensures { IfOk result (λ page. page.written ≡ Some (trail_text instance.now node events.now keep)) }
{
    let mut trail = Trail::over(alloc, Router::new(alloc, instance, node)?);
    handle_all(&mut trail, instance, events)?;
    let mut page = Page::new(alloc);
    put_line(&mut page, &[Name("spp-trail"), Name("1")])?;
    put_standing(&mut page, instance, trail.router())?;
    put_undone(alloc, &mut page, instance, &mut trail, events, keep)?;
    put_standing(&mut page, instance, trail.router())?;
    Ok(page)
}

/// Handles the events one after the other. No counter can be full, since none is in the end.
fn handle_all(
    trail: &mut Trail<'_>,
    instance: &Instance,
    events: &[Event],
) -> Result<(), AllocError>
    requires own { instance.now ≡ trail.old.opening.net }
    requires none { trail.old.events ≡ [] }
    requires fits { All (λ e. fits trail.old.opening.net trail.old.opening.node e ≡ true) events.now }
    requires counted { IsCounted (state_after trail.old.opening.net trail.old.opening.node trail.old.opening.state events.now).counters }
    ensures { OnOk result (trail.new ≡ record trail.old { events = events.now }) }
{
    for event in events {
        match trail.handle_fitting(instance, event) {
            Ok(()) => {}
            Err(OrMemory::Memory) => return Err(AllocError),
            Err(OrMemory::Fault(CounterFull)) => unreachable!(),
        }
    }
    Ok(())
}

/// Puts the line of a router.
fn put_standing<S: Sink>(
    sink: &mut S,
    instance: &Instance,
    router: &Router<'_>,
) -> Result<(), Failed>
    requires own { instance.now ≡ router.now.net }
    requires open { S.failed sink.old ≡ false }
    ensures { Puts result (S.written sink.old) (S.written sink.new) (S.failed sink.new) (router_line instance.now router.now.node router.now.state) }
{
    put_router(sink, instance, router.node() as usize, &router.end())
}

/// Undoes all events but the first `keep`, the last one first, and puts the lines of each.
fn put_undone(
    alloc: Global,
    page: &mut Page,
    instance: &Instance,
    trail: &mut Trail<'_>,
    events: &[Event],
    keep: usize,
) -> Result<(), NoMemory>
    requires open { page.old.failed ≡ false }
    requires own { instance.now ≡ trail.old.opening.net }
    requires opening { trail.old.opening.state ≡ opening instance.now trail.old.opening.node }
    requires events { trail.old.events ≡ events.now }
    requires fits { All (λ e. fits instance.now trail.old.opening.node e ≡ true) events.now }
    ensures lines { OnOk result (Appends page.old.written page.new.written
        (undone_lines instance.now trail.old.opening.node (state_after instance.now trail.old.opening.node trail.old.opening.state (take keep events.now)) (drop keep events.now))) }
    ensures trail { OnOk result (trail.new ≡ record trail.old { events = take keep events.now }) }
    ensures still { OnOk result (page.new.failed ≡ false) }
{
    let mut event_page = EventPage::new();
    let mut left = events.len();
    while keep < left {
        left -= 1;
        undo_last(alloc, page, &mut event_page, instance, trail, &events[left])?;
    }
    Ok(())
}

/// Undoes the last event and puts its lines.
fn undo_last(
    alloc: Global,
    page: &mut Page,
    event_page: &mut EventPage,
    instance: &Instance,
    trail: &mut Trail<'_>,
    event: &Event,
) -> Result<(), NoMemory>
    requires open { page.old.failed ≡ false }
    requires own { instance.now ≡ trail.old.opening.net }
    requires opening { trail.old.opening.state ≡ opening instance.now trail.old.opening.node }
    requires last { trail.old.events ≡ take (length trail.old.events - 1) trail.old.events ++ event.now ∷ [] }
    requires fits { All (λ e. fits instance.now trail.old.opening.node e ≡ true) trail.old.events }
    ensures lines { OnOk result (Appends page.old.written page.new.written
        (undo_lines instance.now event.now (effect instance.now trail.old.opening.node (state_with instance.now trail.old (length trail.old.events - 1)) event.now).sends)) }
    ensures trail { OnOk result (trail.new ≡ record trail.old { events = take (length trail.old.events - 1) trail.old.events }) }
    ensures still { OnOk result (page.new.failed ≡ false) }
{
    let mut sends = SmallVec::new(alloc);
    trail.undo_to(instance, trail.len() - 1, &mut sends)?;
    put_undo(page, event_page, instance, event, &sends)?;
    Ok(())
}

/// Puts the lines of an event that is undone.
fn put_undo<S: Sink>(
    sink: &mut S,
    event_page: &mut EventPage,
    instance: &Instance,
    event: &Event,
    sends: &[Event],
) -> Result<(), Failed>
    requires open { S.failed sink.old ≡ false }
    requires event { NamesPath instance.now event.now.body }
    requires sends { All (λ x. NamesPath instance.now x.body) sends.now }
    ensures { Puts result (S.written sink.old) (S.written sink.new) (S.failed sink.new) (undo_lines instance.now event.now sends.now) }
{
    put_all(sink, b"undo ")?;
    event_page.put_event(sink, instance, event)?;
    put_sends(sink, event_page, instance, sends)
}

/// Puts the lines of what an event had sent.
fn put_sends<S: Sink>(
    sink: &mut S,
    event_page: &mut EventPage,
    instance: &Instance,
    sends: &[Event],
) -> Result<(), Failed>
    requires open { S.failed sink.old ≡ false }
    requires paths { All (λ x. NamesPath instance.now x.body) sends.now }
    ensures { Puts result (S.written sink.old) (S.written sink.new) (S.failed sink.new) (send_lines instance.now sends.now) }
{
    for send in sends {
        put_send(sink, event_page, instance, send)?;
    }
    Ok(())
}

/// Puts the line of a message that was sent.
fn put_send<S: Sink>(
    sink: &mut S,
    event_page: &mut EventPage,
    instance: &Instance,
    send: &Event,
) -> Result<(), Failed>
    requires open { S.failed sink.old ≡ false }
    requires path { NamesPath instance.now send.now.body }
    ensures { Puts result (S.written sink.old) (S.written sink.new) (S.failed sink.new) (send_line instance.now send.now) }
{
    put_all(sink, b"send ")?;
    event_page.put_event(sink, instance, send)
}
