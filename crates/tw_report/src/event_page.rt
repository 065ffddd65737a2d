//! Lines of events, written onto a page so that many of them are put at once.

ghost use Rattle.std.specs.Prelude.{◌≡◌, ◌+◌, ◌<◌, ◌≤◌, ◌++◌, false, length, take};
ghost use Rattle.std.specs.List.{All};
ghost use Rattle.tw_device.specs.Sink.{Puts};
ghost use Rattle.tw_report.specs.Lines.{NamesPath, event_words};
ghost use Rattle.tw_report.specs.Pieces.{head_text, pair_text, swap_text, update_text};
ghost use Rattle.tw_report.specs.Report.{event_lines};
ghost use Rattle.tw_report.specs.Words.{line};

use crate::numerals::Numerals;
use crate::spelled::{PAGE, spell, spell_next, spell_number, spell_path};
use std::marker::Model;
use tw_device::{Failed, Sink, put_all};
use tw_event::{Body, Event};
use tw_instance::Instance;
use tw_model::limits::MOST_NODES;

/// Where lines of events are written before they are put.
///
/// One serves for any number of lines. Nothing stays on it from one call to the next.
#[derive(Drop)]
pub struct EventPage {
    bytes: [u8; PAGE],
    numerals: Numerals,
}

impl Model for EventPage {
    ghost Value = { Unit {0} };

    ghost view = { λ page. tt };
}

impl EventPage {
    /// A page with no line.
    pub fn new() -> EventPage {
        let mut bytes = [0; PAGE];
        let numerals = Numerals::new(&mut bytes);
        EventPage { bytes, numerals }
    }

    /// Puts the line of an event: `event`, its time, its receiver and what happens. Takes no memory.
    ///
    /// The path of an update is one of the instance.
    pub fn put_event<S: Sink>(
        &mut self,
        sink: &mut S,
        instance: &Instance,
        event: &Event,
    ) -> Result<(), Failed>
        requires path { NamesPath instance.now event.now.body }
        requires open { S.failed sink.old ≡ false }
        ensures { Puts result (S.written sink.old) (S.written sink.new) (S.failed sink.new) (line (event_words instance.now event.now)) }
    {
        let end = spell_event(&mut self.bytes, 0, &self.numerals, instance, event);
        put_all(sink, &self.bytes[..end])
    }
}

/// Puts the line of each event, page by page.
pub(crate) fn put_events<S: Sink>(
    sink: &mut S,
    instance: &Instance,
    events: &[Event],
) -> Result<(), Failed>
    requires paths { All (λ e. NamesPath instance.now e.body) events.now }
    requires open { S.failed sink.old ≡ false }
    ensures { Puts result (S.written sink.old) (S.written sink.new) (S.failed sink.new) (event_lines instance.now events.now) }
{
    let mut page = EventPage::new();
    let mut rest = events;
    while !rest.is_empty() {
        let (count, end) = fill_page(&mut page.bytes, &page.numerals, instance, rest);
        put_all(sink, &page.bytes[..end])?;
        rest = rest.split_at(count).1;
    }
    Ok(())
}

/// How many bytes a line on a page has at most: `event`, ` update` and the space before the path have 13,
/// five numbers 21 each with the space before them, the path 2 and 21 for each of its nodes, and LF is one.
const LINE: usize = 13 + 5 * 21 + 2 + 21 * MOST_NODES + 1;

/// Writes the lines of events onto a page, until one might not fit. Answers how many events these are,
/// and where the last line ends.
fn fill_page(
    page: &mut [u8; PAGE],
    numerals: &Numerals,
    instance: &Instance,
    events: &[Event],
) -> (usize, usize)
    requires paths { All (λ e. NamesPath instance.now e.body) events.now }
    ensures count { result.0 ≤ length events.now }
    ensures some { 0 < length events.now → 0 < result.0 }
    ensures end { result.1 ≤ PAGE }
    ensures text { take result.1 page.new ≡ event_lines instance.now (take result.0 events.now) }
{
    let mut end = 0;
    for (count, event) in events.iter().enumerate() {
        if end > PAGE - LINE {
            return (count, end);
        }
        end = spell_event(page, end, numerals, instance, event);
    }
    (events.len(), end)
}

/// Writes the line of an event.
#[inline(always)]
fn spell_event(
    page: &mut [u8; PAGE],
    at: usize,
    numerals: &Numerals,
    instance: &Instance,
    event: &Event,
) -> usize
    requires path { NamesPath instance.now event.now.body }
    requires room { at + 793 ≤ length page.old }
    ensures end { result ≤ at + 793 }
    ensures text { take result page.new ≡ take at page.old ++ line (event_words instance.now event.now) }
{
    let end = spell_head(page, at, numerals, event);
    match event.body {
        Body::Start => spell(page, end, b" start\n"),
        Body::Fail(peer) => spell_pair(page, end, numerals, b" fail", peer.into(), event.seq),
        Body::Restore(peer) => spell_pair(page, end, numerals, b" restore", peer.into(), event.seq),
        Body::Swap(i, j) => spell_swap(page, end, numerals, event.seq, i, j),
        Body::Forbid(k) => spell_pair(page, end, numerals, b" forbid", event.seq, k.into()),
        Body::Allow(k) => spell_pair(page, end, numerals, b" allow", event.seq, k.into()),
        Body::Update { path, session } => {
            spell_update(page, end, numerals, event, session, instance.path(path))
        }
    }
}

/// Writes `event`, its time and its receiver.
fn spell_head(page: &mut [u8; PAGE], at: usize, numerals: &Numerals, event: &Event) -> usize
    requires room { at + 47 ≤ length page.old }
    ensures end { result ≤ at + 47 }
    ensures text { take result page.new ≡ take at page.old ++ head_text event.now }
{
    let named = spell(page, at, b"event ");
    let timed = spell_number(page, named, event.time);
    spell_next(page, timed, numerals, u64::from(event.dst))
}

/// Writes the rest of the line of what this name and two numbers tell: a failure, a repair, or a path
/// that is forbidden or allowed.
fn spell_pair(
    page: &mut [u8; PAGE],
    at: usize,
    numerals: &Numerals,
    name: &[u8],
    first: u64,
    second: u64,
) -> usize
    requires name { length name.now ≤ 8 }
    requires room { at + 51 ≤ length page.old }
    ensures end { result ≤ at + 51 }
    ensures text { take result page.new ≡ take at page.old ++ pair_text name.now first second }
{
    let named = spell(page, at, name);
    let one = spell_next(page, named, numerals, first);
    let both = spell_next(page, one, numerals, second);
    spell(page, both, b"\n")
}

/// Writes the rest of the line of an exchange of ranks.
fn spell_swap(
    page: &mut [u8; PAGE],
    at: usize,
    numerals: &Numerals,
    seq: u64,
    i: u32,
    j: u32,
) -> usize
    requires room { at + 69 ≤ length page.old }
    ensures end { result ≤ at + 69 }
    ensures text { take result page.new ≡ take at page.old ++ swap_text seq i j }
{
    let named = spell(page, at, b" swap");
    let numbered = spell_next(page, named, numerals, seq);
    let first = spell_next(page, numbered, numerals, u64::from(i));
    let second = spell_next(page, first, numerals, u64::from(j));
    spell(page, second, b"\n")
}

/// Writes the rest of the line of an update.
fn spell_update(
    page: &mut [u8; PAGE],
    at: usize,
    numerals: &Numerals,
    event: &Event,
    session: u64,
    nodes: &[u32],
) -> usize
    requires short { length nodes.now ≤ 32 }
    requires room { at + 746 ≤ length page.old }
    ensures end { result ≤ at + 746 }
    ensures text { take result page.new ≡ take at page.old ++ update_text event.now session nodes.now }
{
    let named = spell(page, at, b" update");
    let sent = spell_next(page, named, numerals, u64::from(event.src));
    let numbered = spell_next(page, sent, numerals, event.seq);
    let dated = spell_next(page, numbered, numerals, session);
    let parted = spell(page, dated, b" ");
    let shown = spell_path(page, parted, numerals, nodes);
    spell(page, shown, b"\n")
}
