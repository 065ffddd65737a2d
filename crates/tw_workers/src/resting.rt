//! A worker that has nothing to do waits.
ghost use Rattle.std.specs.Prelude.{◌≡◌, ◌↔◌, false, true};
ghost use Rattle.tw_workers.specs.Seated.{HasTurned, IsSeated};
ghost use Rattle.tw_workers.specs.Work.{IsAtWork, IsIdle};

use crate::gate::Gate;
use crate::worker::Worker;
use std::hint;
use std::sync::Wait;
use std::thread::Parker;
use std::time::Duration;
use tw_table::{Seat, Table};
use tw_turns::{LOOKS_OF_A_ROUND, Looks, NAP_MICROS, NAPS, longest_nap};

impl<'a> Worker<'a> {
    /// Where it has no router, and no message to deliver or to send, it tells at the table that nothing is to be waited
    /// for from it, and true is answered: it needs take no turn before the others have left. Else nothing changes. The
    /// seat is its own, at this table, with its shard and hand as they are.
    pub fn step_aside<R: Wait>(&mut self, rt: &R, table: &Table, seat: Seat) -> (Seat, bool)
        requires seated { IsSeated table.now seat self.old.share self.old.stop }
        ensures turned { HasTurned table.now seat result.0 self.old self.new }
        ensures aside { (result.1 ≡ true) ↔ IsIdle self.old.share }
        ensures stays { result.1 ≡ false → (result.0 ≡ seat) × (self.new ≡ self.old) }
    {
        if !self.has_nothing() {
            return (seat, false);
        }
        let (seat, _) = self.meet(rt, table, seat);
        (seat, true)
    }

    /// Whether it has no router, and no message to deliver or to send.
    fn has_nothing(&self) -> bool
        ensures idle { (result ≡ true) ↔ IsIdle self.now.share }
        ensures work { IsAtWork self.now.stop self.now.share }
    {
        self.shard.router_count() == 0
            && self.hand.next >= self.hand.mail.len()
            && self.hand.out.is_empty()
            && self.shard.outgoing().is_empty()
    }

    /// Where it has nothing to do after a turn that it began with this bound, it waits until it may have, or
    /// for a while: the others get on sooner where the exchange and the processor are left to them. It is answered how
    /// often it slept.
    pub(crate) fn rest<G: Gate, R: Wait>(
        &self,
        rt: &R,
        table: &Table,
        gate: &G,
        known: u64,
    ) -> Option<u32> {
        let least = self.least_time();
        if self.has_work(known, least) {
            return None;
        }
        let worker = self.shard.worker();
        let next = least.min(self.least_mail_time());
        gate.waiting(worker);
        let naps = self.wait_for_news(rt, table, gate, self.awaited(next));
        gate.waited(worker, naps);
        Some(naps)
    }

    /// Waits until what is awaited is told, or for a while: it looks again and again at first, and then sleeps in
    /// between. It is answered how often it slept.
    fn wait_for_news<G: Gate, R: Wait>(
        &self,
        rt: &R,
        table: &Table,
        gate: &G,
        awaited: Awaited,
    ) -> u32 {
        if is_told_soon(table, gate, awaited, self.pace.looks()) {
            return 0;
        }
        let longest = longest_nap(self.shard.router_count());
        let mut micros = NAP_MICROS;
        for nap in 1..=NAPS {
            Parker::new().park_timeout(rt, Duration::from_micros(micros));
            micros = longest.min(micros.saturating_mul(2));
            if awaited.is_told(table) {
                return nap;
            }
        }
        NAPS
    }

    /// Whether a turn may do something: there is mail for it, or the end is reached, or a router may handle its next
    /// event, which is at the time `least`.
    fn has_work(&self, known: u64, least: u64) -> bool {
        self.shard.bound() == self.stop || self.has_mail_to_handle() || self.may_go_on(known, least)
    }

    /// Whether there is a message in its hand that a router may handle now, or an antimessage. All else can wait until
    /// the bound rises: a turn for that would meet the others for nothing.
    fn has_mail_to_handle(&self) -> bool {
        self.hand.mail.iter().any(|message| !message.plus || self.is_in_window(message.event.time))
    }

    /// The least time of the messages in its hand, and the end of time where there are none.
    fn least_mail_time(&self) -> u64 {
        self.hand
            .mail
            .iter()
            .fold(u64::MAX, |least, message| least.min(message.event.time))
    }

    /// Whether the next event is before its window's end. That event may have to wait, for room or for an
    /// antimessage, so it counts only where something was handled or the bound has risen.
    fn may_go_on(&self, known: u64, least: u64) -> bool {
        let has_moved = self.pace.turn().handled > 0 || self.shard.bound() > known;
        has_moved && self.is_in_window(least)
    }

    /// Whether a time is before its window's end.
    fn is_in_window(&self, time: u64) -> bool {
        time < self.pace.limit(self.shard.bound(), self.stop)
    }

    /// What lets a turn do something, where its next event, or that in its hand, is at the time `next`.
    fn awaited(&self, next: u64) -> Awaited {
        Awaited {
            worker: self.shard.worker(),
            bound: self.idle_bound(next),
            mail_bound: self.mail_bound(next),
        }
    }

    /// The bound from which on mail may let a turn do something. What others send comes the least delay after the
    /// bound at the earliest. Where that is the end of the window, and its own next event is no earlier, it can
    /// handle nothing of that before the bound rises.
    fn mail_bound(&self, next: u64) -> u64 {
        let bound = self.shard.bound();
        if self.pace.has_least_window() && !self.is_in_window(next) {
            bound.saturating_add(1)
        } else {
            bound
        }
    }

    /// Without further mail, a turn can do nothing while the bound is not past this time, in ticks.
    fn idle_bound(&self, next: u64) -> u64 {
        let bound = self.shard.bound();
        if self.is_in_window(next) {
            return bound;
        }
        let before_window = self.pace.bound_before(next);
        before_window.min(self.stop.saturating_sub(1)).max(bound)
    }

    /// The time of the least pending event, and the end of time where none is pending.
    fn least_time(&self) -> u64 {
        self.shard.pending().least_time().unwrap_or(u64::MAX)
    }
}

/// What a worker that has nothing to do waits for: a bound past this one, or mail, once the bound is `mail_bound`.
#[derive(Clone, Copy)]
struct Awaited {
    worker: u32,
    bound: u64,
    mail_bound: u64,
}

impl Awaited {
    fn is_told(self, table: &Table) -> bool {
        table.is_news_for(self.worker, self.bound, self.mail_bound)
    }
}

/// Whether what is awaited is told while a worker may look before it sleeps.
fn is_told_soon<G: Gate>(table: &Table, gate: &G, awaited: Awaited, looks: Looks) -> bool {
    if is_told_at_once(table, awaited) {
        return true;
    }
    let begun = gate.micros();
    for _ in 1..looks.rounds {
        if is_told_at_once(table, awaited) {
            return true;
        }
        if looks.are_over(begun, gate.micros()) {
            return false;
        }
    }
    false
}

/// Whether what is awaited is told at one of the looks of a round.
fn is_told_at_once(table: &Table, awaited: Awaited) -> bool {
    for _ in 0..LOOKS_OF_A_ROUND {
        if awaited.is_told(table) {
            return true;
        }
        hint::spin_loop();
    }
    false
}
