//! The table by calls: two workers of DISAGREE meet there.

ghost use Rattle.std.specs.Bool.{OnTrue};
ghost use Rattle.std.specs.Prelude.{◌≡◌, ◌<◌, ◌≤◌, ℕ, [], ◌∷◌, IfOk, IfSome, List, OnSome, length, slice_index_or, true};
ghost use Rattle.tw_event.specs.declared.event.Event.{Event as AnEvent};
ghost use Rattle.tw_exchange.specs.Board.{AreDealt, handed, visited, workers};
ghost use Rattle.tw_shard.specs.Shard.{IsOpeningShard, Shard as AShard, no_shard};
ghost use Rattle.tw_sim.specs.declared.machine.Cancel.TheVariants.{Aggressive};
ghost use Rattle.tw_sim.specs.declared.machine.Signed.{Signed as ASigned};
ghost use Rattle.tw_table.specs.declared.hand.Hand.{Hand as AHand};
ghost use Rattle.tw_table.specs.declared.seat.Seat.{Seat as ASeat};
ghost use Rattle.tw_table.specs.declared.table.Table.{Table as ATable};
ghost use Rattle.tw_table.specs.Seats.{IsSameSeat, IsSeatOf, exchange_of, owners_on, share_of, workers_at};
ghost use Rattle.tw_table.specs.Shares.{share};
ghost use Rattle.tw_machine_rows.specs.Sitting.{AreBeginning, IsReadyToTake};

use crate::messages::{ORIGIN_TO_1, ORIGIN_TO_2};
use std::alloc::{AllocError, Global};
use std::sync::Wait;
use tw_event::Event;
use tw_instance::Case;
use tw_rows::cases::case;
use tw_rows::texts::DISAGREE;
use tw_shard::Shard;
use tw_shard::shards::open_all;
use tw_sim::{Cancel, Signed};
use tw_table::laws::new_is_ruled;
use tw_table::{Exchange, Hand, Held, Missing, Parcels, Seat, Table, Told, Visit};
use tw_workers::laws::shares_are_at_work;

/// The shards of two workers, made once more where memory was refused.
fn shards_of<'a>(alloc: Global, case: &'a Case) -> Result<Vec<Shard<'a>>, AllocError>
    ensures count { IfOk result (λ v. length v.items ≡ 2) }
    ensures each { IfOk result (λ v. (k : ℕ) → k < 2 → IsOpeningShard case.now k 2 true Aggressive (slice_index_or v.items k no_shard)) }
{
    match open_all(alloc, case, 2, true, Cancel::Aggressive) {
        Err(_) => open_all(alloc, case, 2, true, Cancel::Aggressive),
        made => made,
    }
}

/// The first two of a list.
fn first_two<T: Drop>(list: Vec<T>) -> Option<(T, T)>
    ensures { IfSome result (λ r. (others : List T) × (list.items ≡ r.0 ∷ r.1 ∷ others)) }
{
    let mut list = list.into_iter();
    let first = list.next()?;
    let second = list.next()?;
    Some((first, second))
}

/// A table with its first two seats.
fn with_seats(table: Table, seats: Vec<Seat>) -> Option<(Table, Seat, Seat)>
    ensures table { IfSome result (λ r. r.0 ≡ table) }
    ensures seats { IfSome result (λ r. (others : List ASeat) × (seats.items ≡ r.1 ∷ r.2 ∷ others)) }
{
    let (first, second) = first_two(seats)?;
    Some((table, first, second))
}

/// A table with a new exchange to stop 20, and the seats of its two workers, who have these shards and hands.
fn sit_down<R: Wait>(
    rt: &R,
    alloc: Global,
    case: &Case,
    shards: &[Shard<'_>],
    hands: &[Hand],
) -> Option<(Table, Seat, Seat)>
    requires { AreBeginning case.now shards.now hands.now }
    ensures { IfSome result (λ r. (s u : AShard) (g h : AHand) → shards.now ≡ s ∷ u ∷ [] → hands.now ≡ g ∷ h ∷ []
        → IsReadyToTake r.0 r.1 (share s g) × IsReadyToTake r.0 r.2 (share u h)) }
{
    // What a case keeps is told by a read of it.
    let _ = case.instance();
    let Ok(exchange) = Exchange::new(alloc, 2, 0, 20) else {
        return None;
    };
    new_is_ruled();
    shares_are_at_work();
    match Table::open(rt, alloc, exchange, shards, hands) {
        Ok((table, seats)) => with_seats(table, seats),
        Err(_) => None,
    }
}

/// The same, once more where memory was refused.
fn sit_down_at_last<R: Wait>(
    rt: &R,
    alloc: Global,
    case: &Case,
    shards: &[Shard<'_>],
    hands: &[Hand],
) -> Option<(Table, Seat, Seat)>
    requires { AreBeginning case.now shards.now hands.now }
    ensures { IfSome result (λ r. (s u : AShard) (g h : AHand) → shards.now ≡ s ∷ u ∷ [] → hands.now ≡ g ∷ h ∷ []
        → IsReadyToTake r.0 r.1 (share s g) × IsReadyToTake r.0 r.2 (share u h)) }
{
    match sit_down(rt, alloc, case, shards, hands) {
        None => sit_down(rt, alloc, case, shards, hands),
        seated => seated,
    }
}

/// A router of a worker handles its first event, once more where memory was refused.
fn handle(shard: &mut Shard<'_>, router: u32) -> bool
    ensures { OnTrue result ((t : ATable) (s : ASeat) (h : AHand) → IsReadyToTake t s (share shard.old h) → IsReadyToTake t s (share shard.new h)) }
{
    match shard.handle_next(router, 20) {
        Ok(()) => return true,
        Err(_) => {}
    }
    match shard.handle_next(router, 20) {
        Ok(()) => true,
        Err(_) => false,
    }
}

/// A worker that has taken the exchange visits it, once more where memory was refused.
fn visit(held: &mut Held, out: Vec<Signed<Event>>, report: Option<u64>) -> Option<Visit>
    ensures board { OnSome result (exchange_of held.new ≡ visited (share_of held.old).shard.terms.worker out.items report (exchange_of held.old)) }
    ensures mail { IfSome result (λ v. v.mail.items ≡ handed (share_of held.old).shard.terms.worker out.items (exchange_of held.old)) }
    ensures bound { IfSome result (λ v. v.bound ≡ (exchange_of held.new).bound) }
    ensures rising { OnSome result ((exchange_of held.old).bound ≤ (exchange_of held.new).bound) }
    ensures same { OnSome result (IsSameSeat held.old held.new) }
{
    let out = match held.visit(out, report) {
        Ok(visit) => return Some(visit),
        Err(back) => back.out,
    };
    match held.visit(out, report) {
        Ok(visit) => Some(visit),
        Err(_) => None,
    }
}

/// A worker takes the exchange, deposits what its routers have sent, reports what waits for them, and gives
/// the exchange back with its mail in its hand.
fn meet<R: Wait>(
    rt: &R,
    table: &Table,
    seat: Seat,
    shard: &mut Shard<'_>,
    hand: &mut Hand,
) -> Option<Seat>
    requires { IsReadyToTake table.now seat (share shard.old hand.old) }
    ensures { IfSome result (λ s. IsSeatOf table.now s) }
{
    let mut held = table.take(rt, seat);
    let out = shard.take_out();
    let Some(visit) = visit(&mut held, out, shard.report_time()) else {
        drop(held);
        return None;
    };
    shard.raise_bound(visit.bound);
    hand.mail = visit.mail;
    hand.next = 0;
    Some(table.give(rt, held, shard, hand))
}

/// Whether messages are dealt to the workers of a table, once more where memory was refused.
fn deal(table: &Table, parcels: &mut Parcels, messages: &[Signed<Event>]) -> bool
    ensures { OnTrue result (AreDealt (owners_on table.now) (workers_at table.now) messages.now parcels.new) }
{
    table.deal(parcels, messages).is_ok() || table.deal(parcels, messages).is_ok()
}

/// A worker that has taken the exchange visits it with what is dealt, once more where memory was refused.
fn visit_dealt(
    held: &mut Held,
    parcels: &mut Parcels,
    report: Option<u64>,
    mail: &mut Vec<Signed<Event>>,
) -> Option<Told>
    requires dealt { (out : List (ASigned AnEvent)) × AreDealt (exchange_of held.old).owners (workers (exchange_of held.old)) out parcels.old }
    requires empty { mail.old.items ≡ [] }
    ensures board { OnSome result ((out : List (ASigned AnEvent)) → AreDealt (exchange_of held.old).owners (workers (exchange_of held.old)) out parcels.old
        → exchange_of held.new ≡ visited (share_of held.old).shard.terms.worker out report (exchange_of held.old)) }
    ensures mail { OnSome result ((out : List (ASigned AnEvent)) → AreDealt (exchange_of held.old).owners (workers (exchange_of held.old)) out parcels.old
        → mail.new.items ≡ handed (share_of held.old).shard.terms.worker out (exchange_of held.old)) }
    ensures bound { IfSome result (λ told. told.bound ≡ (exchange_of held.new).bound) }
    ensures rising { OnSome result ((exchange_of held.old).bound ≤ (exchange_of held.new).bound) }
    ensures same { OnSome result (IsSameSeat held.old held.new) }
{
    if let Ok(told) = held.visit_dealt(parcels, report, mail) {
        return Some(told);
    }
    held.visit_dealt(parcels, report, mail).ok()
}

/// As [`meet`], where what its routers have sent is dealt before the exchange is taken.
fn meet_dealt<R: Wait>(
    rt: &R,
    table: &Table,
    seat: Seat,
    shard: &mut Shard<'_>,
    hand: &mut Hand,
) -> Option<Seat>
    requires { IsReadyToTake table.now seat (share shard.old hand.old) }
    ensures { IfSome result (λ s. IsSeatOf table.now s) }
{
    let out = shard.take_out();
    let mut parcels = Parcels::new(*out.allocator());
    if !deal(table, &mut parcels, &out) {
        return None;
    }
    let mut held = table.take(rt, seat);
    hand.mail.clear();
    hand.next = 0;
    let told = visit_dealt(&mut held, &mut parcels, shard.report_time(), &mut hand.mail)?;
    shard.raise_bound(told.bound);
    Some(table.give(rt, held, shard, hand))
}

/// Whether a worker has this mail in its hand, and was told this bound.
fn is_told(seat: &Seat, hand: &Hand, mail: &[Signed<Event>], bound: u64) -> bool {
    hand.mail.as_slice() == mail && hand.next == 0 && seat.bound() == bound
}

/// Whether the routers of a worker have sent these messages, and nothing waits for them.
fn has_sent(shard: &Shard<'_>, messages: &[Signed<Event>]) -> bool {
    shard.outgoing() == messages && shard.report_time() == None
}

/// The first worker handles the start of router 0, deals what that sends, and meets: it is told of bound 0, and has
/// what router 2 is offered.
fn meet_first<R: Wait>(
    rt: &R,
    table: &Table,
    seat: Seat,
    shard: &mut Shard<'_>,
    hand: &mut Hand,
) -> Option<Seat>
    requires { IsReadyToTake table.now seat (share shard.old hand.old) }
    ensures { IfSome result (λ s. IsSeatOf table.now s) }
{
    if seat.worker() != 0 || !handle(shard, 0) || !has_sent(shard, &[ORIGIN_TO_1, ORIGIN_TO_2]) {
        drop(seat);
        return None;
    }
    let seat = meet_dealt(rt, table, seat, shard, hand)?;
    is_told(&seat, hand, &[ORIGIN_TO_2], 0).then_some(seat)
}

/// The second worker has sent nothing and meets: it is told of bound 1, and has what router 1 is offered.
fn meet_second<R: Wait>(
    rt: &R,
    table: &Table,
    seat: Seat,
    shard: &mut Shard<'_>,
    hand: &mut Hand,
) -> Option<Seat>
    requires { IsReadyToTake table.now seat (share shard.old hand.old) }
    ensures { IfSome result (λ s. IsSeatOf table.now s) }
{
    if seat.worker() != 1 || !has_sent(shard, &[]) {
        drop(seat);
        return None;
    }
    let seat = meet(rt, table, seat, shard, hand)?;
    is_told(&seat, hand, &[ORIGIN_TO_1], 1).then_some(seat)
}

/// The exchange of a table that does not close with the first seat alone, but with both. The list is empty.
fn close<R: Wait>(
    rt: &R,
    table: Table,
    first: Seat,
    second: Seat,
    seats: Vec<Seat>,
) -> Option<Exchange>
    requires first { IsSeatOf table first }
    requires second { IsSeatOf table second }
    requires empty { seats.items ≡ [] }
{
    let mut seats = seats;
    if seats.push(first).ok().is_none() {
        drop(table);
        drop(second);
        drop(seats);
        return None;
    }
    match Table::close(rt, table, seats) {
        Ok(exchange) => {
            drop(exchange);
            drop(second);
            None
        }
        Err(Missing { table, mut seats }) => {
            if seats.push(second).ok().is_none() {
                drop(table);
                drop(seats);
                return None;
            }
            Table::close(rt, table, seats).ok()
        }
    }
}

/// A list with room for two seats, made once more where memory was refused.
fn room_for_two(alloc: Global) -> Result<Vec<Seat>, AllocError>
    ensures { IfOk result (λ seats. seats.items ≡ []) }
{
    match Vec::with_capacity(alloc, 2) {
        Err(_) => Vec::with_capacity(alloc, 2),
        made => made,
    }
}

/// Whether an exchange of two workers has reached bound 1 and has no mail.
fn is_left(exchange: &Exchange) -> bool {
    exchange.bound() == 1
        && exchange.workers() == 2
        && exchange.mail(0).is_empty()
        && exchange.mail(1).is_empty()
}

/// The exchange that two workers leave who hand each other mail.
fn hand_each_other_mail<R: Wait>(
    rt: &R,
    alloc: Global,
    case: &Case,
    shards: &mut [Shard<'_>],
    hands: &mut [Hand],
) -> Option<Exchange>
    requires { AreBeginning case.now shards.old hands.old }
{
    let (table, first, second) = sit_down_at_last(rt, alloc, case, shards, hands)?;
    let Some(first) = meet_first(rt, &table, first, &mut shards[0], &mut hands[0]) else {
        drop(second);
        drop(table);
        return None;
    };
    let Some(second) = meet_second(rt, &table, second, &mut shards[1], &mut hands[1]) else {
        drop(first);
        drop(table);
        return None;
    };
    let Ok(seats) = room_for_two(alloc) else {
        drop(first);
        drop(second);
        drop(table);
        return None;
    };
    close(rt, table, first, second, seats)
}

/// Whether two workers with these shards, and hands that are empty, hand each other mail, and leave none.
fn leave_no_mail<R: Wait>(rt: &R, alloc: Global, case: &Case, shards: &mut [Shard<'_>]) -> bool
    requires count { length shards.old ≡ 2 }
    requires each { (k : ℕ) → k < 2 → IsOpeningShard case.now k 2 true Aggressive (slice_index_or shards.old k no_shard) }
{
    let mut hands = [Hand::new(alloc), Hand::new(alloc)];
    let Some(exchange) = hand_each_other_mail(rt, alloc, case, shards, &mut hands) else {
        return false;
    };
    let is_left = is_left(&exchange);
    drop(exchange);
    is_left
}

/// Whether two workers do so as a case begins.
fn leave_no_mail_of<R: Wait>(rt: &R, alloc: Global, case: &Case) -> bool {
    let Ok(mut shards) = shards_of(alloc, case) else {
        return false;
    };
    let leave_none = leave_no_mail(rt, alloc, case, &mut shards);
    drop(shards);
    leave_none
}

/// Whether two workers do so as DISAGREE begins.
fn leave_no_mail_of_disagree<R: Wait>(rt: &R, alloc: Global) -> bool {
    let Ok(case) = case(alloc, DISAGREE) else {
        return false;
    };
    let leave_none = leave_no_mail_of(rt, alloc, &case);
    drop(case);
    leave_none
}

#[test]
fn two_workers_hand_each_other_mail(rt: HostRuntime) {
    assert!(rt; leave_no_mail_of_disagree(&rt, rt.alloc()));
}
