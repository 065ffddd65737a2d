//! A share of the processes takes its turn: again and again the first event among them is handled.
//!
//! What is sent within the share is received at once, so that nothing of it comes late. What is for others stays until
//! the end of the round.

ghost use Rattle.std.specs.Prelude.{ℕ, ◌≡◌, ◌+◌, ◌<◌, ◌++◌, ◌∷◌, [], List, Some, OnErr, OnOk, length, slice_get};
ghost use Rattle.tw_rounds.specs.Shares.{GoesOn, HasTurned, IsShare, IsLast, KeepsRule, TellsLeast, on_way};
ghost use Rattle.tw_rounds.specs.declared.turning.Round.{Round as ARound};

use crate::least::least_of;
use crate::limits::MOST_MESSAGES;
use crate::member::Member;
use crate::schedule::Schedule;
use crate::sent::Sent;
use crate::turning::Round;
use crate::window::most_events;
use std::alloc::AllocError;
use tw_process::{ProcessModel, Refused, Timed};
use tw_sim::Signed;

/// The share of processes that begins at this number takes its turn.
pub(crate) fn take_turn<M: ProcessModel>(members: &mut [Member<'_, M>], start: usize, round: Round)
    requires some { 0 < length members.old }
    requires share { IsShare M.Event.parts M.Event.cmp M.behaviour round start members.old [] }
    ensures { HasTurned M.Event.parts M.Event.cmp M.behaviour round start members.old members.new }
{
    let mut sent = take_sent(members);
    let went = go_on(members, start, round, &mut sent);
    keep_sent(members, sent, went.is_err());
    tell_least(members, round.stop);
}

/// What the share had to send on is on its way.
fn take_sent<M: ProcessModel>(members: &mut [Member<'_, M>]) -> Sent<M::Event>
    requires some { 0 < length members.old }
    ensures rule { (round : ARound) (start : ℕ) → KeepsRule M.Event.parts M.Event.cmp M.behaviour round start members.old [] members.new (on_way result) }
    ensures empty { (x : _) → slice_get members.new 0 ≡ Some x → x.outbox ≡ [] }
{
    members[0].take_sent()
}

/// The share has all that is on its way to send on. Want of memory is noted.
fn keep_sent<M: ProcessModel>(
    members: &mut [Member<'_, M>],
    sent: Sent<M::Event>,
    wants_memory: bool,
)
    requires some { 0 < length members.old }
    requires empty { (x : _) → slice_get members.old 0 ≡ Some x → x.outbox ≡ [] }
    ensures { (round : ARound) (start : ℕ) → KeepsRule M.Event.parts M.Event.cmp M.behaviour round start members.old (on_way sent) members.new [] }
{
    members[0].end_round(sent, wants_memory);
}

/// The first one tells a time that is not beyond the stop, in ticks, nor beyond those of all that waits in the share or is
/// to be sent on.
fn tell_least<M: ProcessModel>(members: &mut [Member<'_, M>], stop: u64)
    requires some { 0 < length members.old }
    ensures rule { (round : ARound) (start : ℕ) → KeepsRule M.Event.parts M.Event.cmp M.behaviour round start members.old [] members.new [] }
    ensures told { TellsLeast M.Event.parts M.Event.cmp M.behaviour members.new }
{
    let least = least_of(members, stop);
    members[0].put_least(least);
}

/// All begin the round, and then handle their events before its limit, the first one first.
fn go_on<M: ProcessModel>(
    members: &mut [Member<'_, M>],
    start: usize,
    round: Round,
    sent: &mut Sent<M::Event>,
) -> Result<(), AllocError>
    requires share { IsShare M.Event.parts M.Event.cmp M.behaviour round start members.old (on_way sent.old) }
    ensures { GoesOn M.Event.parts M.Event.cmp M.behaviour round start members.old (on_way sent.old) members.new (on_way sent.new) }
{
    let mut schedule = Schedule::new(round.alloc, members.len())?;
    begin_all(members, start, round, sent, &mut schedule)?;
    settle(members, start, round, sent, &mut schedule)?;
    handle_all(members, start, round, sent, &mut schedule)
}

/// All begin the round.
fn begin_all<M: ProcessModel>(
    members: &mut [Member<'_, M>],
    start: usize,
    round: Round,
    sent: &mut Sent<M::Event>,
    schedule: &mut Schedule,
) -> Result<(), AllocError>
    requires share { IsShare M.Event.parts M.Event.cmp M.behaviour round start members.old (on_way sent.old) }
    ensures { GoesOn M.Event.parts M.Event.cmp M.behaviour round start members.old (on_way sent.old) members.new (on_way sent.new) }
{
    for place in 0..members.len() {
        begin_at(members, start, round, place)?;
        schedule.set(place, members[place].next_time());
        send_at(members, place, sent)?;
    }
    Ok(())
}

/// The process at this place begins the round.
fn begin_at<M: ProcessModel>(
    members: &mut [Member<'_, M>],
    start: usize,
    round: Round,
    place: usize,
) -> Result<(), AllocError>
    requires here { place < length members.old }
    requires share { (sent : _) × IsShare M.Event.parts M.Event.cmp M.behaviour round start members.old sent }
    ensures { (sent : _) → GoesOn M.Event.parts M.Event.cmp M.behaviour round start members.old sent members.new sent }
{
    members[place].begin_round(round.bound)
}

/// What the process at this place has sent is on its way.
fn send_at<M: ProcessModel>(
    members: &mut [Member<'_, M>],
    place: usize,
    sent: &mut Sent<M::Event>,
) -> Result<(), AllocError>
    requires { place < length members.old }
    ensures { (round : ARound) (start : ℕ) → GoesOn M.Event.parts M.Event.cmp M.behaviour round start members.old (on_way sent.old) members.new (on_way sent.new) }
{
    sent.counts.add_sent(members[place].process().flight());
    members[place].send_out(&mut sent.near)
}

/// Events before the limit are handled, the first one first.
fn handle_all<M: ProcessModel>(
    members: &mut [Member<'_, M>],
    start: usize,
    round: Round,
    sent: &mut Sent<M::Event>,
    schedule: &mut Schedule,
) -> Result<(), AllocError>
    requires share { IsShare M.Event.parts M.Event.cmp M.behaviour round start members.old (on_way sent.old) }
    ensures { GoesOn M.Event.parts M.Event.cmp M.behaviour round start members.old (on_way sent.old) members.new (on_way sent.new) }
{
    for _ in 0..most_events(members.len()) {
        let Some(place) = schedule.first_before(round.limit) else {
            break;
        };
        handle_next(members, start, round, place, sent, schedule)?;
    }
    Ok(())
}

/// The process at this place handles its first event, and what is sent within the share is received.
fn handle_next<M: ProcessModel>(
    members: &mut [Member<'_, M>],
    start: usize,
    round: Round,
    place: usize,
    sent: &mut Sent<M::Event>,
    schedule: &mut Schedule,
) -> Result<(), AllocError>
    requires share { IsShare M.Event.parts M.Event.cmp M.behaviour round start members.old (on_way sent.old) }
    ensures { GoesOn M.Event.parts M.Event.cmp M.behaviour round start members.old (on_way sent.old) members.new (on_way sent.new) }
{
    if place >= members.len() {
        return Ok(());
    }
    advance_at(members, start, round, place, sent, schedule)?;
    send_at(members, place, sent)?;
    settle(members, start, round, sent, schedule)
}

/// The process at this place handles its first event, where that is before the limit; a full counter is noted.
fn advance_at<M: ProcessModel>(
    members: &mut [Member<'_, M>],
    start: usize,
    round: Round,
    place: usize,
    sent: &mut Sent<M::Event>,
    schedule: &mut Schedule,
) -> Result<(), AllocError>
    requires here { place < length members.old }
    requires share { IsShare M.Event.parts M.Event.cmp M.behaviour round start members.old (on_way sent.old) }
    ensures { GoesOn M.Event.parts M.Event.cmp M.behaviour round start members.old (on_way sent.old) members.new (on_way sent.new) }
{
    match handle_at(members, start, round, place) {
        Ok(has_handled) => {
            sent.counts.add_handled(has_handled);
            schedule.set(place, members[place].next_time());
            Ok(())
        }
        Err(Refused::Memory) => Err(AllocError),
        Err(Refused::CounterFull) => {
            sent.refused = Some(Refused::CounterFull);
            schedule.set(place, u64::MAX);
            Ok(())
        }
    }
}

/// The process at this place handles its first event, where that is before the limit. It is answered whether it did.
fn handle_at<M: ProcessModel>(
    members: &mut [Member<'_, M>],
    start: usize,
    round: Round,
    place: usize,
) -> Result<bool, Refused>
    requires here { place < length members.old }
    requires share { (sent : _) × IsShare M.Event.parts M.Event.cmp M.behaviour round start members.old sent }
    ensures { (sent : _) → GoesOn M.Event.parts M.Event.cmp M.behaviour round start members.old sent members.new sent }
{
    members[place].handle_next(round.limit)
}

/// What was sent within the share is received, and so is what that sends in its turn.
fn settle<M: ProcessModel>(
    members: &mut [Member<'_, M>],
    start: usize,
    round: Round,
    sent: &mut Sent<M::Event>,
    schedule: &mut Schedule,
) -> Result<(), AllocError>
    requires share { IsShare M.Event.parts M.Event.cmp M.behaviour round start members.old (on_way sent.old) }
    ensures { GoesOn M.Event.parts M.Event.cmp M.behaviour round start members.old (on_way sent.old) members.new (on_way sent.new) }
{
    for _ in 0..MOST_MESSAGES {
        let Some(message) = sent.near.last() else {
            break;
        };
        let message = *message;
        deal(members, start, round, message, sent, schedule)?;
    }
    Ok(())
}

/// The last message that was not looked at is received, where it is for a process of the share.
fn deal<M: ProcessModel>(
    members: &mut [Member<'_, M>],
    start: usize,
    round: Round,
    message: Signed<M::Event>,
    sent: &mut Sent<M::Event>,
    schedule: &mut Schedule,
) -> Result<(), AllocError>
    requires last { IsLast message sent.old.near.items }
    requires share { IsShare M.Event.parts M.Event.cmp M.behaviour round start members.old (on_way sent.old) }
    ensures { GoesOn M.Event.parts M.Event.cmp M.behaviour round start members.old (on_way sent.old) members.new (on_way sent.new) }
{
    let number = message.event.dst() as usize;
    if number < start || number - start >= members.len() {
        return pass_on::<M>(message, sent);
    }
    let place = number - start;
    receive_last(members, start, round, place, message, sent)?;
    schedule.set(place, members[place].next_time());
    send_at(members, place, sent)
}

/// The last message that was not looked at is for another share.
fn pass_on<M: ProcessModel>(
    message: Signed<M::Event>,
    sent: &mut Sent<M::Event>,
) -> Result<(), AllocError>
    requires last { IsLast message sent.old.near.items }
    ensures { (round : ARound) (start : ℕ) (xs : _) → GoesOn M.Event.parts M.Event.cmp M.behaviour round start xs (on_way sent.old) xs (on_way sent.new) }
{
    sent.far.push(message)?;
    let _ = sent.near.pop();
    Ok(())
}

/// The process at this place receives the last message that was not looked at.
fn receive_last<M: ProcessModel>(
    members: &mut [Member<'_, M>],
    start: usize,
    round: Round,
    place: usize,
    message: Signed<M::Event>,
    sent: &mut Sent<M::Event>,
) -> Result<(), AllocError>
    requires here { place < length members.old }
    requires own { M.Event.parts.dst message.event ≡ start + place }
    requires last { IsLast message sent.old.near.items }
    requires share { IsShare M.Event.parts M.Event.cmp M.behaviour round start members.old (on_way sent.old) }
    ensures { GoesOn M.Event.parts M.Event.cmp M.behaviour round start members.old (on_way sent.old) members.new (on_way sent.new) }
{
    receive_at(members, start, round, place, message)?;
    let _ = sent.near.pop();
    Ok(())
}

/// The process at this place receives a message that is on its way.
fn receive_at<M: ProcessModel>(
    members: &mut [Member<'_, M>],
    start: usize,
    round: Round,
    place: usize,
    message: Signed<M::Event>,
) -> Result<(), AllocError>
    requires here { place < length members.old }
    requires own { M.Event.parts.dst message.event ≡ start + place }
    requires share { (sent : _) × IsShare M.Event.parts M.Event.cmp M.behaviour round start members.old (sent ++ message ∷ []) }
    ensures ok { (sent : _) → OnOk result (GoesOn M.Event.parts M.Event.cmp M.behaviour round start members.old (sent ++ message ∷ []) members.new sent) }
    ensures err { (sent : _) → OnErr result (GoesOn M.Event.parts M.Event.cmp M.behaviour round start members.old (sent ++ message ∷ []) members.new (sent ++ message ∷ [])) }
{
    members[place].receive(message)
}
