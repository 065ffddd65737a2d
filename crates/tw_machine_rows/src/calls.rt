//! What is asked of a shard, line by line, and what it shows then.

ghost use Rattle.std.specs.Prelude.{◌≡◌};

use crate::messages::list;
use std::alloc::{AllocError, Global};
use tw_event::{Event, PathNo};
use tw_handlers::does_suit;
use tw_shard::{OrMemory, Refusal, Returned, Shard};
use tw_sim::Signed;

/// What is asked of a shard.
#[derive(Clone, Copy)]
pub(crate) enum Call {
    /// A router handles its first event to stop 20.
    Handle(u32),
    /// A router undoes its last event.
    Undo(u32),
    /// A router commits what is before the bound.
    Commit(u32),
    /// The least of all events is handled, where it is before this time, which is 20 at most.
    HandleLeast(u64),
    /// A message comes.
    Receive(Signed<Event>),
    /// A message comes, and is welcome.
    Welcome(Signed<Event>),
    /// Pending events are kept by time.
    OrderByTime,
}

/// How a shard answers.
#[derive(Clone, Copy, PartialEq)]
pub(crate) enum Answer {
    Done,
    /// An event of this time is handled.
    Handled(u64),
    Refused(Refusal),
    Returned(Returned),
    /// Memory was refused.
    NoMemory,
    /// This may not be asked.
    Unasked,
}

/// What is asked of a shard and how it answers, or what it shows.
#[derive(Clone, Copy)]
pub(crate) enum Line<'a> {
    Asks(Call, Answer),
    /// The bound rises to this time.
    RaisesBound(u64),
    /// These messages have been sent, and are taken out.
    TakesOut(&'a [Signed<Event>]),
    /// These messages have been sent.
    HasSent(&'a [Signed<Event>]),
    /// Where a list of messages is lent to it, what a router sends stands behind them, and then nothing is left.
    SendsBehind(&'a [Signed<Event>], u32, &'a [Signed<Event>]),
    /// The least time of what waits.
    Reports(Option<u64>),
    /// The event of a message is pending so often.
    HasPending(Signed<Event>, usize),
    /// So many events are pending.
    PendingCount(usize),
    NonePending,
    /// The antimessage of a message is kept so often.
    HasKept(Signed<Event>, usize),
    NoneKept,
    /// The least time of what is held for a router.
    HasHeld(u32, Option<u64>),
    /// Its routers, in order.
    HasRouters(&'a [u32]),
    IsWithout(u32),
    /// A router has chosen this path.
    HasChosen(u32, PathNo),
    /// A router has handled the event of a message, and nothing else.
    HasHandledAlone(u32, Signed<Event>),
    Stands(u32, Standing),
    Has(Amounts),
}

/// How many events a router has committed and how many are ahead, and the time to which it is done, which is the bound.
#[derive(Clone, Copy)]
pub(crate) struct Standing {
    pub(crate) committed: usize,
    pub(crate) ahead: usize,
    pub(crate) bound: u64,
}

/// How many routers a shard has, what is pending and what is kept for them, what is held for them, and what they have
/// sent; and its bound.
#[derive(Clone, Copy, PartialEq)]
pub(crate) struct Amounts {
    pub(crate) routers: usize,
    pub(crate) pending: usize,
    pub(crate) kept: usize,
    pub(crate) held: usize,
    pub(crate) sent: usize,
    pub(crate) bound: u64,
}

impl Amounts {
    pub(crate) fn of(shard: &Shard<'_>) -> Amounts {
        Amounts {
            routers: shard.router_count(),
            pending: shard.pending().len(),
            kept: shard.kept().len(),
            held: shard.held_len(),
            sent: shard.outgoing().len(),
            bound: shard.bound(),
        }
    }
}

impl From<Result<(), OrMemory<Refusal>>> for Answer {
    fn from(answer: Result<(), OrMemory<Refusal>>) -> Answer {
        match answer {
            Ok(()) => Answer::Done,
            Err(OrMemory::Fault(refusal)) => Answer::Refused(refusal),
            Err(OrMemory::Memory) => Answer::NoMemory,
        }
    }
}

impl From<Result<u64, OrMemory<Refusal>>> for Answer {
    fn from(answer: Result<u64, OrMemory<Refusal>>) -> Answer {
        match answer {
            Ok(time) => Answer::Handled(time),
            Err(OrMemory::Fault(refusal)) => Answer::Refused(refusal),
            Err(OrMemory::Memory) => Answer::NoMemory,
        }
    }
}

impl From<Result<(), Returned>> for Answer {
    fn from(answer: Result<(), Returned>) -> Answer {
        match answer {
            Ok(()) => Answer::Done,
            Err(returned) if returned.why == OrMemory::Memory => Answer::NoMemory,
            Err(returned) => Answer::Returned(returned),
        }
    }
}

impl From<Result<(), AllocError>> for Answer {
    fn from(answer: Result<(), AllocError>) -> Answer {
        match answer {
            Ok(()) => Answer::Done,
            Err(_) => Answer::NoMemory,
        }
    }
}

/// A message comes where it is welcome.
fn welcome(shard: &mut Shard<'_>, message: &Signed<Event>) -> Answer
    ensures { shard.new.terms.case ≡ shard.old.terms.case }
{
    let event = &message.event;
    if !shard.owns(event.dst)
        || event.time < shard.bound()
        || !does_suit(shard.instance(), event.dst, event)
    {
        return Answer::Unasked;
    }
    Answer::from(shard.receive_welcome(message))
}

/// Asks a shard.
fn ask(shard: &mut Shard<'_>, call: Call) -> Answer
    ensures { shard.new.terms.case ≡ shard.old.terms.case }
{
    match call {
        Call::Handle(router) => Answer::from(shard.handle_next(router, 20)),
        Call::Undo(router) => Answer::from(shard.undo_last(router)),
        Call::Commit(router) if shard.retains() => Answer::from(shard.commit(router)),
        Call::HandleLeast(limit) if limit <= 20 => Answer::from(shard.handle_least(limit)),
        Call::Receive(message) => Answer::from(shard.receive(message)),
        Call::Welcome(message) => welcome(shard, &message),
        Call::OrderByTime => Answer::from(shard.order_by_time()),
        _ => Answer::Unasked,
    }
}

/// Whether a shard answers so. It is asked once more where memory was refused.
fn answers(shard: &mut Shard<'_>, call: Call, due: Answer) -> bool
    ensures { shard.new.terms.case ≡ shard.old.terms.case }
{
    match ask(shard, call) {
        Answer::NoMemory => ask(shard, call) == due,
        answer => answer == due,
    }
}

/// Whether what a router sends stands behind the messages of a list that is lent, and then nothing is left.
fn sends_behind(
    alloc: Global,
    shard: &mut Shard<'_>,
    lent: &[Signed<Event>],
    router: u32,
    sent: &[Signed<Event>],
) -> bool
    ensures { shard.new.terms.case ≡ shard.old.terms.case }
{
    let Ok(mut messages) = list(alloc, lent) else {
        return false;
    };
    shard.swap_outgoing(&mut messages);
    let handles = messages.is_empty() && answers(shard, Call::Handle(router), Answer::Done);
    shard.swap_outgoing(&mut messages);
    handles && messages.as_slice() == sent && shard.outgoing().is_empty()
}

/// Whether a line holds that changes a shard, or is shown by it.
pub(crate) fn holds_on(alloc: Global, shard: &mut Shard<'_>, line: Line<'_>) -> bool
    ensures { shard.new.terms.case ≡ shard.old.terms.case }
{
    match line {
        Line::Asks(call, answer) => answers(shard, call, answer),
        Line::RaisesBound(time) => {
            shard.raise_bound(time);
            true
        }
        Line::TakesOut(messages) => shard.take_out().as_slice() == messages,
        Line::SendsBehind(lent, router, sent) => sends_behind(alloc, shard, lent, router, sent),
        line => shows(shard, line),
    }
}

/// Whether a shard is as a line says, which changes nothing.
fn shows(shard: &Shard<'_>, line: Line<'_>) -> bool {
    match line {
        Line::HasSent(messages) => shard.outgoing() == messages,
        Line::Reports(time) => shard.report_time() == time,
        Line::HasPending(message, count) => shard.pending().count(&message.event) == count,
        Line::PendingCount(count) => shard.pending().len() == count,
        Line::NonePending => shard.pending().is_empty(),
        Line::HasKept(message, count) => shard.kept().count(&message.event) == count,
        Line::NoneKept => shard.kept().is_empty(),
        Line::HasHeld(router, time) => shard.held_time(router) == time,
        Line::HasRouters(routers) => has_routers(shard, routers),
        Line::IsWithout(router) => !shard.owns(router),
        Line::Has(amounts) => Amounts::of(shard) == amounts,
        line => shows_of_router(shard, line),
    }
}

/// Whether a router of a shard is as a line says.
fn shows_of_router(shard: &Shard<'_>, line: Line<'_>) -> bool {
    match line {
        Line::HasChosen(router, path) => shard.owns(router) && shard.router(router).rib() == path,
        Line::HasHandledAlone(router, message) => {
            shard.owns(router)
                && shard.retains()
                && shard.handled(router, 0) == Some(message.event)
                && shard.handled(router, 1) == None
        }
        Line::Stands(router, standing) => stands(shard, router, standing),
        _ => false,
    }
}

/// Whether a router of a shard stands so.
fn stands(shard: &Shard<'_>, router: u32, standing: Standing) -> bool {
    shard.owns(router)
        && shard.retains()
        && shard.committed(router) == standing.committed
        && shard.ahead(router) == standing.ahead
        && shard.done(router) == standing.bound
        && shard.bound() == standing.bound
}

/// Whether these are the routers of a shard, in order.
fn has_routers(shard: &Shard<'_>, routers: &[u32]) -> bool {
    if shard.router_count() != routers.len() {
        return false;
    }
    for (place, router) in routers.iter().enumerate() {
        if shard.router_at(place) != *router {
            return false;
        }
    }
    true
}

/// Whether the lines hold one after the other.
pub(crate) fn goes_by(alloc: Global, shard: &mut Shard<'_>, lines: &[Line<'_>]) -> bool {
    for line in lines {
        if !holds_on(alloc, shard, *line) {
            return false;
        }
    }
    true
}
