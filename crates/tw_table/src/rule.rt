//! The rule of the queue that the exchange lies in.
ghost use Rattle.std.specs.Prelude.{◌≡◌, [], ⊤};

use crossbeam_queue::protocol::{Join, Lesson, Outcome, Protocol, Split};
use crossbeam_queue::{Pass, RuledArrayQueue};
use std::collections::LinkedList;
use std::marker::{Brand, Model};
use tw_exchange::Exchange;

/// The exchange, as it lies in the queue: it stays where it is, so that little moves as it is taken and given back.
#[derive(Drop)]
pub struct Laid {
    pub(crate) exchange: Box<Exchange>,
}

impl Model for Laid {
    ghost use Rattle.tw_exchange.specs.Board.{Board};

    ghost Value = { Board };

    ghost view = { λ laid. laid.exchange.value };
}

/// The share of a worker, as the rule sees it. No value of it is made.
pub struct Share {
    nothing: (),
}

impl Model for Share {
    ghost use Rattle.tw_table.specs.Shares as spec;

    ghost Value = { spec.Share };

    ghost view = { λ s. spec.no_share };
}

/// What a pass of the queue knows. No value of it is made.
pub struct View {
    /// Whether nothing was given yet.
    pub opening: bool,
    /// How many workers there are.
    pub workers: u64,
    /// The worker of each router, where a list says it.
    pub owners: Option<LinkedList<u32>>,
    /// What was given last by the workers that this pass stands for.
    pub shares: LinkedList<Share>,
    /// The greatest bound that it has seen, in ticks.
    pub seen: u64,
    /// The stop of the exchange, in ticks.
    pub stop: u64,
    /// Whether it left the exchange with the mark that halts the workers.
    pub halted: bool,
    /// Whether it had left it so the time before.
    pub was_halted: bool,
    /// What its worker had reported when it left the exchange, in ticks.
    pub report: Option<u64>,
    /// The exchange, as it was taken, while this pass has it.
    pub held: LinkedList<Laid>,
}

/// The exchange is in the queue or with one pass, and the workers' places keep the rule with it.
pub struct OneExchange;

impl Protocol<Laid, View> for OneExchange {
    ghost use Rattle.tw_table.specs.Views.{Holds, first_view};

    ghost holds = { Holds };

    ghost first = { first_view };
}

/// The exchange leaves the queue.
pub struct Takes;

impl Outcome<Laid, View> for Takes {
    ghost use Rattle.tw_table.specs.Views.{Taken};

    ghost then = { Taken };
}

/// A pass of the first place leaves one of the others.
pub struct Deals;

impl Split<View> for Deals {
    ghost use Rattle.tw_table.specs.Views.{with_first, with_others};

    ghost left = { with_others };

    ghost right = { with_first };
}

/// Two passes become one.
pub struct Joins;

impl Join<View> for Joins {
    ghost use Rattle.tw_table.specs.Views.{joined, spent_view};

    ghost both = { joined };

    ghost spent = { spent_view };
}

// What a push tells is picked at each call.
impl Outcome<Laid, View> for Brand {
    ghost then = { λ v x w. ⊤ };
}

impl Lesson<Laid, View> for Brand {
    ghost fact = { λ v items. items ≡ [] };
}

/// The queue with one place, in which the exchange lies.
pub type Queue = RuledArrayQueue<Laid, View, OneExchange>;

/// A pass of that queue.
pub type Ticket = Pass<Laid, View>;
