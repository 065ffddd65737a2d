//! The messages in a worker's hand.
ghost use Rattle.std.specs.Prelude.{◌≡◌, ◌+◌, ◌++◌, ◌≤◌, IsOk, OnErr, OnOk, [], filter, length, vec_capacity, vec_len};
ghost use Rattle.tw_exchange.specs.Board.{is_to, is_to_another};
ghost use Rattle.tw_table.specs.Moving.{waiting};

use std::alloc::{AllocError, Global};
use tw_event::Event;
use tw_sim::Signed;

/// The messages that are in a worker's hand: mail that it was handed, and what no visit has taken.
#[derive(Drop, Debug)]
pub struct Hand {
    /// The mail, in the order handed out.
    pub mail: Vec<Signed<Event>>,
    /// How many of its messages are delivered, the first ones.
    pub next: usize,
    /// What its routers have sent and no visit has taken yet.
    pub out: Vec<Signed<Event>>,
}

impl Hand {
    /// A hand with no messages.
    pub fn new(alloc: Global) -> Hand
        ensures mail { result.mail.items ≡ [] }
        ensures next { result.next ≡ 0 }
        ensures out { result.out.items ≡ [] }
    {
        Hand {
            mail: Vec::new(alloc),
            next: 0,
            out: Vec::new(alloc),
        }
    }

    /// The mail for one router that is not delivered goes to another hand, behind the mail there. What no visit
    /// has taken stays. For want of memory nothing has changed; it cannot fail where there is room for all mail.
    pub fn hand_over(&mut self, router: u32, to: &mut Hand) -> Result<(), AllocError>
        ensures came { OnOk result (waiting to.new ≡ waiting to.old ++ filter (is_to router) (waiting self.old)) }
        ensures left { OnOk result (waiting self.new ≡ filter (is_to_another router) (waiting self.old)) }
        ensures err { OnErr result (self.new ≡ self.old) }
        ensures none_came { OnErr result (waiting to.new ≡ waiting to.old) }
        ensures to_mail { OnErr result (to.new.mail.items ≡ to.old.mail.items) }
        ensures to_next { OnErr result (to.new.next ≡ to.old.next) }
        ensures next { OnOk result (to.new.next ≡ 0) }
        ensures out { self.new.out ≡ self.old.out }
        ensures to_out { to.new.out ≡ to.old.out }
        ensures succeeds { vec_len to.old.mail + vec_len self.old.mail ≤ vec_capacity to.old.mail → IsOk result }
        ensures room { vec_capacity to.old.mail ≤ vec_capacity to.new.mail }
        ensures fits { OnOk result (vec_len to.new.mail ≤ vec_len to.old.mail + vec_len self.old.mail) }
    {
        to.mail.reserve(self.mail.len())?;
        to.drop_delivered();
        self.drop_delivered();
        push_for(router, &self.mail, &mut to.mail);
        drop_for(router, &mut self.mail);
        Ok(())
    }

    /// The delivered messages go.
    fn drop_delivered(&mut self)
        ensures mail { self.new.mail.items ≡ waiting self.old }
        ensures next { self.new.next ≡ 0 }
        ensures out { self.new.out ≡ self.old.out }
        ensures fewer { vec_len self.new.mail ≤ vec_len self.old.mail }
        ensures capacity { vec_capacity self.new.mail ≡ vec_capacity self.old.mail }
    {
        self.mail.drain(..self.next.min(self.mail.len()));
        self.next = 0;
    }
}

/// Puts those of the messages that are for one router behind others, where there is room for all of them.
fn push_for(router: u32, messages: &[Signed<Event>], to: &mut Vec<Signed<Event>>)
    requires room { vec_len to.old + length messages.now ≤ vec_capacity to.old }
    ensures items { to.new.items ≡ to.old.items ++ filter (is_to router) messages.now }
    ensures capacity { vec_capacity to.new ≡ vec_capacity to.old }
    ensures fits { vec_len to.new ≤ vec_len to.old + length messages.now }
{
    for message in messages {
        if message.event.dst == router {
            to.push_reserved(*message);
        }
    }
}

/// Drops those of the messages that are for one router.
fn drop_for(router: u32, messages: &mut Vec<Signed<Event>>)
    ensures { messages.new.items ≡ filter (is_to_another router) messages.old.items }
{
    messages.retain(|message| message.event.dst != router);
}
