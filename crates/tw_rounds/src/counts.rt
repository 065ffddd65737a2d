//! What a run has counted.

use tw_sim::Signed;

/// What the processes of a run have done, since it was opened. A count that reaches 2^64 - 1 stays there.
#[derive(Clone, Copy, Default, PartialEq, Eq, Debug)]
pub struct Counts {
    /// Rounds.
    pub rounds: u64,
    /// Events handled, those that were undone later too.
    pub handled: u64,
    /// Messages sent.
    pub messages: u64,
    /// Antimessages sent.
    pub antimessages: u64,
}

impl Counts {
    /// Adds other counts.
    pub(crate) fn add(&mut self, other: Counts) {
        self.rounds = self.rounds.saturating_add(other.rounds);
        self.handled = self.handled.saturating_add(other.handled);
        self.messages = self.messages.saturating_add(other.messages);
        self.antimessages = self.antimessages.saturating_add(other.antimessages);
    }

    /// Adds one event, where it was handled.
    pub(crate) fn add_handled(&mut self, has_handled: bool) {
        self.handled = self.handled.saturating_add(u64::from(has_handled));
    }

    /// Adds these messages, each as a message or as an antimessage.
    pub(crate) fn add_sent<E>(&mut self, sent: &[Signed<E>]) {
        for message in sent {
            if message.plus {
                self.messages = self.messages.saturating_add(1);
            } else {
                self.antimessages = self.antimessages.saturating_add(1);
            }
        }
    }
}
