//! What a shard's routers have undone and taken back, as it is counted. No promise rests on it.

use tw_sim::Cancel;

/// What routers have undone, what was taken back by it, and what came of that (after Jefferson, Virtual Time, 1985, and
/// Gafni, Rollback Mechanisms for Optimistic Distributed Simulation Systems, 1988).
#[derive(Clone, Copy, Default, PartialEq, Eq, Debug)]
pub struct Tally {
    /// Events that were undone.
    pub undone: u64,
    /// Messages and antimessages for which events were undone.
    pub rollbacks: u64,
    /// How many events were undone for one of them, at most.
    pub longest: u64,
    /// Antimessages that were sent.
    pub antimessages: u64,
    /// Messages that events sent which were undone later, and that were sent again and so needed no antimessage.
    pub matched: u64,
    /// Antimessages that took their event out of the pending ones.
    pub annihilated_pending: u64,
    /// Antimessages that were kept until their message came.
    pub annihilated_kept: u64,
    /// Routers that came from another shard.
    pub moved: u64,
}

impl Tally {
    /// Counting begins while so many messages are held.
    pub(crate) fn beginning(held: usize) -> Tally {
        Tally {
            matched: held as u64,
            ..Tally::default()
        }
    }

    /// What it is while so many messages are held: it counts these as matched until they are released.
    pub(crate) fn without_held(self, held: usize) -> Tally {
        Tally {
            matched: self.matched.saturating_sub(held as u64),
            ..self
        }
    }

    /// An event was undone, which had sent so many messages: antimessages went out for them, or they are held.
    pub(crate) fn count_undone(&mut self, sent: usize, cancel: Cancel) {
        self.undone = self.undone.saturating_add(1);
        let sent = sent as u64;
        match cancel {
            Cancel::Aggressive => self.antimessages = self.antimessages.saturating_add(sent),
            Cancel::Lazy => self.matched = self.matched.saturating_add(sent),
        }
    }

    /// For a message or an antimessage all was undone that had to be; so many events were undone before it came.
    pub(crate) fn count_rollback(&mut self, before: u64) {
        let length = self.undone.saturating_sub(before);
        self.rollbacks = self.rollbacks.saturating_add(u64::from(length > 0));
        self.longest = self.longest.max(length);
    }

    /// So many held messages were taken back.
    pub(crate) fn count_released(&mut self, count: usize) {
        self.antimessages = self.antimessages.saturating_add(count as u64);
        self.matched = self.matched.saturating_sub(count as u64);
    }

    /// An antimessage came, or was looked for, and took its event out of the pending ones, or did not.
    pub(crate) fn count_pending(&mut self, is_taken: bool) {
        self.annihilated_pending = self.annihilated_pending.saturating_add(u64::from(is_taken));
    }

    /// A message came, and vanished with its antimessage, which was kept, or did not.
    pub(crate) fn count_kept(&mut self, is_taken: bool) {
        self.annihilated_kept = self.annihilated_kept.saturating_add(u64::from(is_taken));
    }

    /// A router leaves for another shard, with so many messages that are held for it.
    pub(crate) fn count_leaving(&mut self, held: usize) {
        self.matched = self.matched.saturating_sub(held as u64);
    }

    /// A router has come from another shard, with so many messages that are held for it.
    pub(crate) fn count_coming(&mut self, held: usize) {
        self.moved = self.moved.saturating_add(1);
        self.matched = self.matched.saturating_add(held as u64);
    }
}
