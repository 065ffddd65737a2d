//! What is told of the exchange beside it.

use crossbeam_utils::CachePadded;
use std::sync::atomic::{AtomicU64, Ordering};
use tw_exchange::Exchange;

/// What the worker that gave the exchange back last told of it, for those who wait. No promise rests on it: it may
/// be told late.
#[derive(Drop)]
pub(crate) struct Hints {
    told: CachePadded<Told>,
}

#[derive(Drop)]
struct Told {
    bound: AtomicU64,
    // A bit for each worker that has mail, of which there are 64 at most.
    mail: AtomicU64,
}

impl Hints {
    /// Nothing is told yet.
    pub(crate) fn new() -> Hints {
        Hints {
            told: CachePadded::new(Told {
                bound: AtomicU64::new(0),
                mail: AtomicU64::new(0),
            }),
        }
    }

    /// Tells of an exchange.
    pub(crate) fn tell(&self, exchange: &Exchange) {
        tell_news(&self.told.bound, exchange.bound());
        tell_news(&self.told.mail, mail_bits(exchange));
    }

    /// Whether a bound beyond this one was told; or mail for a worker, and a bound of `mail_bound` at least.
    pub(crate) fn is_news_for(&self, worker: u32, bound: u64, mail_bound: u64) -> bool {
        let told = self.told.bound.load(Ordering::Acquire);
        told > bound
            || (told >= mail_bound && self.told.mail.load(Ordering::Acquire) & bit_of(worker) != 0)
    }
}

/// Writes a number where another one stands: a write takes the line of memory away from all that look at it.
fn tell_news(told: &AtomicU64, number: u64) {
    if told.load(Ordering::Acquire) != number {
        told.store(number, Ordering::Release);
    }
}

/// A bit for each worker that has mail.
fn mail_bits(exchange: &Exchange) -> u64 {
    let mut bits = 0;
    for worker in 0..exchange.workers() {
        if !exchange.mail(worker).is_empty() {
            bits |= bit_of(worker);
        }
    }
    bits
}

fn bit_of(worker: u32) -> u64 {
    1u64.wrapping_shl(worker)
}
