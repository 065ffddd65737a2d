//! How many messages are on their way.
ghost use Rattle.std.specs.Prelude.{◌≡◌, ◌++◌, drop, length};
ghost use Rattle.std.specs.List.{flat_map};
ghost use Rattle.tw_exchange.specs.Board.{all_mail};

use tw_exchange::Exchange;
use tw_table::Hand;

/// How many messages wait for workers.
pub(crate) fn count_mail(exchange: &Exchange) -> u128
    ensures { result ≡ length (all_mail exchange.now) }
{
    let mut count = 0_u128;
    for worker in 0..exchange.workers() {
        count += exchange.mail(worker).len() as u128;
    }
    count
}

/// How many messages are in hands.
pub(crate) fn count_in_hands(hands: &[Hand]) -> u128
    ensures { result ≡ length (flat_map (λ h. drop h.next h.mail.items ++ h.out.items) hands.now) }
{
    let mut count = 0_u128;
    for hand in hands {
        count += hand.mail.len().saturating_sub(hand.next) as u128 + hand.out.len() as u128;
    }
    count
}
