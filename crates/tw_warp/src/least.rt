//! The least time of all that is loose, which is the bound.
ghost use Rattle.std.specs.Prelude.{◌≡◌, ◌++◌, map, min};
ghost use Rattle.std.specs.Option.{option_map_or};
ghost use Rattle.tw_core.specs.Steps.{least_time};
ghost use Rattle.tw_model.specs.Case.{Case as ACase, simulation};
ghost use Rattle.tw_warp.specs.Bounds.{least_of_all, raised};

use tw_event::Event;
use tw_shard::Shard;
use tw_sim::Signed;

/// The least time of what waits or is held at these shards, and of another time.
pub(crate) fn least_waiting(shards: &[Shard<'_>], top: u64) -> u64
    ensures { (case : ACase) → result ≡ least_of_all (simulation case) (λ s. s.pending ++ s.kept ++ s.held) shards.now top }
{
    let mut least = top;
    for shard in shards {
        least = lesser(least, shard.report_time());
    }
    least
}

/// The lesser of a time and of another, if there is another.
fn lesser(time: u64, other: Option<u64>) -> u64
    ensures { result ≡ option_map_or (λ o. min time o) other time }
{
    match other {
        Some(other) => time.min(other),
        None => time,
    }
}

/// The least time of messages, and of another time.
pub(crate) fn least_in_flight(messages: &[Signed<Event>], top: u64) -> u64
    ensures { (case : ACase) → result ≡ least_time (simulation case) (map (λ x. x.event) messages.now) top }
{
    let mut least = top;
    for message in messages {
        least = least.min(message.event.time);
    }
    least
}

/// Each shard's bound becomes the greater of itself and this one.
pub(crate) fn raise_bounds(shards: &mut [Shard<'_>], bound: u64)
    ensures { shards.new ≡ map (raised bound) shards.old }
{
    for shard in shards {
        shard.raise_bound(bound);
    }
}
