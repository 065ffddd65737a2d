//! What the policy of `tw_turns` is told of a shard. No promise rests on this.

use tw_instance::Instance;
use tw_model::limits::LONGEST_DELAY;
use tw_shard::Shard;
use tw_turns::ALL_TIME;

/// The window, in ticks, within which no event of a shard is undone: no message of others is quicker than the least
/// delay; and where it has all routers, there are no others.
pub(crate) fn least_window(shard: &Shard<'_>) -> u64 {
    let instance = shard.instance();
    if shard.router_count() == instance.nodes() as usize {
        ALL_TIME
    } else {
        least_delay(instance)
    }
}

/// The least delay of a link, in ticks, in either direction.
fn least_delay(instance: &Instance) -> u64 {
    instance.links().iter().fold(
        LONGEST_DELAY,
        |least, link| least.min(link.delay).min(link.back),
    )
}
