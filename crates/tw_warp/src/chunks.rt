//! Messages in chunks, so that one can be taken out from anywhere without moving all that stand behind it.
ghost use Rattle.std.specs.Prelude.{◌≡◌, ◌++◌, ◌+◌, length, map, slice_get, take};
ghost use Rattle.tw_core.specs.Steps.{least_time};
ghost use Rattle.tw_model.specs.Case.{Case as ACase, simulation};
ghost use Rattle.tw_warp.specs.Flight.{all_of, IsPlaceIn};

use crate::least::least_in_flight;
use tw_event::Event;
use tw_sim::Signed;

/// How many messages make a chunk. To take one out, half a chunk is moved on the average, at 48 bytes a message,
/// and the lengths of the chunks before it are read: at 10,000 messages 12 KB are moved and 20 lengths read at most.
pub(crate) const CHUNK: usize = 512;

/// Where a message stands.
#[derive(Clone, Copy)]
pub(crate) struct Spot {
    /// The number of its chunk, from 0.
    pub(crate) chunk: usize,
    /// Its place in that chunk, or behind all chunks, from 0.
    pub(crate) index: usize,
}

/// Where the message at a place, from 0, stands. Past the last chunk the number is that of all chunks.
pub(crate) fn find(chunks: &[Vec<Signed<Event>>], index: usize) -> Spot
    ensures before { length (all_of (take result.chunk chunks.now)) + result.index ≡ index }
    ensures within { IsPlaceIn chunks.now result.chunk result.index }
{
    let mut spot = Spot { chunk: 0, index };
    for chunk in chunks {
        if spot.index < chunk.len() {
            return spot;
        }
        spot.index -= chunk.len();
        spot.chunk += 1;
    }
    spot
}

/// The message at a place of a list, from 0.
pub(crate) fn pick(messages: &[Signed<Event>], index: usize) -> Option<Signed<Event>>
    ensures { result ≡ slice_get messages.now index }
{
    messages.get(index).copied()
}

/// A chunk takes in the next one, where the two make no more than one chunk. Where memory is refused they stay
/// two, which costs time alone. Without it the chunks would become many and short, and to find a message slow.
pub(crate) fn join(chunks: &mut Vec<Vec<Signed<Event>>>, place: usize)
    ensures { all_of chunks.new.items ≡ all_of chunks.old.items }
{
    if place >= chunks.len() || place + 1 >= chunks.len() {
        return;
    }
    let more = chunks[place + 1].len();
    if more > CHUNK.saturating_sub(chunks[place].len()) {
        return;
    }
    if chunks[place].reserve(more).is_ok() {
        let mut next = chunks.remove(place + 1);
        chunks[place].append(&mut next).unwrap();
    }
}

/// How many messages there are in chunks and behind them.
pub(crate) fn count(chunks: &[Vec<Signed<Event>>], recent: &[Signed<Event>]) -> u128
    ensures { result ≡ length (all_of chunks.now ++ recent.now) }
{
    let mut count = recent.len() as u128;
    for chunk in chunks {
        count += chunk.len() as u128;
    }
    count
}

/// The least time of messages in chunks, and of another time.
pub(crate) fn least_in_chunks(chunks: &[Vec<Signed<Event>>], top: u64) -> u64
    ensures { (case : ACase) → result ≡ least_time (simulation case) (map (λ x. x.event) (all_of chunks.now)) top }
{
    let mut least = top;
    for chunk in chunks {
        least = least_in_flight(chunk, least);
    }
    least
}
