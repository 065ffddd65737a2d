//! What is kept of a handled event to undo it (docs/DECISIONS.md, 'Router': a record holds no list).

ghost use Rattle.std.specs.Prelude.{◌≡◌, true, false};

use crate::event::PathNo;
use std::mem::size_of;

const SIZE: usize = size_of::<UndoRecord>();

/// What undoing an event needs beside the event and the state that it left, in 12 bytes. It holds no
/// collection: what the event sent is made again from the state.
#[derive(Clone, Copy, PartialEq, Eq, Debug)]
pub struct UndoRecord {
    /// Whether the event took effect: it was not dropped, its link not already down or up, and its path not
    /// already barred or allowed.
    pub took_effect: bool,
    /// Whether the router's path changed.
    pub changed: bool,
    /// The path that the router used before.
    pub rib: PathNo,
    /// The path heard before from the neighbour whose link failed or that sent the update; else the
    /// empty path.
    pub heard: PathNo,
}

impl UndoRecord {
    /// The record of an event that took effect.
    pub fn of_effect(changed: bool, rib: PathNo, heard: PathNo) -> UndoRecord
        ensures { result ≡ record { took_effect = true; changed = changed; rib = rib; heard = heard } }
    {
        // A record is kept for each event that may be undone, so no list may hide in it.
        prove!(SIZE == 12);
        UndoRecord {
            took_effect: true,
            changed,
            rib,
            heard,
        }
    }

    /// The record of an event that took no effect.
    pub fn without_effect(rib: PathNo, heard: PathNo) -> UndoRecord
        ensures { result ≡ record { took_effect = false; changed = false; rib = rib; heard = heard } }
    {
        UndoRecord {
            took_effect: false,
            changed: false,
            rib,
            heard,
        }
    }
}
