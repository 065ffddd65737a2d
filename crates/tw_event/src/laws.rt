//! Laws of the order of events.

ghost use Rattle.std.specs.Prelude.{◌≡◌, ◌↔◌, IsTrue};
ghost use Rattle.tw_event.specs.declared.event.Event.{Event as AnEvent};
ghost use Rattle.tw_event.specs.Order.{event_cmp};

use crate::event::Event;

/// Comparing two events is comparing them by time, receiver, class, sender, number and body, and
/// two events are equal exactly where they are the same in every field.
pub fn order_of_events()
    ensures order { (d e : AnEvent) → ⟦<Event as Ord>⟧.cmp d e ≡ event_cmp d e }
    ensures equality { (d e : AnEvent) → IsTrue (⟦<Event as PartialEq>⟧.eq d e) ↔ (d ≡ e) }
{}
