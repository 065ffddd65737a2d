//! One thread alone, or all in rounds: either takes over what the other has brought to its stop.

ghost use Rattle.std.specs.Prelude.{ℕ, ◌≡◌, ◌≤◌, List, [], Some, IfErr, IfOk, slice_get, vec_capacity, vec_len};
ghost use Rattle.tw_core.specs.Parts.{total};
ghost use Rattle.tw_process.specs.Behaviour.{simulation_of};
ghost use Rattle.tw_rounds.specs.Alone.{bound_of};
ghost use Rattle.tw_sim.specs.Seq.{insert_all};
ghost use Rattle.tw_sim.specs.Simulation.{times};

use super::Rounds;
use crate::alone::Alone;
use crate::counts::Counts;
use crate::member::Member;
use crate::waiting::{are_settled, clear_waiting, deal_waiting, gather, raise_all};
use crate::window::Pace;
use std::alloc::{AllocError, Global};
use tw_engine::Progress;
use tw_pending::Pending;
use tw_process::ProcessModel;
use tw_process::laws::model_is_lawful;

impl<'a, M: ProcessModel> Rounds<'a, M> {
    /// A run that one thread alone has brought to its stop goes on in rounds, at this pace. Where there is no memory it goes
    /// on alone.
    pub(crate) fn take_over(alone: Alone<'a, M>, pace: Pace) -> Result<Rounds<'a, M>, Alone<'a, M>>
        requires { bound_of (simulation_of M.Event.parts M.Event.cmp (M.behaviour alone.model)) alone ≡ alone.stop }
        ensures model { IfOk result (λ w. w.model ≡ alone.entry.model) }
        ensures stop { IfOk result (λ w. w.stop ≡ alone.entry.stop) }
        ensures bound { IfOk result (λ w. w.bound ≡ alone.entry.stop) }
        ensures err { IfErr result (λ run. run ≡ alone.entry) }
    {
        let Ok(events) = alone.waiting() else {
            return Err(alone);
        };
        let Alone {
            model,
            mut members,
            pending,
            sends,
            stop,
            progress,
            handled,
        } = alone;
        match deal_waiting(&mut members, model, &events) {
            Ok(()) => {
                raise_all(&mut members, stop);
                let alloc = *sends.allocator();
                Ok(Rounds {
                    model,
                    members,
                    flight: Vec::new(alloc),
                    bound: stop,
                    stop,
                    pace,
                    threads: 1,
                    share: usize::MAX,
                    counts: Counts::default(),
                })
            }
            Err(_) => {
                clear_waiting(&mut members);
                Err(Alone {
                    model,
                    members,
                    pending,
                    sends,
                    stop,
                    progress,
                    handled,
                })
            }
        }
    }

    /// A run in rounds that has come to its stop goes on by one thread alone, where nothing is on its way any more and there
    /// is memory. Else it goes on in rounds.
    pub(crate) fn give_up(self) -> Result<Alone<'a, M>, Rounds<'a, M>>
        requires { self.bound ≡ self.stop }
        ensures model { IfOk result (λ run. run.model ≡ self.entry.model) }
        ensures stop { IfOk result (λ run. run.stop ≡ self.entry.stop) }
        ensures complete { IfOk result (λ run. bound_of (simulation_of M.Event.parts M.Event.cmp (M.behaviour run.model)) run ≡ run.stop) }
        ensures err { IfErr result (λ w. w ≡ self.entry) }
    {
        let Rounds {
            model,
            mut members,
            flight,
            bound,
            stop,
            pace,
            threads,
            share,
            counts,
        } = self;
        model_is_lawful(model);
        if flight.is_empty() && are_settled(&members) {
            if let Ok((pending, sends)) = queue(*flight.allocator(), model, &members) {
                clear_waiting(&mut members);
                return Ok(Alone {
                    model,
                    members,
                    pending,
                    sends,
                    stop,
                    progress: Progress {
                        since: stop,
                        turns: 0,
                    },
                    handled: 0,
                });
            }
        }
        Err(Rounds {
            model,
            members,
            flight,
            bound,
            stop,
            pace,
            threads,
            share,
            counts,
        })
    }
}

/// What waits at the processes of a model, the least first, and a list for what an event sends.
fn queue<M: ProcessModel>(
    alloc: Global,
    model: &M,
    members: &[Member<'_, M>],
) -> Result<(Pending<M::Event>, Vec<M::Event>), AllocError>
    requires { (i : ℕ) (x : _) → slice_get members.now i ≡ Some x → x.process.model ≡ model.now }
    ensures pending { let m = simulation_of M.Event.parts M.Event.cmp (M.behaviour model.now) in
        IfOk result (λ made. (events : List M.Event) × (made.0 ≡ insert_all m events [])
        × ((e : M.Event) → times m e events ≡ total (λ x. times m e x.process.pending) members.now)) }
    ensures empty { IfOk result (λ made. vec_len made.1 ≡ 0) }
    ensures room { IfOk result (λ made. (M.behaviour model.now).most ≤ vec_capacity made.1) }
{
    let events = gather(alloc, members)?;
    let mut pending = Pending::new(alloc)?;
    pending.insert_all(&events)?;
    let sends = Vec::with_capacity(alloc, model.most_sends())?;
    Ok((pending, sends))
}
