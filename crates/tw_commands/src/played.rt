//! What steps leave of a machine, as plain data.
ghost use Rattle.std.specs.Prelude.{◌≡◌, ◌≤◌, ◌<◌, length, IfOk};
ghost use Rattle.tw_commands.specs.Replay.{counts_of, replayed, told_of};
ghost use Rattle.tw_core.specs.Steps.{answers, run};
ghost use Rattle.tw_model.specs.Case.{simulation};
ghost use Rattle.tw_model.specs.declared.limits.TheConstants.{LATEST};
ghost use Rattle.tw_report.specs.ReplayText.{replayed_of};
ghost use Rattle.tw_warp.specs.Openings.{opening_machine};
ghost use Rattle.tw_warp.specs.Warp.{warp_core};

use crate::no_memory::NoMemory;
use std::alloc::{AllocError, Global};
use tw_instance::Case;
use tw_options::Machine;
use tw_report::{Counts, Replay};
use tw_sim::{Cancel, Step};
use tw_warp::{Answer, Warp};

/// The answers to the steps, and what the machine of the case becomes by them.
pub(crate) fn play(
    alloc: Global,
    case: &Case,
    steps: &[Step],
    machine: Machine,
) -> Result<Replay, NoMemory>
    requires stop { machine.stop ≤ LATEST }
    requires workers { 0 < machine.workers }
    ensures { IfOk result (λ replay. replayed_of replay ≡ replayed machine.stop machine.cancel case.now steps.now) }
{
    let (warp, answers) = take_steps(alloc, case, steps, machine)?;
    Ok(told(&warp, answers)?)
}

/// The machine of the case with so many workers, after the steps, and its answers to them.
fn take_steps<'a>(
    alloc: Global,
    case: &'a Case,
    steps: &[Step],
    machine: Machine,
) -> Result<(Warp<'a>, Vec<Answer>), NoMemory>
    requires stop { machine.stop ≤ LATEST }
    requires workers { 0 < machine.workers }
    ensures machine { IfOk result (λ after. warp_core after.0 ≡ run (simulation case.now) (opening_machine case.now machine.cancel machine.stop) steps.now) }
    ensures answers { IfOk result (λ after. after.1.items ≡ answers (simulation case.now) (opening_machine case.now machine.cancel machine.stop) steps.now) }
    ensures case { IfOk result (λ after. after.0.case ≡ case.now) }
    ensures workers { IfOk result (λ after. length after.0.shards ≡ machine.workers) }
{
    let mut warp = Warp::with_cancel(alloc, case, machine.workers, machine.stop, machine.cancel)?;
    let answers = warp.run(steps)?;
    Ok((warp, answers))
}

/// What a machine that has answered so tells of itself.
fn told(warp: &Warp<'_>, answers: Vec<Answer>) -> Result<Replay, AllocError>
    ensures { IfOk result (λ replay. replayed_of replay ≡ told_of warp.now.case (warp_core warp.now) answers.items) }
{
    let committed = warp.committed()?;
    let routers = warp.router_ends()?;
    Ok(Replay {
        answers,
        bound: warp.bound(),
        counts: counts(warp),
        committed,
        routers,
    })
}

/// How many messages and events a machine has.
fn counts(warp: &Warp<'_>) -> Counts
    ensures { result ≡ counts_of warp.now.case (warp_core warp.now) }
{
    Counts {
        flight: warp.flight_len(),
        pending: warp.pending_len(),
        kept: warp.kept_len(),
        ahead: warp.ahead(),
        held: match warp.cancel() {
            Cancel::Aggressive => None,
            Cancel::Lazy => Some(warp.held_len()),
        },
    }
}
