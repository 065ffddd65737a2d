//! Whether the machine has a processor for each of several threads: one goes on with the run beside others that are not
//! done before it, and each tells by its own clock how long it had a processor. A clock of the whole process tells of
//! threads that still run only what they had used some milliseconds before.
ghost use Rattle.std.specs.Prelude.{◌≡◌, ◌≤◌, ℕ, IfOk, IsErrOf};
ghost use Rattle.tw_handlers.specs.Calls.{counter_full};
ghost use Rattle.tw_model.specs.declared.limits.TheConstants.{LATEST};
ghost use Rattle.tw_model.specs.declared.memory.OrMemory.TheVariants as or_memory;
ghost use Rattle.tw_seq.specs.Run.{GetsStuck, complete_run};

use crate::laps::{go_on_to, micros, thread_micros};
use std::hint::spin_loop;
use std::sync::Wait;
use std::sync::atomic::{AtomicBool, AtomicU64, Ordering};
use std::thread;
use std::thread::Threads;
use std::time::{Clock, CpuClock};
use tw_model::OrMemory;
use tw_pace::{Alone, have_processors};
use tw_seq::{CounterFull, Running, TracedRun};

/// A run that went on by one thread beside others.
#[derive(Drop)]
pub(crate) struct Sounded<'a> {
    pub(crate) run: TracedRun<'a>,
    /// How far it has come.
    pub(crate) came: Result<Alone, OrMemory<CounterFull>>,
    /// Whether there was a processor for each thread.
    pub(crate) is_free: bool,
}

/// A run that went on by one thread, and how long that took.
#[derive(Drop)]
struct Lap<'a> {
    run: TracedRun<'a>,
    came: Result<Alone, OrMemory<CounterFull>>,
    micros: u64,
}

/// What the threads tell one another.
#[derive(Drop)]
struct Told {
    /// Whether the run has come to the end of its lap.
    is_over: AtomicBool,
    /// How long those that are done had processors, in microseconds.
    worked: AtomicU64,
}

impl Told {
    /// Nothing is told yet.
    fn new() -> Told {
        Told {
            is_over: AtomicBool::new(false),
            worked: AtomicU64::new(0),
        }
    }

    /// A thread had a processor for so long, in microseconds.
    fn add(&self, micros: u64) {
        self.worked.fetch_add(micros, Ordering::SeqCst);
    }
}

/// A run goes on by one thread to a time, in ticks, beside others, so that they are so many in all.
pub(crate) fn sound<'a, X: Threads + Wait + Sync + Clock + CpuClock>(
    rt: &X,
    run: TracedRun<'a>,
    end: u64,
    alone: Alone,
    threads: u32,
) -> Sounded<'a>
    requires begun { run.run.stop ≤ end }
    requires latest { end ≤ LATEST }
    ensures run { IfOk result.came (λ _. result.run.run ≡ complete_run run.entry.run.case end) }
    ensures ticks { IfOk result.came (λ later. later.ticks ≡ end) }
    ensures full { (stop : ℕ) → end ≤ stop → IsErrOf result.came (or_memory.Fault counter_full) → GetsStuck run.entry.run.case stop }
{
    let all = Told::new();
    let told = &all;
    let lap = thread::scope(
        thread::scope_env(),
        rt,
        move |scope| -> Lap
            requires begun { run.run.stop ≤ end }
            requires latest { end ≤ LATEST }
            ensures run { IfOk result.came (λ _. result.run.run ≡ complete_run run.entry.run.case end) }
            ensures ticks { IfOk result.came (λ later. later.ticks ≡ end) }
            ensures full { (stop : ℕ) → end ≤ stop → IsErrOf result.came (or_memory.Fault counter_full) → GetsStuck run.entry.run.case stop }
        {
            for _ in 1..threads {
                // Where a thread is refused, it has no processor.
                let _ = scope.spawn(move || watch(rt, told));
            }
            let lap = go_on_beside(rt, run, end, alone, told);
            told.is_over.store(true, Ordering::SeqCst);
            lap
        },
    );
    let worked = all.worked.load(Ordering::SeqCst);
    Sounded {
        run: lap.run,
        came: lap.came,
        is_free: have_processors(threads, lap.micros, worked),
    }
}

/// A thread does nothing, and does not rest, until it is told that the lap is over.
fn watch<X: Wait + CpuClock>(rt: &X, told: &Told) {
    let used = thread_micros(rt);
    for _ in rt.forever() {
        if told.is_over.load(Ordering::Relaxed) {
            told.add(thread_micros(rt).saturating_sub(used));
            return;
        }
        spin_loop();
    }
}

/// A run goes on by one thread to a time, in ticks, while others do not rest.
fn go_on_beside<'a, X: Clock + CpuClock>(
    clock: &X,
    run: TracedRun<'a>,
    end: u64,
    alone: Alone,
    told: &Told,
) -> Lap<'a>
    requires begun { run.run.stop ≤ end }
    requires latest { end ≤ LATEST }
    ensures run { IfOk result.came (λ _. result.run.run ≡ complete_run run.entry.run.case end) }
    ensures ticks { IfOk result.came (λ later. later.ticks ≡ end) }
    ensures full { (stop : ℕ) → end ≤ stop → IsErrOf result.came (or_memory.Fault counter_full) → GetsStuck run.entry.run.case stop }
{
    let mut run = run;
    let (start, used) = (micros(clock), thread_micros(clock));
    let came = go_on_to(clock, &mut run, end, alone);
    let micros = micros(clock).saturating_sub(start);
    told.add(thread_micros(clock).saturating_sub(used));
    Lap { run, came, micros }
}
