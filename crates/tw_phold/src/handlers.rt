//! PHOLD as a model: what a job does and sends, and the way back.

ghost use Rattle.std.specs.Prelude.{◌≡◌, ◌<◌, ◌≤◌, ◌^◌};
ghost use Rattle.tw_process.specs.First.{first};
ghost use Rattle.tw_process.specs.declared.limits.TheConstants.{LATEST};
ghost use Rattle.tw_phold.specs.declared.state.State.{State as AState};
ghost use Rattle.tw_phold.specs.declared.state.TheConstants.{MOST_HANDLED};
ghost use Rattle.tw_phold.specs.Phold.{behaviour_of, delay_by, handled_one, job, opening_job, seeded, target_by};

use crate::phold::Phold;
use crate::random::{step, step_back, word};
use crate::state::{MOST_HANDLED, State};
use std::alloc::{AllocError, Global};
use tw_process::limits::LATEST;
use tw_process::{Event, ProcessModel, Refused};

impl Phold {
    // The delay that a random word gives, in ticks.
    #[inline(always)]
    fn delay(&self, word: u64) -> u64
        ensures { result ≡ delay_by self.now word }
    {
        let spread = u64::from(self.longest - self.lookahead) + 1;
        u64::from(self.lookahead) + word % spread
    }

    // Where a job at this process goes, by two random words.
    #[inline(always)]
    fn target(&self, here: u32, choice: u64, word: u64) -> u32
        ensures { result ≡ target_by self.now here choice word }
    {
        if choice % 1000 < u64::from(self.remote) {
            (word % u64::from(self.processes)) as u32
        } else {
            here
        }
    }

    // The random word that the seed gives for a number.
    fn seeded(&self, number: u64) -> u64
        ensures { result ≡ seeded self.now number }
    {
        word(self.seed.wrapping_add(number))
    }

    // The opening job of this number.
    fn opening_job(&self, number: u64) -> Event<()>
        ensures { result ≡ opening_job self.now number }
    {
        let home = (number % u64::from(self.processes)) as u32;
        Event {
            time: self.delay(self.seeded(number)),
            dst: home,
            src: home,
            seq: number / u64::from(self.processes),
            body: (),
        }
    }

    // The job that goes on, by the state that its process has been left in.
    #[inline(always)]
    fn job(&self, left: &State, event: &Event<()>) -> Event<()>
        requires time { event.now.time < LATEST }
        requires counted { 0 < left.now.handled }
        requires few { left.now.handled ≤ MOST_HANDLED }
        ensures { (before : AState) → before.random < 2 ^ 64 → left.now ≡ handled_one before → result ≡ job self.now before event.now }
    {
        let third = left.random;
        let second = step_back(third);
        let first = step_back(second);
        Event {
            time: event.time + self.delay(word(first)),
            dst: self.target(event.dst, word(second), word(third)),
            src: event.dst,
            seq: u64::from(self.jobs) + (left.handled - 1),
            body: (),
        }
    }
}

impl ProcessModel for Phold {
    type State = State;

    type Known = State;

    type Event = Event<()>;

    // The generator has an exact way back, so nothing is to be noted.
    type Note = ();

    ghost behaviour = { behaviour_of };

    ghost is_state = { λ m r s. Unit {0} };

    ghost known = { λ s. s };

    // A generator's state is a word.
    ghost is_note = { λ m before e note. before.random < 2 ^ 64 };

    fn keeps_laws(&self) {}

    fn processes(&self) -> u32 {
        self.processes
    }

    fn most_sends(&self) -> usize {
        1
    }

    fn lookahead(&self) -> u64 {
        u64::from(self.lookahead)
    }

    fn latest(&self) -> u64 {
        LATEST
    }

    fn begin(&self, _alloc: Global, number: u32) -> Result<State, AllocError> {
        Ok(State {
            random: self.seeded(u64::from(number)),
            handled: 0,
        })
    }

    fn openings(&self, alloc: Global) -> Result<Vec<Event<()>>, AllocError> {
        let mut events = Vec::new(alloc);
        for number in 0..u64::from(self.processes) * u64::from(self.jobs) {
            events.push(self.opening_job(number))?;
        }
        Ok(events)
    }

    fn does_suit(&self, event: &Event<()>) -> bool {
        event.dst < self.processes
    }

    #[inline(always)]
    fn receive(&self, _number: u32, state: &mut State, _event: &Event<()>) -> Result<(), Refused> {
        if state.handled >= MOST_HANDLED {
            return Err(Refused::CounterFull);
        }
        state.random = step(step(step(state.random)));
        state.handled += 1;
        Ok(())
    }

    #[inline(always)]
    fn send(
        &self,
        _number: u32,
        state: &State,
        event: &Event<()>,
        _note: (),
        sends: &mut Vec<Event<()>>,
    ) {
        sends.push_reserved(self.job(state, event));
    }

    #[inline(always)]
    fn take_back(&self, _number: u32, state: &mut State, _event: &Event<()>, _note: ()) {
        state.random = step_back(step_back(step_back(state.random)));
        state.handled -= 1;
    }
}
