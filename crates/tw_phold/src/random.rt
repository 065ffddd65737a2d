//! Random words with an exact way back: SplitMix64 (Steele, Lea, Flood, Fast splittable pseudorandom number
//! generators, 2014).

ghost use Rattle.std.specs.Prelude.{◌≡◌, ◌<◌, ◌^◌, ℕ};
ghost use Rattle.tw_phold.specs.Random.{stepped, word_of};

/// What the state grows by at each step.
pub const GAMMA: u64 = 0x9e37_79b9_7f4a_7c15;

/// The state one step on.
#[inline(always)]
pub fn step(state: u64) -> u64
    ensures { result ≡ stepped state }
{
    state.wrapping_add(GAMMA)
}

/// The state one step back.
#[inline(always)]
pub fn step_back(state: u64) -> u64
    ensures { (before : ℕ) → before < 2 ^ 64 → state ≡ stepped before → result ≡ before }
{
    state.wrapping_sub(GAMMA)
}

/// The random word of a state.
#[inline(always)]
pub fn word(state: u64) -> u64
    ensures { result ≡ word_of state }
{
    let first = (state ^ (state >> 30)).wrapping_mul(0xbf58_476d_1ce4_e5b9);
    let second = (first ^ (first >> 27)).wrapping_mul(0x94d0_49bb_1331_11eb);
    second ^ (second >> 31)
}
