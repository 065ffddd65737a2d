//! The rest of each path, which is the path without its first node, and the paths by their rest.

ghost use Rattle.std.specs.Prelude.{◌≡◌, ◌+◌, ◌<◌, ◌≤◌, ◌^◌, ◌++◌, length, IfOk, OnOk};
ghost use Rattle.std.specs.List.{All};
ghost use Rattle.tw_model.specs.Net.{IsPath, paths};
ghost use Rattle.tw_instance.specs.Chains.{AreChained, AreRests, AreRows, IsRest, row_of};

use crate::instance::Instance;
use std::alloc::{AllocError, Global};
use tw_event::PathNo;

/// The rest of each path, by its number.
pub fn rests_of(alloc: Global, instance: &Instance) -> Result<Vec<u32>, AllocError>
    ensures rests { IfOk result (λ rests. AreRests instance.now (length (paths instance.now)) rests.items) }
    ensures few { IfOk result (λ rests. length rests.items < 2 ^ 32) }
{
    let count = instance.count();
    let mut rests = Vec::with_capacity(alloc, count as usize)?;
    for number in 0..count {
        rests.push(rest_of(instance, PathNo(number), count))?;
    }
    Ok(rests)
}

/// The number of the path without its first node, and `count` where no path has these nodes.
fn rest_of(instance: &Instance, number: PathNo, count: u32) -> u32
    requires path { IsPath instance.now number }
    requires count { count ≡ length (paths instance.now) }
    ensures { IsRest instance.now number result }
{
    match instance.path(number) {
        [] => count,
        [_, rest @ ..] => match instance.number(rest) {
            Some(path) => path.0,
            None => count,
        },
    }
}

/// The rests of paths, and the paths of one rest as a chain from the last to the first.
#[derive(Drop)]
pub struct Chains {
    rests: Vec<u32>,
    /// Of each rest the last path that has it.
    last: Vec<Option<u32>>,
    /// Of each path the last one before it that has the same rest.
    before: Vec<Option<u32>>,
    ghost few: { length rests.items < 2 ^ 32 },
    ghost chained: { AreChained rests.items (length rests.items + 1) (length rests.items) last.items before.items },
}

impl Chains {
    /// The chains of these rests, each of which is at most the number of them.
    pub fn new(alloc: Global, rests: Vec<u32>) -> Result<Chains, AllocError>
        requires few { length rests.items < 2 ^ 32 }
        requires within { All (λ r. r ≤ length rests.items) rests.items }
        ensures { IfOk result (λ chains. chains.rests.items ≡ rests.items) }
    {
        let mut last = vec![in alloc; None; rests.len() + 1]?;
        let mut before = Vec::with_capacity(alloc, rests.len())?;
        for (number, rest) in rests.iter().enumerate() {
            let rest = *rest as usize;
            before.push(last[rest])?;
            last[rest] = Some(number as u32);
        }
        Ok(Chains {
            rests,
            last,
            before,
        })
    }

    /// Where the row of each rest begins, and the paths of each rest, row by row.
    pub fn rows(&self, alloc: Global) -> Result<(Vec<u32>, Vec<PathNo>), AllocError>
        ensures { IfOk result (λ rows. AreRows self.now.rests.items (length self.now.rests.items) rows.0.items rows.1.items) }
    {
        let mut starts = Vec::with_capacity(alloc, self.before.len() + 1)?;
        let mut numbers = Vec::with_capacity(alloc, self.before.len())?;
        starts.push(0)?;
        for rest in 0..self.before.len() {
            self.push_row(&mut numbers, rest)?;
            starts.push(numbers.len() as u32)?;
        }
        Ok((starts, numbers))
    }

    /// Puts the paths of a rest behind others.
    fn push_row(&self, numbers: &mut Vec<PathNo>, rest: usize) -> Result<(), AllocError>
        requires { rest < length self.now.rests.items }
        ensures { OnOk result (numbers.new.items ≡ numbers.old.items ++ row_of self.now.rests.items rest) }
    {
        let mut next = self.last[rest];
        while let Some(number) = next {
            numbers.push(PathNo(number))?;
            next = self.before[number as usize];
        }
        Ok(())
    }
}
