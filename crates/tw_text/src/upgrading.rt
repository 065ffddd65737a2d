//! A case in the latest version of the text.

ghost use Rattle.std.specs.Prelude.{ℕ, ◌≡◌, IfOk};
ghost use Rattle.tw_model.specs.declared.limits.TheConstants.{LATEST_VERSION};
ghost use Rattle.tw_model.specs.Case.{IsCase, simulation};
ghost use Rattle.tw_sim.specs.Seq.{at, log, rest};
ghost use Rattle.tw_text.specs.Upgraded.{upgraded};

use std::alloc::{AllocError, Global};
use tw_instance::{At, Case, Instance};
use tw_model::limits::LATEST_VERSION;
use tw_model::{OrMemory, PermittedPath};

/// The case in the latest version of the text, with the same links, paths and scenario: a link of
/// version 1 has the one delay that it names in both directions. Its run is that of the case.
pub fn upgrade(alloc: Global, case: &Case) -> Result<Case, AllocError>
    ensures case { IfOk result (λ c. c ≡ upgraded case.now) }
    ensures rules { IfOk result (λ c. IsCase c) }
    ensures latest { case.now.version ≡ LATEST_VERSION → IfOk result (λ c. c ≡ case.now) }
    ensures log { IfOk result (λ c. (t : ℕ) → log (simulation c) t ≡ log (simulation case.now) t) }
    ensures at { IfOk result (λ c. (t r : ℕ) → at (simulation c) t r ≡ at (simulation case.now) t r) }
    ensures rest { IfOk result (λ c. (t : ℕ) → rest (simulation c) t ≡ rest (simulation case.now) t) }
{
    let instance = copy_instance(alloc, case.instance())?;
    let scenario = Vec::from_slice(alloc, case.scenario())?;
    match Case::build(alloc, LATEST_VERSION, instance, scenario) {
        Ok(case) => Ok(case),
        Err(
            At {
                fault: OrMemory::Memory,
                ..
            },
        ) => Err(AllocError),
        Err(
            At {
                fault: OrMemory::Fault(_),
                ..
            },
        ) => unreachable!(),
    }
}

/// A second instance of the same links and paths.
fn copy_instance(alloc: Global, instance: &Instance) -> Result<Instance, AllocError>
    ensures { IfOk result (λ copy. copy ≡ instance.now) }
{
    let links = Vec::from_slice(alloc, instance.links())?;
    let paths = copy_paths(alloc, instance.paths())?;
    match Instance::build(alloc, instance.nodes(), links, paths) {
        Ok(copy) => Ok(copy),
        Err(
            At {
                fault: OrMemory::Memory,
                ..
            },
        ) => Err(AllocError),
        Err(
            At {
                fault: OrMemory::Fault(_),
                ..
            },
        ) => unreachable!(),
    }
}

fn copy_paths(alloc: Global, paths: &[PermittedPath]) -> Result<Vec<PermittedPath>, AllocError>
    ensures { IfOk result (λ copies. copies.items ≡ paths.now) }
{
    let mut copies = Vec::with_capacity(alloc, paths.len())?;
    for path in paths {
        copies.push(copy_path(alloc, path)?)?;
    }
    Ok(copies)
}

fn copy_path(alloc: Global, path: &PermittedPath) -> Result<PermittedPath, AllocError>
    ensures { IfOk result (λ copy. copy ≡ path.now) }
{
    let owner = path.owner;
    let nodes = Vec::from_slice(alloc, &path.nodes)?;
    Ok(PermittedPath { owner, nodes })
}
