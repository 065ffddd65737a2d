//! What the lines so far have given.

ghost use Rattle.std.specs.Prelude.{◌≡◌, ℕ, OnOk};
ghost use Rattle.tw_model.specs.Memory.{IsUnlessMemory, map_fault};
ghost use Rattle.tw_lines.specs.LineReader.{left_by};
ghost use Rattle.tw_text.specs.Drafts.{before_paths, before_scenes, closed, node_in, nodes_in, place_of};
ghost use Rattle.tw_text.specs.Drafts.{result_items, step_by, step_said, with_link, with_nodes, with_path, with_scenes};
ghost use Rattle.tw_text.specs.FaultTable.{version_in};
ghost use Rattle.tw_text.specs.Statements.{end_line, link_line, nodes_line, path_line, statement_with};
ghost use Rattle.tw_text.specs.declared.draft.Draft.TheVariants as AsDraft;

mod scenes;

use crate::keyword::Keyword;
use scenes::take_scene;
use std::alloc::{AllocError, Global};
use std::mem;
use tw_instance::{Case, Instance};
use tw_lines::LineFault;
use tw_model::{Link, OrMemory, PermittedPath, Rule};

/// What the lines so far have given, by what may follow: from line 1 on the version of the text too.
#[derive(Drop)]
pub(crate) enum Draft {
    /// No line.
    Start,
    /// Line 1.
    Header(u32),
    /// No path yet.
    Links(u32, Instance),
    /// No scene yet.
    Paths(u32, Instance),
    /// A scene.
    Scenes(u32, Case),
    /// The last line.
    Done(Case),
}

impl Draft {
    /// The version of the text, 0 before line 1.
    pub(crate) fn version(&self) -> u32
        ensures { result ≡ version_in self.now }
    {
        match self {
            Draft::Start => 0,
            Draft::Header(version)
            | Draft::Links(version, _)
            | Draft::Paths(version, _)
            | Draft::Scenes(version, _) => *version,
            Draft::Done(case) => case.version(),
        }
    }
}

/// Adds a line of this keyword and these numbers, or answers the lowest fault of the line.
pub(crate) fn take_statement(
    alloc: Global,
    draft: &mut Draft,
    keyword: Keyword,
    numbers: &[u64],
    ended: bool,
) -> Result<(), OrMemory<LineFault>>
    ensures { IsUnlessMemory (left_by result draft.new) (step_said draft.old (statement_with keyword numbers.now) ended) }
{
    match (keyword, numbers) {
        (Keyword::Nodes, [nodes]) => take_nodes(alloc, draft, ended, *nodes),
        (Keyword::Link, [first, second, delay]) => take_link(
            draft, ended, *first, *second, *delay, *delay,
        ),
        (Keyword::TwoWayLink, [first, second, delay, back]) => take_link(
            draft, ended, *first, *second, *delay, *back,
        ),
        (Keyword::Path, [owner, nodes @ ..]) => take_path(alloc, draft, ended, *owner, nodes),
        (Keyword::End, []) => take_end(alloc, draft, ended),
        _ => take_scene(alloc, draft, keyword, numbers, ended),
    }
}

/// Begins an instance of so many routers.
fn take_nodes(
    alloc: Global,
    draft: &mut Draft,
    ended: bool,
    nodes: u64,
) -> Result<(), OrMemory<LineFault>>
    ensures { IsUnlessMemory (left_by result draft.new) (step_by draft.old (nodes_line nodes) ended) }
{
    let Draft::Header(version) = *draft else {
        return Err(OrMemory::Fault(LineFault::Order));
    };
    if !ended {
        return Err(OrMemory::Fault(LineFault::End));
    }
    *draft = with_nodes(alloc, version, nodes)?;
    Ok(())
}

/// An instance of so many routers, with no link and no path.
fn with_nodes(alloc: Global, version: u32, nodes: u64) -> Result<Draft, OrMemory<LineFault>>
    ensures { IsUnlessMemory result (with_nodes version nodes) }
{
    let Ok(nodes) = u32::try_from(nodes) else {
        return Err(OrMemory::Fault(LineFault::Rule(Rule::Range)));
    };
    match Instance::new(alloc, nodes) {
        Ok(instance) => Ok(Draft::Links(version, instance)),
        Err(refusal) => Err(rule_fault(refusal)),
    }
}

/// Adds a link, where one may follow.
fn take_link(
    draft: &mut Draft,
    ended: bool,
    first: u64,
    second: u64,
    delay: u64,
    back: u64,
) -> Result<(), OrMemory<LineFault>>
    ensures { IsUnlessMemory (left_by result draft.new) (step_by draft.old (link_line (record { first = first; second = second; delay = delay; back = back })) ended) }
{
    let Draft::Links(_, instance) = draft else {
        return Err(OrMemory::Fault(LineFault::Order));
    };
    if !ended {
        return Err(OrMemory::Fault(LineFault::End));
    }
    add_link(instance, first, second, delay, back)
}

/// Adds a link to the instance.
fn add_link(
    instance: &mut Instance,
    first: u64,
    second: u64,
    delay: u64,
    back: u64,
) -> Result<(), OrMemory<LineFault>>
    ensures { (version : ℕ) → IsUnlessMemory (left_by result (AsDraft.Links version instance.new)) (with_link version instance.old (record { first = first; second = second; delay = delay; back = back })) }
{
    let first = node_in(instance, first)?;
    let second = node_in(instance, second)?;
    match instance.add_link(Link {
        first,
        second,
        delay,
        back,
    }) {
        Ok(()) => Ok(()),
        Err(refusal) => Err(rule_fault(refusal)),
    }
}

/// Adds a path, where one may follow.
fn take_path(
    alloc: Global,
    draft: &mut Draft,
    ended: bool,
    owner: u64,
    nodes: &[u64],
) -> Result<(), OrMemory<LineFault>>
    ensures { IsUnlessMemory (left_by result draft.new) (step_by draft.old (path_line (record { owner = owner; nodes = nodes.now })) ended) }
{
    open_paths(draft);
    let Draft::Paths(_, instance) = draft else {
        return Err(OrMemory::Fault(LineFault::Order));
    };
    if !ended {
        return Err(OrMemory::Fault(LineFault::End));
    }
    add_path_of(alloc, instance, owner, nodes)
}

/// Where a link may follow, a path may.
fn open_paths(draft: &mut Draft)
    ensures { draft.new ≡ before_paths draft.old }
{
    *draft = match mem::replace(draft, Draft::Start) {
        Draft::Links(version, instance) => Draft::Paths(version, instance),
        other => other,
    };
}

/// Adds a path of these nodes to the instance.
fn add_path_of(
    alloc: Global,
    instance: &mut Instance,
    owner: u64,
    nodes: &[u64],
) -> Result<(), OrMemory<LineFault>>
    ensures { (version : ℕ) → IsUnlessMemory (left_by result (AsDraft.Paths version instance.new)) (with_path version instance.old (record { owner = owner; nodes = nodes.now })) }
{
    let owner = node_in(instance, owner)?;
    let nodes = nodes_in(alloc, instance, nodes)?;
    add_path(instance, PermittedPath { owner, nodes })
}

/// Adds a path to the instance.
pub(crate) fn add_path(
    instance: &mut Instance,
    path: PermittedPath,
) -> Result<(), OrMemory<LineFault>>
    ensures { (version : ℕ) → IsUnlessMemory (left_by result (AsDraft.Paths version instance.new)) (with_path version instance.old path) }
{
    match instance.add_path(path) {
        Ok(()) => Ok(()),
        Err(refusal) => Err(rule_fault(refusal)),
    }
}

/// Ends the case, in its version, where its last line may follow.
fn take_end(alloc: Global, draft: &mut Draft, ended: bool) -> Result<(), OrMemory<LineFault>>
    ensures { IsUnlessMemory (left_by result draft.new) (step_by draft.old end_line ended) }
{
    open_scenes(alloc, draft, ended)?;
    let Draft::Scenes(version, case) = draft else {
        return Err(OrMemory::Fault(LineFault::Order));
    };
    if let Err(rule) = case.set_version(*version) {
        return Err(OrMemory::Fault(LineFault::Rule(rule)));
    }
    close(draft);
    Ok(())
}

/// No line follows the scenes.
fn close(draft: &mut Draft)
    ensures { draft.new ≡ closed draft.old }
{
    *draft = match mem::replace(draft, Draft::Start) {
        Draft::Scenes(_, case) => Draft::Done(case),
        other => other,
    };
}

/// Where a link or a path may follow, a scene may, if its line has its end.
fn open_scenes(alloc: Global, draft: &mut Draft, ended: bool) -> Result<(), OrMemory<LineFault>>
    ensures { IsUnlessMemory (left_by result draft.new) (before_scenes draft.old ended) }
{
    match draft {
        Draft::Start | Draft::Header(_) => Err(OrMemory::Fault(LineFault::Order)),
        Draft::Done(_) => Err(OrMemory::Fault(LineFault::End)),
        _ if !ended => Err(OrMemory::Fault(LineFault::End)),
        _ => Ok(begin_scenes(alloc, draft)?),
    }
}

/// Where a link or a path may follow, a scene may.
fn begin_scenes(alloc: Global, draft: &mut Draft) -> Result<(), AllocError>
    ensures { OnOk result (draft.new ≡ with_scenes draft.old) }
{
    *draft = match mem::replace(draft, Draft::Start) {
        Draft::Links(version, instance) | Draft::Paths(version, instance) => Draft::Scenes(
            version,
            Case::new(alloc, instance)?,
        ),
        other => other,
    };
    Ok(())
}

/// The node with this number, if the instance has it.
fn node_in(instance: &Instance, number: u64) -> Result<u32, LineFault>
    ensures { result ≡ node_in instance.now number }
{
    if number < u64::from(instance.nodes()) {
        Ok(number as u32)
    } else {
        Err(LineFault::Rule(Rule::Range))
    }
}

/// The nodes with these numbers, if the instance has them.
fn nodes_in(
    alloc: Global,
    instance: &Instance,
    numbers: &[u64],
) -> Result<Vec<u32>, OrMemory<LineFault>>
    ensures { IsUnlessMemory (result_items result) (nodes_in instance.now numbers.now) }
{
    let mut nodes = Vec::with_capacity(alloc, numbers.len())?;
    for number in numbers {
        nodes.push_reserved(node_in(instance, *number)?);
    }
    Ok(nodes)
}

/// A place as a `u32`. What a `u32` doesn't hold is 0, which is no place of an order either.
fn place_of(number: u64) -> u32
    ensures { result ≡ place_of number }
{
    u32::try_from(number).unwrap_or(0)
}

/// The fault of a line whose item was refused.
fn rule_fault(refusal: OrMemory<Rule>) -> OrMemory<LineFault>
    ensures { result ≡ map_fault (λ rule. LineFault.Rule rule) refusal }
{
    match refusal {
        OrMemory::Fault(rule) => OrMemory::Fault(LineFault::Rule(rule)),
        OrMemory::Memory => OrMemory::Memory,
    }
}
