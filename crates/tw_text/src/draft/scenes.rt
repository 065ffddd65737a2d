//! The scenes that the lines so far have given.

ghost use Rattle.std.specs.Prelude.{◌≡◌, ℕ, if◌then◌else◌};
ghost use Rattle.tw_model.specs.Memory.{IsUnlessMemory};
ghost use Rattle.tw_model.specs.declared.case.Scene.TheVariants as AScene;
ghost use Rattle.tw_lines.specs.LineReader.{left_by};
ghost use Rattle.tw_text.specs.Drafts.{step_by, step_said, with_scene};
ghost use Rattle.tw_text.specs.Statements.{scene_line, scene_said};
ghost use Rattle.tw_text.specs.declared.draft.Draft.TheVariants as AsDraft;

use super::{Draft, node_in, open_scenes, place_of, rule_fault};
use crate::keyword::Keyword;
use std::alloc::Global;
use tw_instance::Case;
use tw_lines::LineFault;
use tw_model::{OrMemory, Scene};

/// Adds a scenario line of this keyword and these numbers, or answers the lowest fault of the line.
pub(super) fn take_scene(
    alloc: Global,
    draft: &mut Draft,
    keyword: Keyword,
    numbers: &[u64],
    ended: bool,
) -> Result<(), OrMemory<LineFault>>
    ensures { IsUnlessMemory (left_by result draft.new) (step_said draft.old (scene_said keyword numbers.now) ended) }
{
    match (keyword, numbers) {
        (Keyword::Fail, [time, first, second]) => take_change(
            alloc, draft, ended, false, *time, *first, *second,
        ),
        (Keyword::Restore, [time, first, second]) => take_change(
            alloc, draft, ended, true, *time, *first, *second,
        ),
        (Keyword::Swap, [time, node, first, second]) => take_swap(
            alloc, draft, ended, *time, *node, *first, *second,
        ),
        (Keyword::Forbid, [time, node, line]) => take_bar(
            alloc, draft, ended, true, *time, *node, *line,
        ),
        (Keyword::Allow, [time, node, line]) => take_bar(
            alloc, draft, ended, false, *time, *node, *line,
        ),
        _ => Err(OrMemory::Fault(LineFault::Word)),
    }
}

/// Adds a repair of a link, or else a failure, where a scene may follow.
fn take_change(
    alloc: Global,
    draft: &mut Draft,
    ended: bool,
    repairs: bool,
    time: u64,
    first: u64,
    second: u64,
) -> Result<(), OrMemory<LineFault>>
    ensures { IsUnlessMemory (left_by result draft.new) (step_by draft.old (scene_line (if repairs then AScene.Restore time first second else AScene.Fail time first second)) ended) }
{
    open_scenes(alloc, draft, ended)?;
    let Draft::Scenes(_, case) = draft else {
        return Err(OrMemory::Fault(LineFault::Order));
    };
    add_change(case, repairs, time, first, second)
}

/// Adds a repair of a link to the case, or else a failure.
fn add_change(
    case: &mut Case,
    repairs: bool,
    time: u64,
    first: u64,
    second: u64,
) -> Result<(), OrMemory<LineFault>>
    ensures { (version : ℕ) → IsUnlessMemory (left_by result (AsDraft.Scenes version case.new)) (with_scene version case.old (if repairs then AScene.Restore time first second else AScene.Fail time first second)) }
{
    let first = node_in(case.instance(), first)?;
    let second = node_in(case.instance(), second)?;
    if repairs {
        return add_scene(
            case,
            Scene::Restore {
                time,
                first,
                second,
            },
        );
    }
    add_scene(
        case,
        Scene::Fail {
            time,
            first,
            second,
        },
    )
}

/// Adds an exchange of two places of an order, where a scene may follow.
fn take_swap(
    alloc: Global,
    draft: &mut Draft,
    ended: bool,
    time: u64,
    node: u64,
    first: u64,
    second: u64,
) -> Result<(), OrMemory<LineFault>>
    ensures { IsUnlessMemory (left_by result draft.new) (step_by draft.old (scene_line (AScene.Swap time node first second)) ended) }
{
    open_scenes(alloc, draft, ended)?;
    let Draft::Scenes(_, case) = draft else {
        return Err(OrMemory::Fault(LineFault::Order));
    };
    add_swap(case, time, node, first, second)
}

/// Adds an exchange of two places of an order to the case.
fn add_swap(
    case: &mut Case,
    time: u64,
    node: u64,
    first: u64,
    second: u64,
) -> Result<(), OrMemory<LineFault>>
    ensures { (version : ℕ) → IsUnlessMemory (left_by result (AsDraft.Scenes version case.new)) (with_scene version case.old (AScene.Swap time node first second)) }
{
    let node = node_in(case.instance(), node)?;
    let (first, second) = (place_of(first), place_of(second));
    add_scene(
        case,
        Scene::Swap {
            time,
            node,
            first,
            second,
        },
    )
}

/// Forbids a path, or else allows it again, where a scene may follow.
fn take_bar(
    alloc: Global,
    draft: &mut Draft,
    ended: bool,
    forbids: bool,
    time: u64,
    node: u64,
    line: u64,
) -> Result<(), OrMemory<LineFault>>
    ensures { IsUnlessMemory (left_by result draft.new) (step_by draft.old (scene_line (if forbids then AScene.Forbid time node line else AScene.Allow time node line)) ended) }
{
    open_scenes(alloc, draft, ended)?;
    let Draft::Scenes(_, case) = draft else {
        return Err(OrMemory::Fault(LineFault::Order));
    };
    add_bar(case, forbids, time, node, line)
}

/// Forbids a path of the case, or else allows it again.
fn add_bar(
    case: &mut Case,
    forbids: bool,
    time: u64,
    node: u64,
    line: u64,
) -> Result<(), OrMemory<LineFault>>
    ensures { (version : ℕ) → IsUnlessMemory (left_by result (AsDraft.Scenes version case.new)) (with_scene version case.old (if forbids then AScene.Forbid time node line else AScene.Allow time node line)) }
{
    let node = node_in(case.instance(), node)?;
    let line = place_of(line);
    if forbids {
        return add_scene(case, Scene::Forbid { time, node, line });
    }
    add_scene(case, Scene::Allow { time, node, line })
}

/// Adds a scene to the case.
fn add_scene(case: &mut Case, scene: Scene) -> Result<(), OrMemory<LineFault>>
    ensures { (version : ℕ) → IsUnlessMemory (left_by result (AsDraft.Scenes version case.new)) (with_scene version case.old scene) }
{
    match case.add(scene) {
        Ok(()) => Ok(()),
        Err(refusal) => Err(rule_fault(refusal)),
    }
}
