//! Instances and cases by calls, from items in place of a text.

use crate::events::START;
use crate::readings::is_written_as;
use crate::texts::{DISAGREE, FORBIDDEN_PATH};
use std::alloc::{AllocError, Global};
use tw_event::PathNo;
use tw_instance::{At, Case, Instance, Item, Link, OrMemory, PermittedPath, Rule, Scene};

/// The permitted paths of DISAGREE, each with its owner.
const PATHS: [(u32, &[u32]); 4] = [(1, &[1, 2, 0]), (1, &[1, 0]), (2, &[2, 1, 0]), (2, &[2, 0])];

/// The same as items.
fn paths(alloc: Global) -> Result<Vec<PermittedPath>, AllocError> {
    let mut paths = Vec::new(alloc);
    for (owner, nodes) in &PATHS {
        let nodes = Vec::from_slice(alloc, nodes)?;
        paths.push(PermittedPath {
            owner: *owner,
            nodes,
        })?;
    }
    Ok(paths)
}

/// Two routers with the delay from the first to the second and the delay back.
type Ends = (u32, u32, u64, u64);

/// The links between these routers.
fn links_of(alloc: Global, rows: &[Ends]) -> Result<Vec<Link>, AllocError> {
    let mut links = Vec::new(alloc);
    for (first, second, delay, back) in rows {
        links.push(Link {
            first: *first,
            second: *second,
            delay: *delay,
            back: *back,
        })?;
    }
    Ok(links)
}

/// The links of DISAGREE.
const LINKS: [Ends; 3] = [(0, 1, 1, 1), (0, 2, 5, 5), (1, 2, 1, 1)];

/// The links of DISAGREE, of which the last has another delay back.
const TWO_DELAYS: [Ends; 3] = [(0, 1, 1, 1), (0, 2, 5, 5), (1, 2, 1, 2)];

/// Router 2 may not use its best path from 9 on.
const FORBIDDEN: Scene = Scene::Forbid {
    time: 9,
    node: 2,
    line: 1,
};

/// Router 2 may use its best path again from 20 on.
const ALLOWED: Scene = Scene::Allow {
    time: 20,
    node: 2,
    line: 1,
};

/// DISAGREE in this version, with these links and this scenario.
fn built(
    alloc: Global,
    version: u32,
    links: &[Ends],
    scenes: &[Scene],
) -> Result<Case, OrMemory<At>> {
    let links = links_of(alloc, links)?;
    let scenes = Vec::from_slice(alloc, scenes)?;
    let instance = Instance::build(alloc, 3, links, paths(alloc)?).map_err(OrMemory::Fault)?;
    Case::build(alloc, version, instance, scenes).map_err(OrMemory::Fault)
}

/// The same, built once more where memory was refused.
fn build(
    alloc: Global,
    version: u32,
    links: &[Ends],
    scenes: &[Scene],
) -> Result<Case, OrMemory<At>> {
    match built(alloc, version, links, scenes) {
        Err(OrMemory::Memory) => built(alloc, version, links, scenes),
        Err(
            OrMemory::Fault(
                At {
                    fault: OrMemory::Memory,
                    ..
                },
            ),
        ) => built(alloc, version, links, scenes),
        answer => answer,
    }
}

/// Whether DISAGREE is written as its text, and begins with the origin's start alone.
fn is_that_of_the_text(alloc: Global, case: &Case) -> bool {
    case.version() == 1
        && is_written_as(alloc, case, DISAGREE)
        && case.opening(0) == Some(START)
        && case.opening(1) == None
}

/// Whether routers 1 and 2 each have the delay of what they send one another.
fn has_a_delay_for_each_direction(instance: &Instance) -> bool {
    let (Some(there), Some(back)) = (instance.slot(1, 2), instance.slot(2, 1)) else {
        return false;
    };
    instance.delay(1, there) == 1 && instance.delay(2, back) == 2
}

/// Whether a path that is forbidden and allowed, and two delays of a link, are written in version 2.
fn is_that_of_the_text_in_version_2(alloc: Global, case: &Case) -> bool {
    case.version() == 2
        && is_written_as(alloc, case, FORBIDDEN_PATH)
        && has_a_delay_for_each_direction(case.instance())
}

/// Whether the paths of DISAGREE have the numbers that their nodes give them.
fn numbers_its_paths(instance: &Instance) -> bool {
    instance.number(&[]) == Some(PathNo::EMPTY)
        && instance.number(&[0]) == Some(PathNo::ORIGIN)
        && instance.number(&[2, 1, 0]) == Some(PathNo(4))
        && instance.number(&[1, 2]) == None
}

/// Whether router 2 extends the origin's path by its link to it, of delay 5, and nothing else.
fn extends_the_origin(instance: &Instance) -> bool {
    let (Some(slot), Some(direct)) = (instance.slot(2, 0), instance.number(&[0])) else {
        return false;
    };
    slot == 0
        && instance.delay(2, slot) == 5
        && instance.extend(2, slot, direct) == Some(PathNo(5))
        && instance.extend(3, slot, direct) == None
        && instance.extend(2, 2, direct) == None
        && instance.extend(2, slot, PathNo(6)) == None
        && instance.path(direct) == [0].as_slice()
}

/// Whether DISAGREE finds its paths by their nodes and by what they extend.
fn finds_its_paths(instance: &Instance) -> bool {
    instance.nodes() == 3
        && numbers_its_paths(instance)
        && instance.slot(2, 2) == None
        && extends_the_origin(instance)
}

/// Whether DISAGREE built from items is that of its text, and finds its paths.
fn is_disagree(alloc: Global) -> bool {
    let Ok(case) = build(alloc, 1, &LINKS, &[]) else {
        return false;
    };
    let is_so = is_that_of_the_text(alloc, &case) && finds_its_paths(case.instance());
    drop(case);
    is_so
}

#[test]
fn a_case_from_items_is_that_of_the_text(rt: HostRuntime) {
    assert!(rt; is_disagree(rt.alloc()));
}

/// Whether DISAGREE with two delays of a link, and a path that is forbidden and allowed, is that of its text.
fn is_disagree_in_version_2(alloc: Global) -> bool {
    let Ok(case) = build(alloc, 2, &TWO_DELAYS, &[FORBIDDEN, ALLOWED]) else {
        return false;
    };
    let is_so = is_that_of_the_text_in_version_2(alloc, &case);
    drop(case);
    is_so
}

#[test]
fn a_case_of_version_2_is_that_of_its_text(rt: HostRuntime) {
    assert!(rt; is_disagree_in_version_2(rt.alloc()));
}

/// The link between the origin and router 2 fails.
const FAILURE: Scene = Scene::Fail {
    time: 4,
    first: 0,
    second: 2,
};

/// An exchange with a place that router 2 lacks.
const EXCHANGE: Scene = Scene::Swap {
    time: 4,
    node: 2,
    first: 1,
    second: 3,
};

/// A path is forbidden at a place that router 2 lacks.
const BEYOND: Scene = Scene::Forbid {
    time: 9,
    node: 2,
    line: 3,
};

/// A path of the origin's is allowed.
const AT_ORIGIN: Scene = Scene::Allow {
    time: 9,
    node: 0,
    line: 1,
};

/// Items that are refused.
struct Refused {
    name: &'static str,
    version: u32,
    links: &'static [Ends],
    scenes: &'static [Scene],
    /// The item that breaks a rule.
    item: Item,
    /// The rule that it breaks.
    rule: Rule,
}

/// Whether the items are refused, for this rule and at this item.
fn is_refused(alloc: Global, row: &Refused) -> bool {
    let at = At {
        item: row.item,
        fault: OrMemory::Fault(row.rule),
    };
    match build(alloc, row.version, row.links, row.scenes) {
        Err(fault) => fault == OrMemory::Fault(at),
        Ok(case) => {
            drop(case);
            false
        }
    }
}

/// Items that are refused. The first bad item is named; version 2 brings delays back and bars; the version is judged last.
const REFUSED: [Refused; 12] = [
    Refused {
        name: "a link to itself",
        version: 1,
        links: &[(0, 1, 1, 1), (1, 1, 0, 0)],
        scenes: &[],
        item: Item::Link(2),
        rule: Rule::SelfLink,
    },
    Refused {
        name: "a path without its link",
        version: 1,
        links: &[(0, 1, 1, 1), (1, 2, 1, 1)],
        scenes: &[],
        item: Item::Path(1),
        rule: Rule::PathNoLink,
    },
    Refused {
        name: "a place that router 2 lacks",
        version: 1,
        links: &LINKS,
        scenes: &[FAILURE, EXCHANGE],
        item: Item::Scene(2),
        rule: Rule::NoSuchPlace,
    },
    Refused {
        name: "a delay back of nothing",
        version: 2,
        links: &[(0, 1, 1, 1), (0, 2, 5, 0)],
        scenes: &[],
        item: Item::Link(2),
        rule: Rule::Delay,
    },
    Refused {
        name: "a path that router 2 lacks",
        version: 2,
        links: &LINKS,
        scenes: &[FORBIDDEN, BEYOND],
        item: Item::Scene(2),
        rule: Rule::NoSuchPlace,
    },
    Refused {
        name: "a path of the origin",
        version: 2,
        links: &LINKS,
        scenes: &[AT_ORIGIN],
        item: Item::Scene(1),
        rule: Rule::NoSuchPlace,
    },
    Refused {
        name: "a version to come",
        version: 3,
        links: &LINKS,
        scenes: &[],
        item: Item::Whole,
        rule: Rule::Version,
    },
    Refused {
        name: "a version before the first",
        version: 0,
        links: &LINKS,
        scenes: &[],
        item: Item::Whole,
        rule: Rule::Version,
    },
    Refused {
        name: "a path forbidden in version 1",
        version: 1,
        links: &LINKS,
        scenes: &[FORBIDDEN],
        item: Item::Whole,
        rule: Rule::Version,
    },
    Refused {
        name: "a path allowed in version 1",
        version: 1,
        links: &LINKS,
        scenes: &[ALLOWED],
        item: Item::Whole,
        rule: Rule::Version,
    },
    Refused {
        name: "two delays in version 1",
        version: 1,
        links: &TWO_DELAYS,
        scenes: &[],
        item: Item::Whole,
        rule: Rule::Version,
    },
    Refused {
        name: "the item before the version",
        version: 3,
        links: &LINKS,
        scenes: &[EXCHANGE],
        item: Item::Scene(1),
        rule: Rule::NoSuchPlace,
    },
];

#[test]
fn what_is_wrong_is_named(rt: HostRuntime) {
    for row in &REFUSED {
        assert!(rt; is_refused(rt.alloc(), row), "{}", row.name);
    }
}

/// Whether a refusal is shown as this text, once more where memory was refused.
fn is_shown(alloc: Global, at: At, text: &str) -> bool {
    let shown = match format!(in alloc; "{at}") {
        Err(_) => format!(in alloc; "{at}"),
        shown => shown,
    };
    matches!(shown, Ok(shown) if shown.as_str() == text)
}

#[test]
fn a_refusal_is_shown_with_its_item(rt: HostRuntime) {
    let at = At {
        item: Item::Link(2),
        fault: OrMemory::Fault(Rule::SelfLink),
    };
    assert!(rt; is_shown(rt.alloc(), at, "link 2: the ends of a link are equal"));
}
