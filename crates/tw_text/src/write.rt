//! Writing a case text.

ghost use Rattle.std.specs.Prelude.{◌≡◌, [], ◌∷◌, ◌++◌, decimal, IfOk, OnOk};
ghost use Rattle.std.specs.List.{flat_map, join_with_byte};
ghost use Rattle.std.specs.String.{string_bytes};
ghost use Rattle.tw_lines.specs.Words.{ended_line, space};
ghost use Rattle.tw_text.specs.Statements.{link_line};
ghost use Rattle.tw_text.specs.Text.{line_of, line_of_path, line_of_scene, text_of_case};

use std::alloc::{AllocError, Global};
use tw_instance::Case;
use tw_model::{Link, PermittedPath, Scene};

/// The text of a case in its version, which `read_case` reads as that case.
pub fn write_case(alloc: Global, case: &Case) -> Result<Vec<u8>, AllocError>
    ensures { IfOk result (λ v. v.items ≡ text_of_case case.now) }
{
    let version = case.version();
    let instance = case.instance();
    let nodes = instance.nodes();
    let mut text = format!(in alloc; "spp {version}\nnodes {nodes}\n")?;
    push_links(&mut text, version, instance.links())?;
    push_paths(&mut text, instance.paths())?;
    push_scenes(&mut text, case.scenario())?;
    text.push_str("end\n")?;
    Ok(text.into_bytes())
}

fn push_links(text: &mut String, version: u32, links: &[Link]) -> Result<(), AllocError>
    ensures { OnOk result (string_bytes text.new ≡ string_bytes text.old ++ flat_map (λ l. ended_line (line_of version (link_line l))) links.now) }
{
    for link in links {
        push_link(text, version, link)?;
    }
    Ok(())
}

fn push_link(text: &mut String, version: u32, link: &Link) -> Result<(), AllocError>
    ensures { OnOk result (string_bytes text.new ≡ string_bytes text.old ++ ended_line (line_of version (link_line link.now))) }
{
    let Link {
        first,
        second,
        delay,
        back,
    } = *link;
    if version == 1 {
        writeln!(text, "link {first} {second} {delay}")
    } else {
        writeln!(text, "link {first} {second} {delay} {back}")
    }
}

fn push_paths(text: &mut String, paths: &[PermittedPath]) -> Result<(), AllocError>
    ensures { OnOk result (string_bytes text.new ≡ string_bytes text.old ++ flat_map (λ p. ended_line (line_of_path p)) paths.now) }
{
    for path in paths {
        push_path(text, path.owner, &path.nodes)?;
    }
    Ok(())
}

fn push_path(text: &mut String, owner: u32, nodes: &[u32]) -> Result<(), AllocError>
    ensures { OnOk result (string_bytes text.new ≡ string_bytes text.old ++ ended_line (line_of_path (record { owner = owner; nodes = nodes.now }))) }
{
    write!(text, "path {owner}")?;
    push_nodes(text, nodes)?;
    text.push('\n')?;
    Ok(())
}

/// Adds each node with a space before it.
fn push_nodes(text: &mut String, nodes: &[u32]) -> Result<(), AllocError>
    ensures { OnOk result (string_bytes text.new ≡ string_bytes text.old ++ flat_map (λ n. 32 ∷ decimal n) nodes.now) }
{
    for node in nodes {
        write!(text, " {node}")?;
    }
    Ok(())
}

fn push_scenes(text: &mut String, scenes: &[Scene]) -> Result<(), AllocError>
    ensures { OnOk result (string_bytes text.new ≡ string_bytes text.old ++ flat_map (λ s. ended_line (line_of_scene s)) scenes.now) }
{
    for scene in scenes {
        push_scene(text, scene)?;
    }
    Ok(())
}

fn push_scene(text: &mut String, scene: &Scene) -> Result<(), AllocError>
    ensures { OnOk result (string_bytes text.new ≡ string_bytes text.old ++ ended_line (line_of_scene scene.now)) }
{
    match *scene {
        Scene::Fail {
            time,
            first,
            second,
        } => push_three(text, "fail", time, first, second),
        Scene::Restore {
            time,
            first,
            second,
        } => push_three(text, "restore", time, first, second),
        Scene::Swap {
            time,
            node,
            first,
            second,
        } => writeln!(text, "swap {time} {node} {first} {second}"),
        Scene::Forbid { time, node, line } => push_three(text, "forbid", time, node, line),
        Scene::Allow { time, node, line } => push_three(text, "allow", time, node, line),
    }
}

/// Adds a line of this word and three numbers.
fn push_three(
    text: &mut String,
    word: &str,
    first: u64,
    second: u32,
    third: u32,
) -> Result<(), AllocError>
    ensures { OnOk result (string_bytes text.new ≡ string_bytes text.old ++ ended_line (join_with_byte space (word.now ∷ decimal first ∷ decimal second ∷ decimal third ∷ []))) }
{
    writeln!(text, "{word} {first} {second} {third}")
}
