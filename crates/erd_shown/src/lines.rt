ghost use Rattle.std.specs.Prelude.{◌≡◌, ◌+◌, ◌++◌, map, OnOk};
ghost use Rattle.serde_json.specs.View.{items_view, view};
ghost use Rattle.erd_shown.specs.ContentData.{members_in};
ghost use Rattle.erd_shown.specs.Lines.{content_lines, inside_lines, node_lines, nodes_lines};
ghost use Rattle.erd_shown.specs.code.LineLists.{of_line};

use crate::contests_and_headers::is_header;
use crate::counts::one_more;
use serde_json::Value;
use std::alloc::AllocError;

/// A header or a contest on a ballot.
#[derive(Clone, Copy)]
pub(crate) struct Line<'a> {
    /// How many headers stand around it.
    pub(crate) depth: usize,
    /// Its node in the order of the ballot.
    pub(crate) node: &'a Value,
}

/// Appends the lines of a list of contests and headers, at every depth of headers.
#[cycle(lines)]
pub(crate) fn push_content<'a>(
    depth: usize,
    value: &'a Value,
    lines: &mut Vec<Line<'a>>,
) -> Result<(), AllocError>
    ensures { OnOk result (map of_line lines.new.items ≡ map of_line lines.old.items ++ content_lines depth (view value.now)) }
{
    match value {
        Value::Array(items) => push_nodes(depth, items, lines),
        _ => Ok(()),
    }
}

/// Appends the lines of the contests and headers of an array.
#[cycle(lines)]
fn push_nodes<'a>(
    depth: usize,
    items: &'a Vec<Value>,
    lines: &mut Vec<Line<'a>>,
) -> Result<(), AllocError>
    ensures { OnOk result (map of_line lines.new.items ≡ map of_line lines.old.items ++ nodes_lines depth (items_view items.now.items)) }
{
    for item in items {
        push_node(depth, item, lines)?;
    }
    Ok(())
}

/// Appends the line of a contest or a header, and after a header those inside it.
#[cycle(lines)]
fn push_node<'a>(
    depth: usize,
    value: &'a Value,
    lines: &mut Vec<Line<'a>>,
) -> Result<(), AllocError>
    ensures { OnOk result (map of_line lines.new.items ≡ map of_line lines.old.items ++ node_lines depth (view value.now)) }
{
    lines.push(Line { depth, node: value })?;
    if is_header(value) {
        push_inside(depth, value, lines)
    } else {
        Ok(())
    }
}

/// Appends the lines inside a header.
#[cycle(lines)]
fn push_inside<'a>(
    depth: usize,
    value: &'a Value,
    lines: &mut Vec<Line<'a>>,
) -> Result<(), AllocError>
    ensures { OnOk result (map of_line lines.new.items ≡ map of_line lines.old.items ++ inside_lines (depth + 1) (members_in (view value.now))) }
{
    match value.get("OrderedContent") {
        Some(content) => {
            let inside = one_more(depth)?;
            push_content(inside, content, lines)
        }
        None => Ok(()),
    }
}
