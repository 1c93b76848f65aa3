//! Pieces of an SVG. Lengths are in its units, about the pixels of a screen.

use crate::lanes::Arc;
use std::alloc::AllocError;

/// How far rows are apart, from middle to middle.
pub const ROW: usize = 30;

/// How high the box of a row is.
pub const BOX: usize = 20;

/// How far lanes are apart.
pub const LANE: usize = 12;

/// How wide a character is counted.
pub const LETTER: usize = 8;

/// How much room there is at the sides, and between the parts of a row.
pub const GAP: usize = 16;

/// How far above and below the middle of its row an arc comes in and goes out.
const ASIDE: usize = 4;

/// The radius of the corners of an arc.
const CORNER: usize = 4;

/// Where the boxes begin, and the middle of the first row.
#[derive(Clone, Copy)]
pub struct Frame {
    pub left: usize,
    pub top: usize,
}

impl Frame {
    /// The middle of a row.
    pub fn middle(&self, row: usize) -> usize {
        self.top.saturating_add(row.saturating_mul(ROW))
    }

    /// Where a lane runs.
    fn lane(&self, lane: usize) -> usize {
        let away = lane.saturating_add(1).saturating_mul(LANE);
        self.left.saturating_sub(away)
    }
}

/// Appends a text, with the signs that XML keeps for itself spelled out.
pub fn push_escaped(out: &mut String, text: &str) -> Result<(), AllocError> {
    for letter in text.chars() {
        match letter {
            '<' => write!(out, "&lt;")?,
            '>' => write!(out, "&gt;")?,
            '&' => write!(out, "&amp;")?,
            _ => write!(out, "{letter}")?,
        }
    }
    Ok(())
}

/// Appends a text at a place, in a class of the style.
pub fn push_text(
    out: &mut String,
    x: usize,
    y: usize,
    class: &str,
    text: &str,
) -> Result<(), AllocError> {
    write!(out, "<text x=\"{x}\" y=\"{y}\" class=\"{class}\">")?;
    push_escaped(out, text)?;
    writeln!(out, "</text>")
}

/// The class of an edge: dashed into a marker.
fn class_of(is_dashed: bool) -> &'static str {
    if is_dashed { "edge dashed" } else { "edge" }
}

/// Appends the edge from a row to the next one.
pub fn push_down(
    out: &mut String,
    frame: Frame,
    row: usize,
    is_dashed: bool,
) -> Result<(), AllocError> {
    let x = frame.left.saturating_add(GAP);
    let from = frame.middle(row).saturating_add(BOX / 2);
    let to = from.saturating_add(ROW - BOX).saturating_sub(1);
    let class = class_of(is_dashed);
    writeln!(out, "<path d=\"M{x} {from} V{to}\" class=\"{class}\"/>")
}

/// Appends an arc: out of its row, along its lane, and into the other row.
pub fn push_arc(out: &mut String, frame: Frame, arc: &Arc) -> Result<(), AllocError> {
    let x = frame.left;
    let end = x.saturating_sub(1);
    let lane = frame.lane(arc.lane);
    let turn = lane.saturating_add(CORNER);
    let from = frame.middle(arc.from).saturating_add(ASIDE);
    let to = frame.middle(arc.to).saturating_sub(ASIDE);
    let (leave, come) = if from < to {
        (from.saturating_add(CORNER), to.saturating_sub(CORNER))
    } else {
        (from.saturating_sub(CORNER), to.saturating_add(CORNER))
    };
    let class = class_of(arc.is_dashed);
    write!(
        out,
        "<path d=\"M{x} {from} H{turn} Q{lane} {from} {lane} {leave} "
    )?;
    writeln!(
        out,
        "V{come} Q{lane} {to} {turn} {to} H{end}\" class=\"{class}\"/>"
    )
}

/// The style of the picture, and the head of its arrows.
const STYLE: &str = "<style>
text{font-family:monospace;font-size:13px;fill:#222}
.note{fill:#666}
.no{fill:#b00020}
.rank{fill:#0b5394}
.number{fill:#666;text-anchor:end}
.edge{fill:none;stroke:#555;stroke-width:1.2;marker-end:url(#head)}
.dashed{stroke:#b45f06;stroke-dasharray:5 3}
.node{fill:#f7f7f7;stroke:#999}
.marked{fill:#ffe599;stroke:#b45f06}
.start{stroke-width:2.5}
</style>
<defs><marker id=\"head\" markerWidth=\"8\" markerHeight=\"8\" refX=\"6\" refY=\"3\" \
orient=\"auto\" markerUnits=\"userSpaceOnUse\"><path d=\"M0 0 L7 3 L0 6 z\" fill=\"#555\"/>\
</marker></defs>
";

/// Appends the beginning of a picture of this size.
pub fn push_head(out: &mut String, width: usize, height: usize) -> Result<(), AllocError> {
    write!(out, "<svg xmlns=\"http://www.w3.org/2000/svg\" ")?;
    write!(out, "width=\"{width}\" height=\"{height}\" ")?;
    writeln!(out, "viewBox=\"0 0 {width} {height}\">")?;
    write!(out, "{STYLE}")?;
    writeln!(
        out,
        "<rect width=\"{width}\" height=\"{height}\" fill=\"#fff\"/>"
    )
}
