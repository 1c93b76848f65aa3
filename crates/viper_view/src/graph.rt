//! A certificate as a picture: its nodes down the page by their addresses, and arcs beside them.

ghost use Rattle.cert_format.specs.Limits.{IsWithinLimits};

use crate::answer::Answer;
use crate::drawing::{
    BOX, Frame, GAP, LANE, LETTER, ROW, push_arc, push_down, push_escaped, push_head, push_text,
};
use crate::fact_words::FactWords;
use crate::lanes::{Arc, in_lanes, lane_count};
use crate::listing::line_at;
use crate::table::{known, rank_words};
use crate::verdicts::{push_bound, push_refusal};
use cert_checker::{Verdict, check, fill};
use cert_format::Cert;
use memory_plan::Plan;
use std::alloc::{AllocError, Global};
use viper_word::{Addr, Memory};

/// A node in its row: the order is by address.
#[derive(Clone, Copy, PartialEq, Eq, PartialOrd, Ord)]
struct Row {
    addr: Addr,
    node: u32,
}

/// The rows down the page.
fn rows_of(alloc: Global, cert: &Cert) -> Result<Vec<Row>, AllocError> {
    let mut rows = Vec::new(alloc);
    for node in 0..cert.len() {
        rows.push(Row {
            addr: cert.addr(node),
            node,
        })?;
    }
    rows.sort()?;
    Ok(rows)
}

/// The number of the row of each node.
fn places_of(alloc: Global, rows: &[Row]) -> Result<Vec<usize>, AllocError> {
    let mut places = vec![in alloc; 0; rows.len()]?;
    for (row, entry) in rows.iter().enumerate() {
        if let Some(place) = places.get_mut(entry.node as usize) {
            *place = row;
        }
    }
    Ok(places)
}

/// All edges as arcs; those from a row to the next one too.
fn edges_of(
    alloc: Global,
    plan: &Plan,
    cert: &Cert,
    places: &[usize],
) -> Result<Vec<Arc>, AllocError> {
    let mut arcs = Vec::new(alloc);
    for node in 0..cert.len() {
        for next in cert.succ(node) {
            if *next < cert.len() {
                let is_dashed = plan.is_marker(cert.addr(*next));
                if let Some(from) = places.get(node as usize) {
                    if let Some(to) = places.get(*next as usize) {
                        arcs.push(Arc::new(*from, *to, is_dashed))?;
                    }
                }
            }
        }
    }
    Ok(arcs)
}

/// Does the edge lead to the next row?
fn is_down(arc: &Arc) -> bool {
    arc.from < arc.to && arc.length == 1
}

/// The arcs that lead to the next row, or the others.
fn chosen(alloc: Global, arcs: &[Arc], down: bool) -> Result<Vec<Arc>, AllocError> {
    let mut found = Vec::new(alloc);
    for arc in arcs {
        if is_down(arc) == down {
            found.push(*arc)?;
        }
    }
    Ok(found)
}

/// The listing line of a node; of no node nothing.
fn label_of(alloc: Global, plan: &Plan, cert: &Cert, node: u32) -> Result<String, Memory> {
    if node < cert.len() {
        line_at(alloc, plan, cert.addr(node))
    } else {
        Ok(String::new(alloc))
    }
}

/// How many characters the longest line and the longest rank have.
#[derive(Clone, Copy)]
struct Letters {
    label: usize,
    rank: usize,
}

/// Those of all nodes.
fn letters_of(alloc: Global, plan: &Plan, cert: &Cert) -> Result<Letters, Memory> {
    let mut letters = Letters { label: 0, rank: 0 };
    for node in 0..cert.len() {
        letters.label = letters.label.max(label_of(alloc, plan, cert, node)?.len());
        letters.rank = letters.rank.max(rank_words(alloc, cert, node)?.len());
    }
    Ok(letters)
}

/// How wide the numbers of nodes are.
const NUMBERS: usize = 5 * LETTER;

/// How wide the boxes are.
fn box_width(letters: Letters) -> usize {
    letters
        .label
        .saturating_mul(LETTER)
        .saturating_add(NUMBERS + 2 * GAP)
}

/// The classes of the box of a node.
fn classes(plan: &Plan, cert: &Cert, node: u32) -> (&'static str, &'static str) {
    let is_marked = node < cert.len() && plan.is_marker(cert.addr(node));
    let is_start = cert.starts().iter().any(|start| *start == node);
    (
        if is_marked { "marked" } else { "node" },
        if is_start { " start" } else { "" },
    )
}

/// Appends the texts of a node: its number, its line and, beside the box, its rank.
fn push_labels(
    alloc: Global,
    out: &mut String,
    plan: &Plan,
    cert: &Cert,
    frame: Frame,
    width: usize,
    middle: usize,
    node: u32,
) -> Result<(), Memory> {
    let base = middle.saturating_add(4);
    let numbers = frame.left.saturating_add(GAP / 2 + NUMBERS);
    let number = format!(in alloc; "{node}")?;
    push_text(out, numbers, base, "number", number.as_str())?;
    let line = label_of(alloc, plan, cert, node)?;
    push_text(
        out,
        numbers.saturating_add(GAP),
        base,
        "line",
        line.as_str(),
    )?;
    let beside = frame.left.saturating_add(width).saturating_add(GAP);
    let rank = rank_words(alloc, cert, node)?;
    push_text(out, beside, base, "rank", rank.as_str())?;
    Ok(())
}

/// Appends a node: its box, with what is known as its title, and its texts.
fn push_node(
    alloc: Global,
    out: &mut String,
    plan: &Plan,
    cert: &Cert,
    frame: Frame,
    width: usize,
    row: usize,
    node: u32,
) -> Result<(), Memory> {
    let middle = frame.middle(row);
    let top = middle.saturating_sub(BOX / 2);
    let (kind, start) = classes(plan, cert, node);
    write!(
        out,
        "<rect x=\"{}\" y=\"{top}\" width=\"{width}\" ",
        frame.left
    )?;
    write!(
        out,
        "height=\"{BOX}\" rx=\"4\" class=\"{kind}{start}\"><title>"
    )?;
    if let Some(fact) = known(cert, node) {
        let words = FactWords {
            fact,
            cells: cert.cells(),
        };
        push_escaped(out, words.to_string(alloc)?.as_str())?;
    }
    writeln!(out, "</title></rect>")?;
    push_labels(alloc, out, plan, cert, frame, width, middle, node)
}

/// Appends the lines above the picture, each at its height.
fn push_lines(out: &mut String, lines: &str, class: &str) -> Result<(), AllocError> {
    let mut y = 2 * GAP;
    for line in lines.lines() {
        push_text(out, GAP, y, class, line)?;
        y = y.saturating_add(GAP);
    }
    Ok(())
}

/// What stands above a picture: viper's answer, and what the signs mean.
fn heading(alloc: Global, verdict: &Verdict) -> Result<String, Memory> {
    let mut text = String::new(alloc);
    match verdict {
        Verdict::Yes(bounds) => {
            for (marker, bound) in bounds.iter() {
                push_bound(&mut text, *marker, *bound)?;
            }
        }
        Verdict::No(refusal) => push_refusal(&mut text, refusal)?,
    }
    Ok(text)
}

/// What the signs of a picture mean.
const LEGEND: &str = "marker: yellow, start: bold, edge into a marker: dashed; rank at the right";

/// Appends the nodes and edges of a picture.
fn push_picture(
    alloc: Global,
    out: &mut String,
    plan: &Plan,
    cert: &Cert,
    top: usize,
) -> Result<(usize, usize), Memory> {
    let rows = rows_of(alloc, cert)?;
    let places = places_of(alloc, &rows)?;
    let edges = edges_of(alloc, plan, cert, &places)?;
    let arcs = in_lanes(alloc, chosen(alloc, &edges, false)?)?;
    let lanes = lane_count(&arcs).saturating_add(1).saturating_mul(LANE);
    let left = lanes.saturating_add(GAP);
    let frame = Frame { left, top };
    let letters = letters_of(alloc, plan, cert)?;
    let width = box_width(letters);
    for arc in chosen(alloc, &edges, true)?.iter() {
        push_down(out, frame, arc.from, arc.is_dashed)?;
    }
    for arc in arcs.iter() {
        push_arc(out, frame, arc)?;
    }
    for (row, entry) in rows.iter().enumerate() {
        push_node(alloc, out, plan, cert, frame, width, row, entry.node)?;
    }
    let ranks = letters.rank.saturating_mul(LETTER).saturating_add(2 * GAP);
    Ok((
        left.saturating_add(width).saturating_add(ranks),
        frame.middle(rows.len()),
    ))
}

/// How many lines a text has.
fn line_count(text: &str) -> usize {
    text.lines().count()
}

/// How wide the lines above a picture are.
fn heading_width(text: &str) -> usize {
    let mut most = LEGEND.len();
    for line in text.lines() {
        most = most.max(line.len());
    }
    most.saturating_mul(LETTER).saturating_add(2 * GAP)
}

/// A certificate as an SVG: its nodes down the page in the order of their addresses, as it is
/// filled, with their ranks; markers in colour, edges into markers dashed, and viper's answer above
/// (docs/VIEWING.md).
pub fn graph(alloc: Global, plan: &Plan, cert: &Cert) -> Result<Answer, Memory>
    requires { IsWithinLimits cert.now }
{
    let full = fill(alloc, plan, cert)?;
    let verdict = check(alloc, plan, cert)?;
    let heading = heading(alloc, &verdict)?;
    let lines = line_count(heading.as_str()).saturating_add(1);
    let top = lines.saturating_mul(GAP).saturating_add(2 * ROW);
    let mut picture = String::new(alloc);
    let (width, height) = push_picture(alloc, &mut picture, plan, &full, top)?;
    let mut text = String::new(alloc);
    push_head(
        &mut text,
        width.max(heading_width(heading.as_str())),
        height,
    )?;
    let is_yes = matches!(&verdict, Verdict::Yes(_));
    push_lines(
        &mut text,
        heading.as_str(),
        if is_yes { "line" } else { "no" },
    )?;
    push_text(
        &mut text,
        GAP,
        lines.saturating_add(1).saturating_mul(GAP),
        "note",
        LEGEND,
    )?;
    write!(text, "{picture}")?;
    writeln!(text, "</svg>")?;
    Ok(Answer { is_yes, text })
}
