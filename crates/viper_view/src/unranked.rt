//! Edges that no variable ranks: their lines, and on which edge each variable may grow.

use crate::fact_words::{FactWords, Name, REGS};
use crate::listing::{KeyWords, line_at};
use crate::steps::{change, fields_at, step};
use abs_step::Outcome;
use fix_solver::{Solved, solve};
use flag_relation::Var;
use flow_recover::next_context;
use memory_plan::Plan;
use rank_form::direction;
use rank_nest::Edge;
use std::alloc::{AllocError, Global};
use val_dom::Val;
use viper_word::Memory;

/// A variable with a direction, and what was seen of it along the edges: the edge on which it may
/// grow, by its number, and by how much; and whether it surely falls on one.
#[derive(Clone, Copy)]
struct Candidate {
    var: Var,
    down: bool,
    grows: Option<(usize, i128)>,
    falls: bool,
}

/// Adds a variable, down and up.
fn add_both(candidates: &mut Vec<Candidate>, var: Var) -> Result<(), AllocError> {
    for down in [true, false] {
        candidates.push(Candidate {
            var,
            down,
            grows: None,
            falls: false,
        })?;
    }
    Ok(())
}

/// All candidates over so many cells.
fn candidates_of(alloc: Global, cells: usize) -> Result<Vec<Candidate>, AllocError> {
    let mut candidates = Vec::new(alloc);
    for reg in &REGS {
        add_both(&mut candidates, Var::Reg(*reg))?;
    }
    let mut number: u8 = 0;
    for _ in 0..cells {
        add_both(&mut candidates, Var::Cell(number))?;
        number = number.saturating_add(1);
    }
    Ok(candidates)
}

impl Candidate {
    /// Sees what it does over an outcome of the edge of this number.
    fn see(&mut self, edge: usize, out: &Outcome<Val>) {
        let form = direction(self.var, self.down);
        let by = change(&form, &form, out);
        if by <= -1 {
            self.falls = true;
        }
        if by >= 1 && self.grows.is_none() {
            self.grows = Some((edge, by));
        }
    }

    /// Neither grows nor falls it?
    fn stays(&self) -> bool {
        self.grows.is_none() && !self.falls
    }
}

/// Sees what the candidates do along the edge of this number, which begins at the key of a number.
fn see_edge(
    alloc: Global,
    plan: &Plan,
    solved: &Solved<Val>,
    from: usize,
    number: usize,
    edge: &Edge,
    candidates: &mut Vec<Candidate>,
) -> Result<(), Memory> {
    if from >= solved.len() {
        return Ok(());
    }
    let key = solved.key(from);
    let Ok(scratch) = step(alloc, plan, solved.cells(), key.addr, solved.fact(from))? else {
        return Ok(());
    };
    for out in scratch.outcomes_in() {
        let to = next_context(key, fields_at(plan, key.addr), out.target);
        if to.is_same(&edge.to) {
            for candidate in candidates.iter_mut() {
                candidate.see(number, out);
            }
        }
    }
    Ok(())
}

/// Appends an edge: viper's line, the listing line, and what is known where it begins.
fn push_edge(
    alloc: Global,
    text: &mut String,
    plan: &Plan,
    solved: &Solved<Val>,
    from: usize,
    edge: &Edge,
) -> Result<(), Memory> {
    let begin = KeyWords { key: &edge.from };
    let end = KeyWords { key: &edge.to };
    writeln!(text, "edge {begin} to {end}")?;
    if from < solved.len() {
        let known = FactWords {
            fact: solved.fact(from),
            cells: solved.cells(),
        };
        let line = line_at(alloc, plan, edge.from.addr)?;
        writeln!(text, "  {line}, known: {known}")?;
    }
    Ok(())
}

/// Appends the edges, and sees what the candidates do along them. Edges ascend as the keys do.
fn push_edges(
    alloc: Global,
    text: &mut String,
    plan: &Plan,
    solved: &Solved<Val>,
    edges: &[Edge],
    candidates: &mut Vec<Candidate>,
) -> Result<(), Memory> {
    let mut from = 0;
    for (number, edge) in edges.iter().enumerate() {
        for _ in 0..solved.len() {
            if from >= solved.len() || solved.key(from).is_same(&edge.from) {
                break;
            }
            from += 1;
        }
        push_edge(alloc, text, plan, solved, from, edge)?;
        see_edge(alloc, plan, solved, from, number, edge, candidates)?;
    }
    Ok(())
}

/// Appends why a candidate ranks nothing: the edge on which it may grow, or that it falls on none.
fn push_candidate(
    text: &mut String,
    solved: &Solved<Val>,
    edges: &[Edge],
    candidate: &Candidate,
) -> Result<(), Memory> {
    let name = Name {
        var: candidate.var,
        cells: solved.cells(),
    };
    let (way, grows) = if candidate.down {
        ("down", "grow")
    } else {
        ("up", "fall")
    };
    write!(text, "{name} {way}: ")?;
    match candidate.grows {
        None => writeln!(text, "surely moves on no edge")?,
        Some((number, by)) => {
            write!(text, "{name} may {grows} by {by} on ")?;
            if let Some(edge) = edges.get(number) {
                let begin = KeyWords { key: &edge.from };
                let end = KeyWords { key: &edge.to };
                write!(text, "{begin} to {end}")?;
            }
            writeln!(text, "")?;
        }
    }
    Ok(())
}

/// Appends the variables that stay along all edges.
fn push_staying(
    text: &mut String,
    solved: &Solved<Val>,
    candidates: &[Candidate],
) -> Result<(), Memory> {
    let mut begun = false;
    for pair in candidates.chunks(2) {
        if pair.iter().all(|candidate| candidate.stays()) {
            if let Some(first) = pair.first() {
                let name = Name {
                    var: first.var,
                    cells: solved.cells(),
                };
                write!(
                    text,
                    "{}{name}",
                    if begun { ", " } else { "stay as they are: " }
                )?;
                begun = true;
            }
        }
    }
    if begun {
        writeln!(text, "")?;
    }
    Ok(())
}

/// Appends why no candidate ranks the edges.
fn push_candidates(
    text: &mut String,
    solved: &Solved<Val>,
    edges: &[Edge],
    candidates: &[Candidate],
) -> Result<(), Memory> {
    for pair in candidates.chunks(2) {
        if !pair.iter().all(|candidate| candidate.stays()) {
            for candidate in pair {
                push_candidate(text, solved, edges, candidate)?;
            }
        }
    }
    push_staying(text, solved, candidates)
}

/// Appends viper's lines of edges that no variable ranks, with the listing lines and facts, and for
/// each variable and direction why it doesn't.
pub fn push_unranked(
    alloc: Global,
    text: &mut String,
    plan: &Plan,
    edges: &[Edge],
) -> Result<(), Memory> {
    let Ok(solved) = solve::<Val>(alloc, plan) else {
        return Err(Memory);
    };
    let mut candidates = candidates_of(alloc, solved.cells().len())?;
    writeln!(text, "unranked {}", edges.len())?;
    push_edges(alloc, text, plan, &solved, edges, &mut candidates)?;
    push_candidates(text, &solved, edges, &candidates)
}
