ghost use Rattle.std.specs.Prelude.{◌≡◌, ◌<◌, ◌≤◌, ◌++◌, ◌∷◌, [], ℕ, List, All, AllPairs, Contains, IfOk, length};
ghost use Rattle.strong_components.specs.Numbers.{Fresh};
ghost use Rattle.strong_components.specs.Steps.{BySource};
ghost use Rattle.rank_shape.specs.Nests.{HasNest, HasPart};
ghost use Rattle.rank_shape.specs.Places.{EndsIn};
ghost use Rattle.rank_numbers.specs.Forms.{MovesOf};
ghost use Rattle.rank_numbers.specs.Levels.{levels_of};
ghost use Rattle.rank_numbers.specs.Results.{AreNumbers};
ghost use Rattle.rank_numbers.specs.Rows.{form_of, IntoKeys, OthersStay};
ghost use Rattle.rank_numbers.specs.Steps.{IsSetting, IsWithin, HasPlaces, GraphDone, PartDone};

use crate::leads::leads_of;
use crate::level::{Level, Numbered};
use crate::offset::{offsets, total};
use crate::part::{low_end, ones, raised};
use crate::ranks::Ranks;
use crate::shift::shift_parts;
use rank_shape::{Moves, inside_parts};
use std::alloc::{AllocError, Global};
use strong_components::{Edge, Mark, components_of};

/// The greatest number that isn't large.
const MOST: i128 = 4611686018427387904;

/// Puts a level behind the others.
fn push_level(
    alloc: Global,
    levels: &mut Vec<Level>,
    keys: &[u32],
    candidate: Option<u32>,
    low: i64,
    weight: i128,
    greatest: i128,
) -> Result<(), AllocError>
    ensures { IfOk result (λ _. levels_of levels.new.items ≡ levels_of levels.old.items ++ record {
      keys = keys.now;
      candidate = candidate;
      low = low;
      weight = weight;
      greatest = greatest;
    } ∷ []) }
{
    levels.push(Level {
        keys: Vec::from_slice(alloc, keys)?,
        candidate,
        low,
        weight,
        greatest,
    })?;
    Ok(())
}

/// The forms of a graph's keys, and its total. None where a number is large. The levels are put
/// behind the others.
#[cycle(numbers)]
fn graph_numbers<R: Ranks>(
    alloc: Global,
    ranks: &R,
    keys: &[u32],
    edges: &[Edge],
    into: &[Vec<Edge>],
    moves: &Moves,
    marks: &mut [Mark],
    places: &mut [usize],
    forms: &mut [R::Form],
    scratch: &mut R::Scratch,
    levels: &mut Vec<Level>,
) -> Result<Option<i128>, AllocError>
    requires setting { IsSetting (R.forms ranks.now) moves.now into.now }
    requires graph { IsWithin (R.forms ranks.now) (length into.now) keys.now edges.now }
    requires nest { HasNest moves.now keys.now edges.now }
    requires places { HasPlaces (length into.now) marks.old places.old forms.old }
    requires room { R.has_room ranks.now scratch.old }
    ensures numbers { IfOk result (λ r. GraphDone (R.forms ranks.now) moves.now keys.now edges.now
        forms.old forms.new levels.old.items levels.new.items r) }
    ensures places { IfOk result (λ _.
        HasPlaces (length into.now) marks.new places.new forms.new) }
    ensures room { IfOk result (λ _. R.has_room ranks.now scratch.new) }
{
    let found = components_of(alloc, keys, edges, marks)?;
    let lists = inside_parts(alloc, &found.parts, edges, places)?;
    let leads = leads_of(alloc, &found.parts, edges, places)?;
    let mut highs = Vec::new(alloc);
    for p in 0..found.parts.len() {
        let part = &found.parts[p];
        let Some(high) = part_numbers(
            alloc, ranks, part, &lists[p], into, moves, marks, places, forms, scratch, levels,
        )?
        else {
            return Ok(None);
        };
        highs.push(high)?;
    }
    let offset = offsets(alloc, &found.order, &leads, &highs)?;
    let most = total(&offset, &highs);
    push_level(alloc, levels, keys, None, 0, 0, most)?;
    if !shift_parts(ranks, &found.parts, &offset, forms) {
        return Ok(None);
    }
    if most > MOST {
        return Ok(None);
    }
    Ok(Some(most))
}

/// The local forms of a part's keys, and its greatest value. None where a number is large. The
/// levels are put behind the others.
#[cycle(numbers)]
fn part_numbers<R: Ranks>(
    alloc: Global,
    ranks: &R,
    part: &[u32],
    edges: &[Edge],
    into: &[Vec<Edge>],
    moves: &Moves,
    marks: &mut [Mark],
    places: &mut [usize],
    forms: &mut [R::Form],
    scratch: &mut R::Scratch,
    levels: &mut Vec<Level>,
) -> Result<Option<i128>, AllocError>
    requires setting { IsSetting (R.forms ranks.now) moves.now into.now }
    requires graph { IsWithin (R.forms ranks.now) (length into.now) part.now edges.now }
    requires nest { HasPart moves.now part.now edges.now }
    requires places { HasPlaces (length into.now) marks.old places.old forms.old }
    requires room { R.has_room ranks.now scratch.old }
    ensures numbers { IfOk result (λ r. PartDone (R.forms ranks.now) moves.now part.now edges.now
        forms.old forms.new levels.old.items levels.new.items r) }
    ensures places { IfOk result (λ _.
        HasPlaces (length into.now) marks.new places.new forms.new) }
    ensures room { IfOk result (λ _. R.has_room ranks.now scratch.new) }
{
    if edges.is_empty() {
        ones(ranks, part, forms);
        return Ok(Some(1));
    }
    let Some(candidate) = moves.first_fit(edges) else {
        unreachable!()
    };
    let rest = moves.remaining(alloc, edges, candidate)?;
    let Some(weight) = graph_numbers(
        alloc, ranks, part, &rest, into, moves, marks, places, forms, scratch, levels,
    )?
    else {
        return Ok(None);
    };
    let low = low_end(ranks, part, candidate);
    let Some(most) = raised(ranks, part, into, weight, candidate, low, forms, scratch) else {
        push_level(alloc, levels, part, Some(candidate), low, weight, 0)?;
        return Ok(None);
    };
    push_level(alloc, levels, part, Some(candidate), low, weight, most)?;
    if most > MOST {
        return Ok(None);
    }
    Ok(Some(most))
}

/// Ranks a graph that has a nest: puts a form at each key, at least 1 over the key's fact, and
/// falling along each edge. The total is the greatest value of all. Where a number is large, which
/// is a form that passes a limit or a greatest value or a total over 2^62, the answer is the nest
/// up to the level to which the first large number belongs, and the graph's forms are of no use. An
/// error for want of memory.
///
/// `into` has the edges that end at each key. `marks`, `places` and `forms` have a place for each
/// key; the marks are left as they were, and so are the forms of keys that aren't the graph's.
/// docs/METHOD.md, "Numbers of a nest".
pub fn numbers_of<R: Ranks>(
    alloc: Global,
    ranks: &R,
    keys: &[u32],
    edges: &[Edge],
    into: &[Vec<Edge>],
    moves: &Moves,
    marks: &mut [Mark],
    places: &mut [usize],
    forms: &mut [R::Form],
    scratch: &mut R::Scratch,
) -> Result<Numbered, AllocError>
    requires some { 0 < length keys.now }
    requires ascend { AllPairs (λ a b. a < b) keys.now }
    requires keys { All (λ k. k < length marks.old) keys.now }
    requires known { length marks.old ≤ (R.forms ranks.now).keys }
    requires places { length places.old ≡ length marks.old }
    requires forms { length forms.old ≡ length marks.old }
    requires into { length into.now ≡ length marks.old }
    requires into_keys { IntoKeys edges.now into.now }
    requires by_source { BySource edges.now }
    requires ends { EndsIn keys.now edges.now }
    requires edges { edges.now ≡ (R.forms ranks.now).edges }
    requires fresh { Fresh marks.old }
    requires candidates { moves.now.count ≤ (R.forms ranks.now).candidates }
    requires moves { MovesOf (R.forms ranks.now) moves.now edges.now }
    requires nest { HasNest moves.now keys.now edges.now }
    requires room { R.has_room ranks.now scratch.old }
    ensures numbers { IfOk result (λ r. AreNumbers (R.forms ranks.now) moves.now keys.now edges.now
        (form_of (R.forms ranks.now) forms.new) r) }
    ensures others { IfOk result (λ _.
        OthersStay (R.forms ranks.now) keys.now forms.old forms.new) }
    ensures fresh { IfOk result (λ _. Fresh marks.new) }
    ensures marks_len { IfOk result (λ _. length marks.new ≡ length marks.old) }
    ensures places_len { IfOk result (λ _. length places.new ≡ length places.old) }
    ensures forms_len { IfOk result (λ _. length forms.new ≡ length forms.old) }
    ensures room { IfOk result (λ _. R.has_room ranks.now scratch.new) }
{
    let mut levels = Vec::new(alloc);
    let Some(most) = graph_numbers(
        alloc,
        ranks,
        keys,
        edges,
        into,
        moves,
        marks,
        places,
        forms,
        scratch,
        &mut levels,
    )?
    else {
        return Ok(Numbered::Large(levels));
    };
    Ok(Numbered::Total(most))
}
