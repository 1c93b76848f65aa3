//! What a store at one of several addresses makes of a fact.

ghost use Rattle.std.specs.Prelude.{◌≡◌, length, map, cond, None};
ghost use Rattle.std.specs.List.{list_any};
ghost use Rattle.flag_relation.specs.Facts.{values};
ghost use Rattle.abs_step.specs.declared.outcome.Post.TheVariants.{Same, Within};
ghost use Rattle.abs_step.specs.Results.{addressed};
ghost use Rattle.abs_step.specs.Stores.{joined_cells, source_link, store_several, store_several_posts};
ghost use Rattle.abs_step.specs.Writes.{hits, is_among, drop_flag, drop_link, put_cells};

use crate::Post;
use crate::addresses::may_be;
use crate::posts::Posts;
use crate::results::source_value;
use flag_relation::{Atom, Fact, Flag, Link, Reg, Right};
use num_domain::NumDomain;
use viper_decode::{Place, Source};
use viper_word::Addr;

/// Is the cell of that number one that the place may be?
fn is_hit<D: NumDomain>(place: &Place, side: &Fact<D>, cells: &[Addr], i: u8) -> bool
    ensures { result ≡ hits (addressed D.domain place.now (values side.now)) cells.now i }
{
    match cells {
        [] => false,
        [first, rest @ ..] => {
            if i == 0 {
                may_be(place, side, *first)
            } else {
                is_hit(place, side, rest, i - 1)
            }
        }
    }
}

/// May the place be a cell?
fn may_be_cell<D: NumDomain>(place: &Place, side: &Fact<D>, cells: &[Addr]) -> bool
    ensures { result ≡ list_any (addressed D.domain place.now (values side.now)) cells.now }
{
    match cells {
        [] => false,
        [first, rest @ ..] => may_be(place, side, *first) || may_be_cell(place, side, rest),
    }
}

/// Is it a cell that the place may be?
fn is_hit_right<D: NumDomain>(place: &Place, side: &Fact<D>, cells: &[Addr], right: Right) -> bool
    ensures { result ≡ is_among
        (hits (addressed D.domain place.now (values side.now)) cells.now) right }
{
    match right {
        Right::Cell(i) => is_hit(place, side, cells, i),
        Right::Const(_) => false,
    }
}

/// Does some atom compare with a cell that the place may be?
fn is_compared<D: NumDomain>(place: &Place, side: &Fact<D>, cells: &[Addr], atoms: &[Atom]) -> bool
    ensures { result ≡ list_any (λ a. is_among
        (hits (addressed D.domain place.now (values side.now)) cells.now) a.right) atoms.now }
{
    match atoms {
        [] => false,
        [first, rest @ ..] => {
            is_hit_right(place, side, cells, first.right) || is_compared(place, side, cells, rest)
        }
    }
}

/// What is known of B after a write to the cells that the place may be.
fn flag_after<D: NumDomain>(place: &Place, side: &Fact<D>, cells: &[Addr], flag: Flag) -> Flag
    ensures { result ≡ drop_flag (λ a. is_among
        (hits (addressed D.domain place.now (values side.now)) cells.now) a.right) flag }
{
    match flag {
        Flag::Any => Flag::Any,
        Flag::One => Flag::One,
        Flag::Or(atoms) => {
            if is_compared(place, side, cells, atoms.items()) {
                Flag::Any
            } else {
                Flag::Or(atoms)
            }
        }
    }
}

/// The link after a write to the cells that the place may be.
fn link_after<D: NumDomain>(
    place: &Place,
    side: &Fact<D>,
    cells: &[Addr],
    link: Option<Link>,
) -> Option<Link>
    ensures { result ≡ drop_link
        (hits (addressed D.domain place.now (values side.now)) cells.now) link }
{
    match link {
        None => None,
        Some(l) => {
            if is_hit(place, side, cells, l.cell) {
                None
            } else {
                Some(l)
            }
        }
    }
}

/// The value of a cell, joined with what is stored where the place may be its address.
fn joined<D: NumDomain>(place: &Place, side: &Fact<D>, cell: Addr, old: &D, stored: &D) -> D
    ensures { result ≡ cond (addressed D.domain place.now (values side.now) cell)
        (D.domain.join old.now stored.now) old.now }
{
    if may_be(place, side, cell) {
        old.join(stored)
    } else {
        *old
    }
}

/// Joins each cell that the place may be with what is stored.
fn join_cells<D: NumDomain>(
    place: &Place,
    side: &Fact<D>,
    cells: &[Addr],
    stored: &D,
    after: &mut Fact<D>,
)
    requires { length cells.now ≡ length after.old.cells }
    ensures joined { after.new ≡ record after.old {
      cells = joined_cells D.domain
          (addressed D.domain place.now (values side.now)) cells.now after.old.cells stored.now;
    } }
    ensures count { length after.new.cells ≡ length after.old.cells }
{
    let count = after.count();
    let mut at = 0;
    while at < count {
        let old = after.cell(at as u8);
        after.set_cell(at as u8, joined(place, side, cells[at], &old, stored));
        at += 1;
    }
}

/// Writes each cell that the place may be: it is joined with what is stored, and links to it and
/// atoms on it are forgotten.
#[tactic(auto, unfolding(crate::specs::Writes::put_cells))]
fn put_cells<D: NumDomain>(
    place: &Place,
    side: &Fact<D>,
    cells: &[Addr],
    stored: &D,
    after: &mut Fact<D>,
)
    requires { length cells.now ≡ length after.old.cells }
    ensures put { after.new ≡ put_cells after.old (joined_cells D.domain
        (addressed D.domain place.now (values side.now)) cells.now after.old.cells stored.now)
        (hits (addressed D.domain place.now (values side.now)) cells.now) }
    ensures count { length after.new.cells ≡ length after.old.cells }
{
    join_cells(place, side, cells, stored, after);
    after.set_link(Reg::A, link_after(place, side, cells, after.link(Reg::A)));
    after.set_link(Reg::X, link_after(place, side, cells, after.link(Reg::X)));
    after.set_link(Reg::Y, link_after(place, side, cells, after.link(Reg::Y)));
    after.set_flag(flag_after(place, side, cells, after.flag()));
}

/// Drops the link of the register that is stored.
fn unlink<D: NumDomain>(after: &mut Fact<D>, source: Source)
    ensures dropped { after.new ≡ source_link D.domain after.old source None }
    ensures count { length after.new.cells ≡ length after.old.cells }
{
    if let Source::Of(r) = source {
        after.set_link(r, None);
    }
}

/// Makes `after` the side after a store at one of several addresses.
#[tactic(auto, unfolding(crate::specs::Stores::store_several))]
pub(crate) fn store_several<D: NumDomain>(
    at: Addr,
    place: &Place,
    side: &Fact<D>,
    cells: &[Addr],
    source: Source,
    after: &mut Fact<D>,
)
    requires cells { length cells.now ≡ length side.now.cells }
    requires after { length after.old.cells ≡ length side.now.cells }
    ensures stored { after.new ≡ store_several D.domain
        (addressed D.domain place.now (values side.now)) cells.now at side.now source }
    ensures count { length after.new.cells ≡ length side.now.cells }
{
    after.copy_from(side);
    put_cells(place, side, cells, &source_value(at, side, source), after);
    if may_be_cell(place, side, cells) {
        unlink(after, source);
    }
}

/// What becomes of a cell.
fn post_of<D: NumDomain>(place: &Place, side: &Fact<D>, cell: Addr) -> Post
    ensures { result ≡ cond (addressed D.domain place.now (values side.now) cell) Within Same }
{
    if may_be(place, side, cell) {
        Post::Within
    } else {
        Post::Same
    }
}

/// Says of each cell what becomes of it.
fn set_posts<D: NumDomain>(place: &Place, side: &Fact<D>, cells: &[Addr], posts: &mut [Post])
    requires { length cells.now ≡ length posts.old }
    ensures posts { posts.new ≡ map
        (λ c. cond (addressed D.domain place.now (values side.now) c) Within Same) cells.now }
    ensures count { length posts.new ≡ length cells.now }
{
    let mut at = 0;
    while at < posts.len() {
        posts[at] = post_of(place, side, cells[at]);
        at += 1;
    }
}

/// Says what becomes of each variable.
pub(crate) fn several_posts<D: NumDomain>(
    place: &Place,
    side: &Fact<D>,
    cells: &[Addr],
    posts: &mut Posts,
)
    requires { length cells.now ≡ length posts.old.cells }
    ensures posts { posts.new ≡ store_several_posts D.domain
        (addressed D.domain place.now (values side.now)) cells.now }
    ensures count { length posts.new.cells ≡ length cells.now }
{
    posts.stay(cells);
    set_posts(place, side, cells, posts.cells.as_mut_slice());
}
