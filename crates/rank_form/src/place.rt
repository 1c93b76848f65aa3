//! Which variable stands for which, and what is added to it.
ghost use Rattle.std.specs.Prelude.{◌≡◌, ◌<◌};
ghost use Rattle.flag_relation.specs.Forms.{var_number};
ghost use Rattle.rank_form.specs.declared.rates.TheConstants.{VARIABLES};
ghost use Rattle.rank_form.specs.Bounds.{placed, place, post_at};
ghost use Rattle.rank_form.specs.Rates.{regs_of, no_links};

use abs_step::{Post, Posts};
use flag_relation::{Fact, Link, Reg, Var};
use num_domain::NumDomain;

/// The links of A, X and Y.
#[derive(Clone, Copy)]
pub(crate) struct Links {
    pub(crate) a: Option<Link>,
    pub(crate) x: Option<Link>,
    pub(crate) y: Option<Link>,
}

/// A variable is another one plus a number.
#[derive(Clone, Copy)]
pub(crate) struct Spot {
    pub(crate) var: Var,
    pub(crate) more: i64,
}

/// The links of a fact.
pub(crate) fn links_of<D: NumDomain>(fact: &Fact<D>) -> Links
    ensures { regs_of result ≡ fact.now.links }
{
    Links {
        a: fact.link(Reg::A),
        x: fact.link(Reg::X),
        y: fact.link(Reg::Y),
    }
}

/// No register is linked.
pub(crate) fn no_links() -> Links
    ensures { regs_of result ≡ no_links }
{
    Links {
        a: None,
        x: None,
        y: None,
    }
}

/// What a variable with this link is.
fn placed(var: Var, link: Option<Link>) -> Spot
    ensures { result ≡ placed var link }
{
    match link {
        None => Spot { var, more: 0 },
        Some(link) => Spot {
            var: Var::Cell(link.cell),
            more: link.offset,
        },
    }
}

/// What a variable is.
pub(crate) fn place(links: &Links, var: Var) -> Spot
    ensures { result ≡ place (regs_of links.now) var }
{
    match var {
        Var::Reg(Reg::A) => placed(var, links.a),
        Var::Reg(Reg::X) => placed(var, links.x),
        Var::Reg(Reg::Y) => placed(var, links.y),
        Var::Cell(_) => placed(var, None),
    }
}

/// The place of a variable in the order.
pub(crate) fn var_number(var: Var) -> usize
    ensures number { result ≡ var_number var }
    ensures few { result < VARIABLES }
{
    match var {
        Var::Reg(Reg::A) => 0,
        Var::Reg(Reg::X) => 1,
        Var::Reg(Reg::Y) => 2,
        Var::Cell(i) => 3 + i as usize,
    }
}

/// What becomes of a variable; it stays where nothing is said.
pub(crate) fn post_at(posts: &Posts, var: Var) -> Post
    ensures { result ≡ post_at posts.now var }
{
    match var {
        Var::Reg(Reg::A) => posts.a,
        Var::Reg(Reg::X) => posts.x,
        Var::Reg(Reg::Y) => posts.y,
        Var::Cell(i) => {
            if (i as usize) < posts.cells.len() {
                posts.cells[i as usize]
            } else {
                Post::Same
            }
        }
    }
}
