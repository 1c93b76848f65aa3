//! Candidates: a variable with a direction each, numbered A down, A up, X down, and so on.
ghost use Rattle.std.specs.Prelude.{◌≡◌, ◌<◌, ◌≤◌, ◌*◌, ◌+◌, true, length};
ghost use Rattle.flag_relation.specs.declared.fact.TheConstants.{MOST_CELLS};
ghost use Rattle.abs_step.specs.declared.outcome.Post.TheVariants as posts;
ghost use Rattle.rank_form.specs.Bounds.{post_at};
ghost use Rattle.rank_nest.specs.Candidates.{candidates, variable, is_down, candidate_form, change};

use abs_step::{Outcome, Post, Posts};
use flag_relation::{Form, Reg, Var};
use num_domain::NumDomain;
use rank_form::{direction, rise};

/// How many candidates there are over so many cells.
pub(crate) fn candidates(cells: usize) -> u32
    requires { cells ≤ MOST_CELLS }
    ensures { result ≡ candidates cells }
{
    2 * (3 + cells as u32)
}

/// The variable of a candidate.
pub(crate) fn variable(candidate: u32) -> Var
    requires { candidate < candidates MOST_CELLS }
    ensures { result ≡ variable candidate }
{
    match candidate / 2 {
        0 => Var::Reg(Reg::A),
        1 => Var::Reg(Reg::X),
        2 => Var::Reg(Reg::Y),
        number => Var::Cell((number - 3) as u8),
    }
}

/// Is the candidate's direction down?
pub(crate) fn is_down(candidate: u32) -> bool
    ensures { result ≡ is_down candidate }
{
    candidate % 2 == 0
}

/// The candidate as a form: its variable, or the negative of it.
fn candidate_form(candidate: u32) -> Form
    requires { candidate < candidates MOST_CELLS }
    ensures { result ≡ candidate_form candidate }
{
    direction(variable(candidate), is_down(candidate))
}

/// What is said of a variable; it stays where nothing is.
fn post_at(posts: &Posts, var: Var) -> Post
    ensures { result ≡ post_at posts.now var }
{
    match var {
        Var::Reg(Reg::A) => posts.a,
        Var::Reg(Reg::X) => posts.x,
        Var::Reg(Reg::Y) => posts.y,
        Var::Cell(number) => match posts.cells.get(number as usize) {
            Some(post) => *post,
            None => Post::Same,
        },
    }
}

/// By how much the candidate may rise over an outcome. A variable that stays needs no bounds.
pub(crate) fn change<D: NumDomain>(out: &Outcome<D>, candidate: u32) -> i128
    requires candidate { candidate < candidates MOST_CELLS }
    requires count { length out.now.after.cells ≡ length out.now.pre.cells }
    ensures { result ≡ change D.domain out.now candidate }
{
    match post_at(&out.posts, variable(candidate)) {
        Post::Same => 0,
        Post::Plus(_, _) | Post::Within => {
            let form = candidate_form(candidate);
            rise(&form, &form, out)
        }
    }
}
