//! What an instruction says of B, of a link, and of where a value comes from.

ghost use Rattle.std.specs.Prelude.{◌≡◌, ◌<◌, ◌≤◌, length, neg_ℤ, ◌≤ℤ◌, pos, ◌^◌, cond, nat_lt, ◌++◌, ◌∷◌, [], IfSome};
ghost use Rattle.flag_relation.specs.declared.link.TheConstants.{MOST_OFFSET};
ghost use Rattle.flag_relation.specs.declared.atoms.TheConstants.{MOST_ATOMS};
ghost use Rattle.flag_relation.specs.declared.flag.Flag.TheVariants.{Any, Or};
ghost use Rattle.flag_relation.specs.Limits.{IsLinkOf, IsRightOf, IsFlagOf};
ghost use Rattle.flag_relation.specs.declared.fact.TheConstants.{MOST_CELLS};
ghost use Rattle.abs_step.specs.Addresses.{find_cell};
ghost use Rattle.abs_step.specs.Origins.{right_of, atom_of, compared_flag, sets_bit, link_if_small, moved_link, cell_post, origin, link_of};
ghost use Rattle.abs_step.specs.Limits.{IsPostOf, IsVarOf, IsSmall};
ghost use Rattle.abs_step.specs.declared.outcome.Post.TheVariants.{Plus};

use crate::Post;
use flag_relation::{Atom, Atoms, Fact, Flag, Link, MOST_ATOMS, MOST_OFFSET, Reg, Right, Var};
use memory_plan::Plan;
use num_domain::NumDomain;
use viper_decode::{Function, Operand, Place, Shift, Source, Work};
use viper_word::{Addr, Kind, Profile, Word};

/// The number of the cell at the address, from 0.
pub(crate) fn find_cell(cells: &[Addr], at: Addr) -> Option<u8>
    requires { length cells.now ≤ MOST_CELLS }
    ensures found { result ≡ find_cell cells.now at }
    ensures there { IfSome result (λ i. i < length cells.now) }
{
    match cells {
        [] => None,
        [first, rest @ ..] => {
            if *first == at {
                return Some(0);
            }
            match find_cell(rest, at) {
                None => None,
                Some(i) => Some(i + 1),
            }
        }
    }
}

/// The right side of an atom that the operand is, where it can be written.
fn right_of(plan: &Plan, cells: &[Addr], operand: &Operand) -> Option<Right>
    requires { length cells.now ≤ MOST_CELLS }
    ensures right { result ≡ right_of plan.now cells.now operand.now }
    ensures there { IfSome result (IsRightOf (length cells.now)) }
{
    match operand {
        Operand::Literal(n) => Some(Right::Const(Word(n.get()))),
        Operand::Memory(Place::At(a)) => match find_cell(cells, *a) {
            Some(i) => Some(Right::Cell(i)),
            None => match plan.code_word(*a) {
                Some(word) => Some(Right::Const(word)),
                None => None,
            },
        },
        Operand::Memory(Place::Index(_, _)) => None,
        Operand::Peripheral(_) => None,
    }
}

/// The atom of a comparison, where it can be written.
fn atom_of(
    plan: &Plan,
    cells: &[Addr],
    kind: Kind,
    source: Source,
    operand: &Operand,
) -> Option<Atom>
    requires { length cells.now ≤ MOST_CELLS }
    ensures atom { result ≡ atom_of plan.now cells.now kind source operand.now }
    ensures there { IfSome result (λ a. IsRightOf (length cells.now) a.right) }
{
    match source {
        Source::AfterP => None,
        Source::Of(left) => match right_of(plan, cells, operand) {
            None => None,
            Some(right) => Some(Atom { kind, left, right }),
        },
    }
}

/// Does the work change B?
#[tactic(auto, unfolding(crate::specs::Origins::sets_bit))]
pub(crate) fn sets_bit(profile: Profile, work: &Work) -> bool
    ensures { result ≡ sets_bit profile work.now }
{
    match work {
        Work::Apply(function, _, _) => match function {
            Function::Addb | Function::Subb => true,
            Function::Neg
            | Function::Call
            | Function::Inp
            | Function::Read
            | Function::Adds
            | Function::Subs
            | Function::Xor
            | Function::And
            | Function::Nor
            | Function::Andn => false,
        },
        Work::Move(shift, _) => match shift {
            Shift::RightThroughB | Shift::LeftThroughB => true,
            Shift::Left => false,
            Shift::Right => profile == Profile::Two,
        },
    }
}

/// The link to the cell, where the offset is within its limit.
#[tactic(auto, unfolding(crate::specs::Origins::link_if_small))]
fn link_if_small(cell: u8, offset: i64) -> Option<Link>
    ensures { result ≡ link_if_small cell offset }
{
    if -MOST_OFFSET <= offset && offset <= MOST_OFFSET {
        Some(Link { cell, offset })
    } else {
        None
    }
}

/// What a read of the address says: where it is a cell, that cell's value.
fn cell_post(cells: &[Addr], at: Addr) -> Post
    requires { length cells.now ≤ MOST_CELLS }
    ensures post { result ≡ cell_post (find_cell cells.now at) }
    ensures there { IsPostOf (length cells.now) result }
{
    match find_cell(cells, at) {
        None => Post::Within,
        Some(i) => Post::Plus(Var::Cell(i), 0),
    }
}

/// Where a result comes from: a cell, or a register plus a number.
#[tactic(auto, unfolding(crate::specs::Origins::origin))]
pub(crate) fn origin(cells: &[Addr], work: &Work) -> Post
    requires { length cells.now ≤ MOST_CELLS }
    ensures post { result ≡ origin cells.now work.now }
    ensures there { IsPostOf (length cells.now) result }
{
    match work {
        Work::Apply(Function::Read, _, Operand::Memory(Place::At(a))) => cell_post(cells, *a),
        Work::Apply(Function::Adds, Source::Of(l), Operand::Literal(n)) => {
            Post::Plus(Var::Reg(*l), i64::from(n.get()))
        }
        Work::Apply(Function::Subs, Source::Of(l), Operand::Literal(n)) => {
            Post::Plus(Var::Reg(*l), -i64::from(n.get()))
        }
        _ => Post::Within,
    }
}

/// The link moved by a number, where there is one and its offset stays within its limit.
fn moved_link(by: i64, link: Option<Link>) -> Option<Link>
    requires low { neg_ℤ (pos (2 ^ 20)) ≤ℤ by }
    requires high { by ≤ℤ pos (2 ^ 20) }
    requires low_link { IfSome link (λ l. neg_ℤ MOST_OFFSET ≤ℤ l.offset) }
    requires high_link { IfSome link (λ l. l.offset ≤ℤ MOST_OFFSET) }
    ensures { result ≡ moved_link by link }
{
    match link {
        None => None,
        Some(l) => link_if_small(l.cell, l.offset + by),
    }
}

/// The link of a result that is the variable plus a number.
#[tactic(auto, unfolding(crate::specs::Origins::link_of))]
fn link_to<D: NumDomain>(fact: &Fact<D>, var: Var, by: i64) -> Option<Link>
    requires there { IsVarOf (length fact.now.cells) var }
    requires small { IsSmall by }
    ensures link { result ≡ link_of fact.now.links (Plus var by) }
    ensures limits { IfSome result (IsLinkOf (length fact.now.cells)) }
{
    match var {
        Var::Cell(i) => link_if_small(i, by),
        Var::Reg(l) => moved_link(by, fact.link(l)),
    }
}

/// The link of a result that comes from there.
#[tactic(auto, unfolding(crate::specs::Origins::link_of))]
pub(crate) fn link_of<D: NumDomain>(fact: &Fact<D>, post: Post) -> Option<Link>
    requires { IsPostOf (length fact.now.cells) post }
    ensures link { result ≡ link_of fact.now.links post }
    ensures limits { IfSome result (IsLinkOf (length fact.now.cells)) }
{
    match post {
        Post::Same | Post::Within => None,
        Post::Plus(var, by) => link_to(fact, var, by),
    }
}

/// The flag that says these atoms.
fn flag_of(atoms: &[Atom]) -> Flag
    requires { length atoms.now ≤ MOST_ATOMS }
    ensures { result ≡ Or atoms.now }
{
    match Atoms::new(atoms) {
        Some(list) => Flag::Or(list),
        None => unreachable!(),
    }
}

/// The flag that says one more atom than before, as far as there is room for it.
fn with_atom(atoms: &[Atom], atom: Atom) -> Flag
    ensures { result ≡ cond (nat_lt (length atoms.now) MOST_ATOMS)
        (Or (atoms.now ++ (atom ∷ []))) Any }
{
    match atoms {
        [] => flag_of(&[atom]),
        [first] => flag_of(&[*first, atom]),
        [first, second] => flag_of(&[*first, *second, atom]),
        [first, second, third] => flag_of(&[*first, *second, *third, atom]),
        _ => Flag::Any,
    }
}

/// What is known of B after a comparison of that atom, which may join the old B.
#[tactic(auto, unfolding(crate::specs::Origins::compared_flag))]
fn compared(joins: bool, atom: Option<Atom>, old: Flag) -> Flag
    ensures { result ≡ compared_flag joins atom old }
{
    if !joins {
        return match atom {
            None => Flag::Any,
            Some(atom) => flag_of(&[atom]),
        };
    }
    match old {
        Flag::Any => Flag::Any,
        Flag::One => Flag::One,
        Flag::Or(atoms) => match atom {
            None => Flag::Any,
            Some(atom) => with_atom(atoms.items(), atom),
        },
    }
}

/// What is known of B after a comparison. docs/METHOD.md, "Outcomes".
pub(crate) fn flag_after<D: NumDomain>(
    plan: &Plan,
    cells: &[Addr],
    fact: &Fact<D>,
    joins: bool,
    kind: Kind,
    source: Source,
    operand: &Operand,
) -> Flag
    requires { length cells.now ≡ length fact.now.cells }
    ensures flag { result ≡ compared_flag joins
        (atom_of plan.now cells.now kind source operand.now) fact.now.flag }
    ensures limits { IsFlagOf (length fact.now.cells) result }
{
    let _count = fact.count();
    let atom = atom_of(plan, cells, kind, source, operand);
    compared(joins, atom, fact.flag())
}
