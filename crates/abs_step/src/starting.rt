//! What is known where a plan starts.
ghost use Rattle.std.specs.Prelude.{◌≡◌, length, map};
ghost use Rattle.memory_plan.specs.WellFormed.{IsWellFormed};
ghost use Rattle.abs_step.specs.States.{MeetsStarts};
ghost use Rattle.abs_step.specs.Starts.{start_flag, range_value, cell_value, cell_at, start_fact};

use flag_relation::{Atoms, Fact, Flag, Reg};
use memory_plan::{Plan, Range, Start};
use num_domain::NumDomain;
use viper_word::{Addr, signed};

/// Makes `into` the fact of a start line: the values of the line's ranges, for each cell the
/// image's word, or else its region's range, and what the line says of B; no link is known. The
/// cells are as many as `into` has. Each state in which a plan that was read may start at that line
/// meets the fact. Takes no memory. docs/METHOD.md, "The abstract step".
pub fn start_fact<D: NumDomain>(plan: &Plan, cells: &[Addr], start: &Start, into: &mut Fact<D>)
    requires cells { length cells.now ≡ length into.old.cells }
    ensures value { into.new ≡ start_fact D.domain plan.now cells.now start.now }
    ensures met { IsWellFormed plan.now
        → MeetsStarts D.domain plan.now cells.now start.now into.new }
    ensures count { length into.new.cells ≡ length into.old.cells }
{
    set_start(plan, cells, start, into);
}

/// Sets each part of the fact.
#[tactic(auto, unfolding(crate::specs::Starts::start_fact))]
fn set_start<D: NumDomain>(plan: &Plan, cells: &[Addr], start: &Start, into: &mut Fact<D>)
    requires { length cells.now ≡ length into.old.cells }
    ensures value { into.new ≡ start_fact D.domain plan.now cells.now start.now }
    ensures count { length into.new.cells ≡ length into.old.cells }
{
    into.set_reg(Reg::A, value_of(&start.a));
    into.set_reg(Reg::X, value_of(&start.x));
    into.set_reg(Reg::Y, value_of(&start.y));
    into.set_link(Reg::A, None);
    into.set_link(Reg::X, None);
    into.set_link(Reg::Y, None);
    into.set_flag(flag_of(start.b));
    set_cells(plan, cells, into);
}

/// What a start line says of B.
fn flag_of(b: Option<bool>) -> Flag
    ensures { result ≡ start_flag b }
{
    match b {
        None => Flag::Any,
        Some(true) => Flag::One,
        Some(false) => match Atoms::new(&[]) {
            Some(none) => Flag::Or(none),
            None => unreachable!(),
        },
    }
}

/// The numbers of a range as a value.
pub(crate) fn value_of<D: NumDomain>(range: &Range) -> D
    ensures { result ≡ range_value D.domain range.now }
{
    D::span(range.lo, range.hi, range.modulus)
}

/// What is known of the word at a cell's address.
fn cell_value<D: NumDomain>(plan: &Plan, at: Addr) -> D
    ensures { result ≡ cell_at D.domain plan.now at }
{
    match plan.image_word(at) {
        Some(word) => D::constant(signed(word)),
        None => match plan.data_range(at) {
            Some(range) => value_of(&range),
            None => D::top(),
        },
    }
}

/// Sets each cell of the fact to what is known of the word at its address.
fn set_cells<D: NumDomain>(plan: &Plan, cells: &[Addr], into: &mut Fact<D>)
    requires { length cells.now ≡ length into.old.cells }
    ensures { into.new ≡ record into.old { cells = map (cell_at D.domain plan.now) cells.now } }
{
    let count = into.count();
    let mut at = 0;
    while at < count {
        into.set_cell(at as u8, cell_value(plan, cells[at]));
        at += 1;
    }
}
