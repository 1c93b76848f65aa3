ghost use Rattle.std.specs.Prelude.{◌≡◌, replicate, IfOk};

use crate::{Flag, Link, Reg};
use num_domain::NumDomain;
use std::alloc::{AllocError, Global};
use std::marker::Model;
use viper_word::Memory;

/// How many tracked cells a fact may have.
pub const MOST_CELLS: u8 = 32;

/// What is known of the registers, the tracked cells of memory and B: a value for each register and
/// each cell, a link for A, X and Y in this order where one is known, and what B says. There are at
/// most 32 cells; links and comparisons name cells that are there, by number, and an offset is at
/// most 2^32 - 1 in size. docs/METHOD.md, "Facts".
#[derive(Drop)]
pub struct Fact<D> {
    pub a: D,
    pub x: D,
    pub y: D,
    pub cells: Vec<D>,
    pub links: [Option<Link>; 3],
    pub flag: Flag,
}

impl<D> Model for Fact<D> {
    ghost use Rattle.std.specs.Prelude.{length};
    ghost use Rattle.flag_relation.specs.Facts.{FactOf, links_of};
    ghost use Rattle.flag_relation.specs.Limits.{IsFactOf};

    ghost Value = { FactOf D };

    ghost view = { λ f. record {
      a = f.a;
      x = f.x;
      y = f.y;
      cells = f.cells.items;
      links = links_of f.links;
      flag = f.flag;
    } };

    ghost invariant = { λ f. IsFactOf (length f.cells.items) (links_of f.links) f.flag };
}

impl<D: NumDomain> Fact<D> {
    ghost use Rattle.std.specs.Prelude.{◌≡◌, ◌<◌, ◌≤◌, length, IfOk, IfSome};
    ghost use Rattle.flag_relation.specs.Facts.{values, with_values, with_link, with_flag, unknown};
    ghost use Rattle.flag_relation.specs.Values.{at_reg, reg, cell, with_reg, with_cell};
    ghost use Rattle.flag_relation.specs.declared.fact.TheConstants.{MOST_CELLS};
    ghost use Rattle.flag_relation.specs.Laws.{FactLaws};
    ghost use Rattle.flag_relation.specs.Limits.{IsFactOf, IsLinkOf, IsFlagOf};

    /// What holds of facts over any domain: inclusion is an order in which joins are the least
    /// upper bounds and heights fall; settling, refining, assuming and rounding lose no state that
    /// meets the fact, and are monotone.
    pub fn laws()
        ensures { FactLaws D.domain }
    {}

    /// The fact over `cells` cells, at most 32, that says nothing: each value is `top`, there is no
    /// link, and B may be either. `Memory` for want of memory.
    pub fn new(alloc: Global, cells: u8) -> Result<Fact<D>, Memory>
        requires { cells ≤ MOST_CELLS }
        ensures { IfOk result (λ f. f ≡ unknown D.domain cells) }
    {
        let top = D::top();
        match repeated(alloc, top, cells as usize) {
            Ok(cells) => Ok(Fact {
                a: top,
                x: top,
                y: top,
                cells,
                links: [None; 3],
                flag: Flag::Any,
            }),
            Err(_) => Err(Memory),
        }
    }

    /// How many tracked cells there are, at most 32. Its clause `limits` is what every fact keeps.
    pub fn count(&self) -> usize
        ensures count { result ≡ length self.now.cells }
        ensures limits { IsFactOf (length self.now.cells) self.now.links self.now.flag }
    {
        self.cells.len()
    }

    /// The value of a register.
    pub fn reg(&self, r: Reg) -> D
        ensures { result ≡ reg (values self.now) r }
    {
        match r {
            Reg::A => self.a,
            Reg::X => self.x,
            Reg::Y => self.y,
        }
    }

    /// Sets the value of a register.
    pub fn set_reg(&mut self, r: Reg, value: D)
        ensures { self.new ≡ with_values self.old (with_reg (values self.old) r value) }
    {
        match r {
            Reg::A => self.a = value,
            Reg::X => self.x = value,
            Reg::Y => self.y = value,
        }
    }

    /// The value of a cell, by its number.
    pub fn cell(&self, i: u8) -> D
        requires { i < length self.now.cells }
        ensures { result ≡ cell D.domain.top (values self.now) i }
    {
        self.cells[i as usize]
    }

    /// Sets the value of a cell, by its number.
    pub fn set_cell(&mut self, i: u8, value: D)
        requires { i < length self.old.cells }
        ensures { self.new ≡ with_values self.old (with_cell (values self.old) i value) }
    {
        self.cells[i as usize] = value;
    }

    /// The link of a register, if one is known.
    pub fn link(&self, r: Reg) -> Option<Link>
        ensures link { result ≡ at_reg self.now.links r }
        ensures limits { IfSome result (IsLinkOf (length self.now.cells)) }
    {
        match r {
            Reg::A => self.links[0],
            Reg::X => self.links[1],
            Reg::Y => self.links[2],
        }
    }

    /// What is known of B.
    pub fn flag(&self) -> Flag
        ensures flag { result ≡ self.now.flag }
        ensures limits { IsFlagOf (length self.now.cells) result }
    {
        self.flag
    }

    /// Sets or drops the link of a register. It names a cell that is there, with an offset in its
    /// limit.
    pub fn set_link(&mut self, r: Reg, link: Option<Link>)
        requires { IfSome link (IsLinkOf (length self.old.cells)) }
        ensures { self.new ≡ with_link self.old r link }
    {
        match r {
            Reg::A => self.links[0] = link,
            Reg::X => self.links[1] = link,
            Reg::Y => self.links[2] = link,
        }
    }

    /// Sets what is known of B. Its comparisons name cells that are there.
    pub fn set_flag(&mut self, flag: Flag)
        requires { IsFlagOf (length self.old.cells) flag }
        ensures { self.new ≡ with_flag self.old flag }
    {
        self.flag = flag;
    }

    /// Takes over what the other fact says. It has as many cells. Takes no memory.
    pub fn copy_from(&mut self, other: &Fact<D>)
        requires { length self.old.cells ≡ length other.now.cells }
        ensures { self.new ≡ other.now }
    {
        self.copy_values(other);
        self.links = other.links;
        self.flag = other.flag;
    }

    /// Takes over the values of the other fact.
    pub(crate) fn copy_values(&mut self, other: &Fact<D>)
        requires { length self.old.cells ≡ length other.now.cells }
        ensures { self.new ≡ with_values self.old (values other.now) }
    {
        self.a = other.a;
        self.x = other.x;
        self.y = other.y;
        self.cells
            .as_mut_slice()
            .copy_from_slice(other.cells.as_slice());
    }
}

/// The value, `count` times. An error for want of memory.
fn repeated<D: Copy>(alloc: Global, value: D, count: usize) -> Result<Vec<D>, AllocError>
    ensures { IfOk result (λ v. v.items ≡ replicate count value) }
{
    let mut values = Vec::new(alloc);
    for _ in 0..count {
        values.push(value)?;
    }
    Ok(values)
}
