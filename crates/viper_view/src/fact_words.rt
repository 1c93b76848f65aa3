//! Facts in words (docs/METHOD.md, "Facts").

use crate::number_words::Numbers;
use flag_relation::{Atom, Fact, Flag, Link, Reg, Right, Var};
use std::fmt;
use val_dom::Val;
use viper_word::{Addr, Kind, signed};

/// The name of a register.
pub fn reg_name(reg: Reg) -> &'static str {
    match reg {
        Reg::A => "A",
        Reg::X => "X",
        Reg::Y => "Y",
    }
}

/// A variable by its name: the register, or the address of the cell.
#[derive(Clone, Copy)]
pub struct Name<'a> {
    pub var: Var,
    pub cells: &'a [Addr],
}

impl<'a> fmt::Display for Name<'a> {
    fn fmt<W: fmt::Write>(&self, f: &mut fmt::Formatter<W>) -> fmt::Result {
        match self.var {
            Var::Reg(reg) => write!(f, "{}", reg_name(reg)),
            Var::Cell(i) => match self.cells.get(i as usize) {
                Some(at) => write!(f, "{:05X}", at.get()),
                None => write!(f, "cell {i}"),
            },
        }
    }
}

/// A comparison in words, as `A < 10`, `A < (00210)` for a cell, or `X unsigned >= 16`.
#[derive(Clone, Copy)]
pub struct AtomWords<'a> {
    pub atom: Atom,
    pub cells: &'a [Addr],
}

/// The words between the two sides of a comparison.
fn kind_words(kind: Kind) -> &'static str {
    match kind {
        Kind::Lt => "<",
        Kind::Ge => ">=",
        Kind::Eq => "=",
        Kind::Ne => "not =",
        Kind::Le => "<=",
        Kind::Gt => ">",
        Kind::Ult => "unsigned <",
        Kind::Uge => "unsigned >=",
    }
}

/// Does the kind compare signed numbers?
fn is_signed(kind: Kind) -> bool {
    match kind {
        Kind::Lt | Kind::Ge | Kind::Eq | Kind::Ne | Kind::Le | Kind::Gt => true,
        Kind::Ult | Kind::Uge => false,
    }
}

impl<'a> fmt::Display for AtomWords<'a> {
    fn fmt<W: fmt::Write>(&self, f: &mut fmt::Formatter<W>) -> fmt::Result {
        let kind = self.atom.kind;
        write!(f, "{} {} ", reg_name(self.atom.left), kind_words(kind))?;
        match self.atom.right {
            Right::Cell(i) => {
                let name = Name {
                    var: Var::Cell(i),
                    cells: self.cells,
                };
                write!(f, "({name})")
            }
            Right::Const(word) if is_signed(kind) => write!(f, "{}", signed(word)),
            Right::Const(word) => write!(f, "{}", word.0),
        }
    }
}

/// What is known of B, in words: `B any`, `B 1`, `B 0`, or `B says` and the comparisons of which
/// one holds exactly where B is 1.
#[derive(Clone, Copy)]
pub struct FlagWords<'a> {
    pub flag: &'a Flag,
    pub cells: &'a [Addr],
}

impl<'a> fmt::Display for FlagWords<'a> {
    fn fmt<W: fmt::Write>(&self, f: &mut fmt::Formatter<W>) -> fmt::Result {
        match self.flag {
            Flag::Any => write!(f, "B any"),
            Flag::One => write!(f, "B 1"),
            Flag::Or(atoms) => {
                if atoms.items().is_empty() {
                    return write!(f, "B 0");
                }
                write!(f, "B says")?;
                for (i, atom) in atoms.items().iter().enumerate() {
                    let words = AtomWords {
                        atom: *atom,
                        cells: self.cells,
                    };
                    write!(f, "{} {words}", if i == 0 { "" } else { " or" })?;
                }
                Ok(())
            }
        }
    }
}

/// A link in words: `A = (00210) + 1` says that A is the cell at 00210 plus 1.
#[derive(Clone, Copy)]
pub struct LinkWords<'a> {
    pub reg: Reg,
    pub link: Link,
    pub cells: &'a [Addr],
}

impl<'a> fmt::Display for LinkWords<'a> {
    fn fmt<W: fmt::Write>(&self, f: &mut fmt::Formatter<W>) -> fmt::Result {
        let name = Name {
            var: Var::Cell(self.link.cell),
            cells: self.cells,
        };
        write!(f, "{} = ({name})", reg_name(self.reg))?;
        if self.link.offset > 0 {
            write!(f, " + {}", self.link.offset)?;
        }
        if self.link.offset < 0 {
            write!(f, " - {}", self.link.offset.unsigned_abs())?;
        }
        Ok(())
    }
}

/// The registers, in the order of facts.
pub const REGS: [Reg; 3] = [Reg::A, Reg::X, Reg::Y];

/// A fact in words, its parts between slashes: each value that isn't `any`, each link, and what B
/// says. `any` where nothing is known.
#[derive(Clone, Copy)]
pub struct FactWords<'a> {
    pub fact: &'a Fact<Val>,
    pub cells: &'a [Addr],
}

/// Writes what stands before a part, if one was written, and notes that one is.
fn separate<W: fmt::Write>(f: &mut fmt::Formatter<W>, begun: &mut bool) -> fmt::Result {
    if *begun {
        write!(f, " / ")?;
    }
    *begun = true;
    Ok(())
}

impl<'a> FactWords<'a> {
    /// Writes the value of a variable, unless it is any.
    fn value<W: fmt::Write>(
        &self,
        f: &mut fmt::Formatter<W>,
        begun: &mut bool,
        var: Var,
        value: &Val,
    ) -> fmt::Result {
        let numbers = Numbers::of(value);
        if numbers.are_any() {
            return Ok(());
        }
        let name = Name {
            var,
            cells: self.cells,
        };
        separate(f, begun)?;
        write!(f, "{name} {numbers}")
    }

    /// Writes the values of the registers and the cells.
    fn values<W: fmt::Write>(&self, f: &mut fmt::Formatter<W>, begun: &mut bool) -> fmt::Result {
        let fact = self.fact;
        for reg in &REGS {
            self.value(f, begun, Var::Reg(*reg), &fact.reg(*reg))?;
        }
        let mut number: u8 = 0;
        for value in fact.cells.iter() {
            self.value(f, begun, Var::Cell(number), value)?;
            number = number.saturating_add(1);
        }
        Ok(())
    }

    /// Writes the links.
    fn links<W: fmt::Write>(&self, f: &mut fmt::Formatter<W>, begun: &mut bool) -> fmt::Result {
        for reg in &REGS {
            if let Some(link) = self.fact.link(*reg) {
                let words = LinkWords {
                    reg: *reg,
                    link,
                    cells: self.cells,
                };
                separate(f, begun)?;
                write!(f, "{words}")?;
            }
        }
        Ok(())
    }

    /// Writes what B says, unless that is nothing.
    fn flag<W: fmt::Write>(&self, f: &mut fmt::Formatter<W>, begun: &mut bool) -> fmt::Result {
        let flag = self.fact.flag();
        if matches!(&flag, Flag::Any) {
            return Ok(());
        }
        let words = FlagWords {
            flag: &flag,
            cells: self.cells,
        };
        separate(f, begun)?;
        write!(f, "{words}")
    }
}

impl<'a> fmt::Display for FactWords<'a> {
    fn fmt<W: fmt::Write>(&self, f: &mut fmt::Formatter<W>) -> fmt::Result {
        let mut begun = false;
        self.values(f, &mut begun)?;
        self.links(f, &mut begun)?;
        self.flag(f, &mut begun)?;
        if begun { Ok(()) } else { write!(f, "any") }
    }
}
