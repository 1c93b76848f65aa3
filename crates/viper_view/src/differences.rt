//! Where a fact doesn't include another.

use crate::fact_words::{FlagWords, LinkWords, Name, REGS};
use crate::number_words::Numbers;
use flag_relation::{Fact, Flag, Link, Reg, Var};
use num_domain::NumDomain;
use val_dom::Val;
use viper_word::{Addr, Memory};

/// Two facts over the same cells, and the names that texts have for them: what has the first, and
/// what gives the second.
#[derive(Clone, Copy)]
pub struct Both<'a> {
    pub cells: &'a [Addr],
    pub fact: &'a Fact<Val>,
    pub other: &'a Fact<Val>,
    pub has: &'a str,
    pub gives: &'a str,
}

/// Does the link say nothing, or the same as the other?
fn link_includes(link: Option<Link>, other: Option<Link>) -> bool {
    link.is_none() || link == other
}

/// Does the flag say nothing, or the same as the other?
fn flag_includes(flag: &Flag, other: &Flag) -> bool {
    match (flag, other) {
        (Flag::Any, _) | (Flag::One, Flag::One) => true,
        (Flag::Or(one), Flag::Or(two)) => one.items() == two.items(),
        (Flag::One, Flag::Any | Flag::Or(_)) | (Flag::Or(_), Flag::Any | Flag::One) => false,
    }
}

impl<'a> Both<'a> {
    /// Appends the difference of two values, if the first doesn't include the second.
    fn push_value(
        &self,
        text: &mut String,
        var: Var,
        value: &Val,
        other: &Val,
    ) -> Result<(), Memory> {
        if value.includes(other) {
            return Ok(());
        }
        let name = Name {
            var,
            cells: self.cells,
        };
        let (has, gives) = (self.has, self.gives);
        let (one, two) = (Numbers::of(value), Numbers::of(other));
        writeln!(text, "  {has} has {name} {one}, {gives} gives {name} {two}")?;
        Ok(())
    }

    /// Appends the difference of the links of a register.
    fn push_link(&self, text: &mut String, reg: Reg) -> Result<(), Memory> {
        let link = self.fact.link(reg);
        let other = self.other.link(reg);
        let Some(link) = link.filter(|_| !link_includes(link, other)) else {
            return Ok(());
        };
        let cells = self.cells;
        let words = LinkWords { reg, link, cells };
        write!(text, "  {} has {words}, {} gives ", self.has, self.gives)?;
        match other {
            None => writeln!(text, "no link")?,
            Some(link) => writeln!(text, "{}", LinkWords { reg, link, cells })?,
        }
        Ok(())
    }

    /// Appends the difference of what both say of B.
    fn push_flag(&self, text: &mut String) -> Result<(), Memory> {
        let flag = self.fact.flag();
        let other = self.other.flag();
        if flag_includes(&flag, &other) {
            return Ok(());
        }
        let cells = self.cells;
        let one = FlagWords { flag: &flag, cells };
        let two = FlagWords {
            flag: &other,
            cells,
        };
        writeln!(text, "  {} has {one}, {} gives {two}", self.has, self.gives)?;
        Ok(())
    }

    /// Appends a line for each part of the first that doesn't include that of the second.
    pub fn push_differences(&self, text: &mut String) -> Result<(), Memory> {
        let fact = self.fact;
        let given = self.other;
        for reg in &REGS {
            let value = fact.reg(*reg);
            self.push_value(text, Var::Reg(*reg), &value, &given.reg(*reg))?;
        }
        let mut number: u8 = 0;
        for (value, other) in fact.cells.iter().zip(given.cells.iter()) {
            self.push_value(text, Var::Cell(number), value, other)?;
            number = number.saturating_add(1);
        }
        for reg in &REGS {
            self.push_link(text, *reg)?;
        }
        self.push_flag(text)
    }
}
