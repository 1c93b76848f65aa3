//! Forms in words (docs/METHOD.md, "Forms").

use crate::fact_words::Name;
use flag_relation::{Form, Var};
use std::fmt;
use viper_word::Addr;

/// A form in words, as `3A - X + 1`; a cell stands in brackets, as `5(00100) + 7`.
#[derive(Clone, Copy)]
pub struct FormWords<'a> {
    pub form: &'a Form,
    pub cells: &'a [Addr],
}

/// What stands before a term or a constant with this sign.
fn sign(begun: bool, negative: bool) -> &'static str {
    match (begun, negative) {
        (false, false) => "",
        (false, true) => "-",
        (true, false) => " + ",
        (true, true) => " - ",
    }
}

impl<'a> FormWords<'a> {
    /// Writes a term.
    fn term<W: fmt::Write>(
        &self,
        f: &mut fmt::Formatter<W>,
        begun: bool,
        var: Var,
        coefficient: i128,
    ) -> fmt::Result {
        let size = coefficient.unsigned_abs();
        write!(f, "{}", sign(begun, coefficient < 0))?;
        if size != 1 {
            write!(f, "{size}")?;
        }
        let name = Name {
            var,
            cells: self.cells,
        };
        match var {
            Var::Reg(_) => write!(f, "{name}"),
            Var::Cell(_) => write!(f, "({name})"),
        }
    }
}

impl<'a> fmt::Display for FormWords<'a> {
    fn fmt<W: fmt::Write>(&self, f: &mut fmt::Formatter<W>) -> fmt::Result {
        let mut begun = false;
        for (var, coefficient) in self.form.terms() {
            self.term(f, begun, *var, *coefficient)?;
            begun = true;
        }
        let constant = self.form.constant();
        if begun && constant == 0 {
            return Ok(());
        }
        write!(
            f,
            "{}{}",
            sign(begun, constant < 0),
            constant.unsigned_abs()
        )
    }
}
