//! The rank of a node as it is kept: most are numbers.
ghost use Rattle.std.specs.Prelude.{◌≡◌, IfOk, []};

use flag_relation::Form;
use std::alloc::{AllocError, Global};
use std::marker::Model;

/// A rank: a form without terms by its constant, any other in a place of its own, beside which the
/// constant is 0. Contracts see the form.
#[derive(Drop)]
pub(crate) struct Rank {
    constant: i128,
    form: Option<Box<Form>>,
}

impl Model for Rank {
    ghost use Rattle.flag_relation.specs.Forms.{FormOf};
    ghost use Rattle.cert_format.specs.RankPlaces.{rank_view, IsRankKept};

    ghost Value = { FormOf };

    ghost view = { λ r. rank_view r.constant r.form };

    ghost invariant = { λ r. IsRankKept r.constant };
}

impl Rank {
    /// The rank of that form.
    #[tactic(auto, unfolding(flag_relation::specs::Forms::are_terms))]
    pub(crate) fn new(alloc: Global, form: Form) -> Result<Rank, AllocError>
        ensures { IfOk result (λ r. r ≡ form) }
    {
        if form.terms().is_empty() {
            return Ok(Rank {
                constant: form.constant(),
                form: None,
            });
        }
        Ok(Rank {
            constant: 0,
            form: Some(Box::new(alloc, form)?),
        })
    }

    /// The form.
    pub(crate) fn form(&self) -> Form
        ensures { result ≡ self.now }
    {
        match &self.form {
            Some(form) => **form,
            None => match Form::new(self.constant, &[]) {
                Some(form) => form,
                None => unreachable!(),
            },
        }
    }
}
