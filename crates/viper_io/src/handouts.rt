ghost use Rattle.std.specs.Prelude.{◌≡◌, ◌++◌, ◌∷◌, [], List, Some, None};
ghost use base.Fml.{ftrue};
ghost use Rattle.viper_io.specs.Causes.{Handed};
ghost use Rattle.viper_io.specs.Handouts.{handed_code};

use std::marker::Model;

/// What one fetch handed out, or that the content was too long.
#[derive(Clone, Copy, Drop)]
struct Handout<'a> {
    name: &'a str,
    limit: u64,
    bytes: Option<&'a [u8]>,
}

/// What a store handed out so far. It stands in proofs alone and takes no memory.
#[derive(Drop)]
pub(crate) struct Handouts {
    ghost list: { List Handed } by { handed_code },
}

impl Model for Handouts {
    ghost also_owns = { λ _. ftrue };
}

impl Handouts {
    ghost use Rattle.viper_io.specs.Noted.{handed_of};

    /// Nothing was handed out.
    pub(crate) fn new() -> Handouts
        ensures { result.list ≡ [] }
    {
        Handouts {}
    }

    /// Notes the bytes of a name. It does nothing when it runs.
    pub(crate) fn gave(&mut self, name: &str, limit: u64, bytes: &[u8])
        ensures { self.new.list ≡ self.old.list
            ++ record { name = name.now; limit = limit; bytes = Some bytes.now } ∷ [] }
    {
        self.note(&Handout {
            name,
            limit,
            bytes: Some(bytes),
        });
    }

    /// Notes that the content of a name was too long. It does nothing when it runs.
    pub(crate) fn found_long(&mut self, name: &str, limit: u64)
        ensures { self.new.list ≡ self.old.list
            ++ record { name = name.now; limit = limit; bytes = None } ∷ [] }
    {
        self.note(&Handout {
            name,
            limit,
            bytes: None,
        });
    }

    /// Puts one more at the end of the list.
    fn note(&mut self, _handout: &Handout<'_>)
        ensures { self.new.list ≡ self.old.list ++ handed_of _handout.now ∷ [] }
    {}
}
