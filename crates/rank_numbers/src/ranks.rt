ghost use Rattle.std.specs.Prelude.{◌≡◌, ◌<◌, ◌^◌, ◌≤ℤ◌, pos, Contains};
ghost use Rattle.rank_numbers.specs.Forms.{Forms, FormLaws, in_limits};

use strong_components::Edge;

/// Forms over the facts of keys, as the numbers of a nest use them. `forms` says what each call
/// gives, and `laws` are what holds of that.
pub trait Ranks {
    /// A form.
    type Form: Copy;

    /// Room for what follows from a key's fact.
    type Scratch: Drop;

    /// What each call means.
    ghost forms: { Self → Forms Self.Form };

    /// The scratch has room for these forms.
    ghost has_room: { Self → Self.Scratch → Type 0 };

    /// The form 1.
    fn one(&self) -> Self::Form
        ensures { result ≡ (forms self.now).one };

    /// The weight times (the candidate less its low end) plus a form. None exactly where that
    /// passes a limit of forms. The weight is from 0 to 2^62.
    fn level(&self, weight: i128, candidate: u32, low: i64, form: Self::Form) -> Option<Self::Form>
        requires candidate { candidate < (forms self.now).candidates }
        requires least { pos 0 ≤ℤ weight }
        requires most { weight ≤ℤ pos (2 ^ 62) }
        ensures { result ≡ in_limits (forms self.now)
            ((forms self.now).level weight candidate low form) };

    /// A form plus a number. None exactly where that passes a limit of forms.
    fn shift(&self, form: Self::Form, number: i128) -> Option<Self::Form>
        ensures { result ≡ in_limits (forms self.now) ((forms self.now).shift form number) };

    /// The least value of a candidate over a key's fact: at most 2^33 in size.
    fn lower(&self, candidate: u32, key: u32) -> i64
        requires candidate { candidate < (forms self.now).candidates }
        requires key { key < (forms self.now).keys }
        ensures { result ≡ (forms self.now).lower ((forms self.now).direction candidate) key };

    /// The greatest value of a form over a key's fact.
    fn upper(&self, form: Self::Form, key: u32) -> i128
        requires { key < (forms self.now).keys }
        ensures { result ≡ (forms self.now).upper form key };

    /// The greatest value of a form after an edge.
    fn after(&self, form: Self::Form, edge: Edge, scratch: &mut Self::Scratch) -> i128
        requires edge { Contains (forms self.now).edges edge }
        requires room { has_room self.now scratch.old }
        ensures value { result ≡ (forms self.now).after form edge }
        ensures room { has_room self.now scratch.new };

    /// The laws of the meanings.
    ghost laws: { (ranks : Self) → FormLaws (forms ranks) };
}
