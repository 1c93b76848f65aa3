ghost use Rattle.std.specs.Prelude.{ℕ, List};
ghost use Rattle.strong_components.specs.declared.edge.Edge.{Edge};
ghost use Rattle.strong_components.specs.Components.{HasOne};

/// The components of some keys along some edges are one list of lists.
pub fn components_are_one()
    ensures { (edges : List Edge) (keys : List ℕ) → HasOne edges keys }
{}
