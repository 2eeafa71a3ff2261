//! Laws of the rows. Each function here is a statement about definitions, and does nothing.
ghost use Rattle.std.specs.Prelude.{ℕ, List};
ghost use Rattle.ps_store.specs.Parts.{PartValue};
ghost use Rattle.ps_store.specs.Store.{StoreValue};
ghost use Rattle.ps_flow.specs.Binding.{bind_store};
ghost use Rattle.ps_flow.specs.BindLaw.{BindsExactly};

/// The store that `bind` of a procedure leaves differs from the one before in this alone: in the procedures that are
/// reached from it through elements, each executable name whose value is an operator has become that operator
/// (PostScript Language Reference, third edition, 3.12.1 The bind Operator).
pub fn bind_changes_exactly()
    ensures { (dicts : List ℕ) (s : StoreValue) (p : PartValue) → BindsExactly dicts s p (bind_store dicts s p) }
{}
