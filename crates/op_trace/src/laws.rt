//! Laws of the definitions, each as the contract of a function that does nothing.

ghost use Rattle.std.specs.Prelude.{◌≡◌, ◌≤◌, List, []};
ghost use Rattle.op_logic.specs.Term.{Term};
ghost use Rattle.op_logic.specs.Bind.{Bindings, apply};
ghost use Rattle.op_logic.specs.Laws.{Acyclic};
ghost use Rattle.op_trace.specs.declared.barrier.Barrier.{Barrier};
ghost use Rattle.op_trace.specs.Database.{Text};
ghost use Rattle.op_trace.specs.World.{World, Item, Has};
ghost use Rattle.op_trace.specs.Act.{Setup};
ghost use Rattle.op_trace.specs.Visit.{CutTo, visit, visit_with};
ghost use Rattle.op_trace.specs.Body.{divided, division_under};

/// The walk is what its equations say: how many steps are left decides nothing but where it is spent.
pub fn visit_equations()
    ensures { (s : Setup) (I : List Item) (σ : Bindings Text) (w : World) → w.steps ≤ s.budget
        → visit s I σ w ≡ visit_with (visit s) s I σ w }
{}

/// A walk cuts to no barrier but those of its items.
pub fn visit_cuts()
    ensures { (s : Setup) (I : List Item) (σ : Bindings Text) (w : World) (m : Barrier) → (visit s I σ w).verdict ≡ CutTo m → Has m I }
{}

/// The body of a term under bindings without cycles, with the bindings applied to its parts, is the body of the term with the bindings
/// applied, and takes as many steps: following changes no body.
pub fn followed_bodies()
    ensures { (σ : Bindings Text) (t : Term Text) → Acyclic σ → divided [] (apply σ t) ≡ division_under σ (divided σ t) }
{}
