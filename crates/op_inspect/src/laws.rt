//! Laws of the acts, each as the contract of a function that does nothing.

ghost use Rattle.std.specs.Prelude.{◌≡◌, ◌<◌, ℕ};
ghost use Rattle.op_logic.specs.Term.{Term};
ghost use Rattle.op_logic.specs.Bind.{Bindings};
ghost use Rattle.op_trace.specs.Database.{Text};
ghost use Rattle.op_trace.specs.World.{World};
ghost use Rattle.op_inspect.specs.ActRules.{KeepsActRules, OnlyGivesOut};
ghost use Rattle.op_inspect.specs.Inspected.{act_on_terms};

/// The acts of the builtins on terms keep the rules of acts.
pub fn acts_keep_rules()
    ensures { KeepsActRules (λ left t g σ w. act_on_terms left g σ w) }
{}

/// Of the world they change only how many variables were given out, and one that is interrupted for want of steps changes nothing.
pub fn acts_only_give_out()
    ensures after { (left : ℕ) (g : Term Text) (σ : Bindings Text) (w : World) → OnlyGivesOut w (act_on_terms left g σ w).after }
    ensures interrupted { (left : ℕ) (g : Term Text) (σ : Bindings Text) (w : World)
        → OnlyGivesOut w (act_on_terms left g σ w).interrupted }
    ensures still { (left : ℕ) (g : Term Text) (σ : Bindings Text) (w : World)
        → left < (act_on_terms left g σ w).cost → (act_on_terms left g σ w).interrupted ≡ w }
{}
