//! Laws of the definitions, each as the contract of a function that does nothing, of terms over numbers of names.

ghost use Rattle.std.specs.Prelude.{◌≡◌, ◌↔◌, ℕ, nat_eq, false, List, ◌∷◌, ◌++◌, Some, None, bytes_eq, length, take};
ghost use Rattle.op_logic.specs.Term.{Term, var, occurs};
ghost use Rattle.op_logic.specs.Bind.{Bindings, apply, lookup, follow, Pairs, reduction, Solved, solve, within, unify};
ghost use Rattle.op_logic.specs.Names.{name_at, named, IsTable, HasNames};
ghost use Rattle.op_logic.specs.Laws.{Acyclic, AreEqual, Respects, Unifies, pay, rename_bindings, rename_pairs, rename_solved};

/// Bindings that come later keep two terms equal.
pub fn later_keeps_equal()
    ensures { (ρ σ : Bindings ℕ) (t u : Term ℕ) → apply σ t ≡ apply σ u → apply (ρ ++ σ) t ≡ apply (ρ ++ σ) u }
{}

/// A bound variable has its term's value.
pub fn value_of_bound()
    ensures { (σ : Bindings ℕ) (v : ℕ) (s : Term ℕ) → Acyclic σ → lookup σ v ≡ Some s → apply σ (var v) ≡ apply σ s }
{}

/// No bound variable is left in a value.
pub fn no_bound_is_left()
    ensures { (σ : Bindings ℕ) (v : ℕ) (s t : Term ℕ) → Acyclic σ → lookup σ v ≡ Some s → occurs v (apply σ t) ≡ false }
{}

/// Following a term changes no value.
pub fn followed_has_value()
    ensures { (σ : Bindings ℕ) (t : Term ℕ) → Acyclic σ → apply σ (follow σ t) ≡ apply σ t }
{}

/// What unification finds makes both sides of each pair equal, and only adds bindings.
pub fn found_is_unifier()
    ensures { (k : ℕ) (σ υ : Bindings ℕ) (ps : Pairs ℕ) (c : ℕ) → Acyclic σ → solve nat_eq k σ ps ≡ Some (Some υ, c)
        → (ρ : Bindings ℕ) × ((υ ≡ ρ ++ σ) × Acyclic υ × AreEqual υ ps) }
{}

/// What unification finds is most general: whatever makes the pairs equal respects it.
pub fn found_is_most_general()
    ensures { (k : ℕ) (σ υ : Bindings ℕ) (ps : Pairs ℕ) (c : ℕ) → Acyclic σ → solve nat_eq k σ ps ≡ Some (Some υ, c)
        → (θ : ℕ → Term ℕ) → Respects θ σ → Unifies θ ps → Respects θ υ }
{}

/// Where unification finds none, nothing makes the pairs equal.
pub fn none_is_none()
    ensures { (k : ℕ) (σ : Bindings ℕ) (ps : Pairs ℕ) (c : ℕ) → Acyclic σ → solve nat_eq k σ ps ≡ Some (None, c)
        → (θ : ℕ → Term ℕ) → Respects θ σ → Unifies θ ps → ⊥ }
{}

/// Unification ends, whatever the pairs: some number of reductions is enough.
pub fn solving_ends()
    ensures { (σ : Bindings ℕ) (ps : Pairs ℕ) → Acyclic σ → (k : ℕ) × ((r : Solved ℕ) × (solve nat_eq k σ ps ≡ Some r)) }
{}

/// Unification has one result and one count, whatever the number of reductions.
pub fn one_result()
    ensures { (k j : ℕ) (σ : Bindings ℕ) (ps : Pairs ℕ) (q r : Solved ℕ) → solve nat_eq k σ ps ≡ Some q
        → solve nat_eq j σ ps ≡ Some r → q ≡ r }
{}

/// A budget of steps decides by the count alone.
pub fn budget_decides()
    ensures { (k left : ℕ) (σ : Bindings ℕ) (ps : Pairs ℕ) (r : Solved ℕ) → solve nat_eq k σ ps ≡ Some r
        → unify nat_eq left σ ps ≡ within left (Some r) }
{}

/// The reductions of unification, one at a time.
pub fn one_reduction()
    ensures { (left : ℕ) (σ : Bindings ℕ) (p : Term ℕ × Term ℕ) (ps : Pairs ℕ) → unify nat_eq left σ (p ∷ ps)
        ≡ pay left (reduction nat_eq σ p.0 p.1 ps) (unify nat_eq) }
{}

/// Numbers of names may be unified in place of their texts.
pub fn numbers_for_texts()
    ensures { (names : List (List ℕ)) → IsTable names → (left : ℕ) (σ : Bindings ℕ) (ps : Pairs ℕ)
        → unify bytes_eq left (rename_bindings (name_at names) σ) (rename_pairs (name_at names) ps)
        ≡ rename_solved (name_at names) (unify nat_eq left σ ps) }
{}

/// A table has different names at different numbers.
pub fn names_differ()
    ensures { (names : List (List ℕ)) → IsTable names → (m n : ℕ) → (name_at names m ≡ name_at names n) ↔ (m ≡ n) }
{}

/// A table that grows changes no term whose names it had.
pub fn names_stay()
    ensures { (names more : List (List ℕ)) → take (length names) more ≡ names → (t : Term ℕ) → HasNames (length names) t
        → named more t ≡ named names t }
{}
