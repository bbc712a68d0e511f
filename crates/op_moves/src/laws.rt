//! Laws of the definitions, each as the contract of a function that does nothing.

ghost use Rattle.std.specs.Prelude.{◌≡◌, ◌+◌, ◌<◌, ◌≤◌, ℕ, List, length, true, false};
ghost use Rattle.op_logic.specs.Term.{Term, size};
ghost use Rattle.op_trace.specs.Database.{Text};
ghost use Rattle.op_trace.specs.World.{Event};
ghost use Rattle.op_trace.specs.Ending.{Ending};
ghost use Rattle.op_trace.specs.Ending as ending;
ghost use Rattle.op_moves.specs.Pattern.{Test, tested};
ghost use Rattle.op_moves.specs.Moves.{Stand, Outcome, At, No_event, Past_budget, Spent, moved, later, earlier};
ghost use Rattle.op_moves.specs.Moves.{goto, call_of, next, prev, first, last};
ghost use Rattle.op_moves.specs.Moves.{parent, retry, search_on, search_back, seek, seek_back, finish};
ghost use Rattle.op_moves.specs.Laws.{IsUnification, Costs, price, accepted, calls};
ghost use Rattle.op_trace.specs.Act.{Setup};
ghost use Rattle.op_trace.specs.Builtins.{setup_for};
ghost use Rattle.op_trace.specs.Run.{run, started, events_of};
ghost use Rattle.op_trace.specs.World.{World};
ghost use Rattle.op_moves.specs.Places.{ActsGoOn, IsCourse, Rising, IsNumbered};
ghost use Rattle.op_moves.specs.Boxes.{AreCalled};

/// A pattern accepts an event exactly where it has a unifier with the event's term, and the test costs the pairs that unification takes.
pub fn tests_are_unification()
    ensures { (p : Term Text) (e : Event) → IsUnification p e }
{}

/// A move that finds no place leaves the place as it was.
pub fn place_stays()
    ensures no_event { (s : Stand) (o : Outcome) → o.found ≡ No_event → (moved s o).place ≡ s.place }
    ensures past_budget { (s : Stand) (o : Outcome) → o.found ≡ Past_budget → (moved s o).place ≡ s.place }
    ensures spent { (s : Stand) (o : Outcome) → o.found ≡ Spent → (moved s o).place ≡ s.place }
{}

/// What each move takes: it is spent exactly where fewer steps are left.
pub fn moves_cost()
    ensures goto { (es : List Event) (e : Ending) (j : ℕ) (s : Stand) (fuel : ℕ) → Costs 1 fuel (goto es e j s fuel) }
    ensures prev { (s : Stand) (fuel : ℕ) → Costs 1 fuel (prev s fuel) }
    ensures first { (s : Stand) (fuel : ℕ) → Costs 1 fuel (first s fuel) }
    ensures last { (es : List Event) (e : Ending) (s : Stand) (fuel : ℕ) → Costs 1 fuel (last es e s fuel) }
    ensures parent { (es : List Event) (s : Stand) (fuel : ℕ) → Costs 1 fuel (parent es s fuel) }
    ensures retry { (es : List Event) (s : Stand) (fuel : ℕ) → Costs 1 fuel (retry es s fuel) }
    ensures search { (test : Event → Test) (es : List Event) (e : Ending) (s : Stand) (fuel : ℕ)
        → Costs (price test (later es s.place) 1) fuel (search_on test es e s fuel) }
    ensures seek { (p : Term Text) (es : List Event) (e : Ending) (s : Stand) (fuel : ℕ)
        → Costs (size p + price (tested p) (later es s.place) 1) fuel (seek p es e s fuel) }
    ensures seek_back { (p : Term Text) (es : List Event) (s : Stand) (fuel : ℕ)
        → Costs (size p + price (tested p) (earlier es s.place) 0) fuel (seek_back p es s fuel) }
{}

/// The furthest place never falls.
pub fn furthest_never_falls()
    ensures goto { (es : List Event) (e : Ending) (j : ℕ) (s : Stand) (fuel : ℕ) → s.furthest ≤ (goto es e j s fuel).furthest }
    ensures next { (es : List Event) (e : Ending) (s : Stand) (fuel : ℕ) → s.furthest ≤ (next es e s fuel).furthest }
    ensures prev { (s : Stand) (fuel : ℕ) → s.furthest ≤ (prev s fuel).furthest }
    ensures first { (s : Stand) (fuel : ℕ) → s.furthest ≤ (first s fuel).furthest }
    ensures last { (es : List Event) (e : Ending) (s : Stand) (fuel : ℕ) → s.furthest ≤ (last es e s fuel).furthest }
    ensures parent { (es : List Event) (s : Stand) (fuel : ℕ) → s.furthest ≤ (parent es s fuel).furthest }
    ensures retry { (es : List Event) (s : Stand) (fuel : ℕ) → s.furthest ≤ (retry es s fuel).furthest }
    ensures finish { (es : List Event) (e : Ending) (s : Stand) (fuel : ℕ) → s.furthest ≤ (finish es e s fuel).furthest }
    ensures seek { (p : Term Text) (es : List Event) (e : Ending) (s : Stand) (fuel : ℕ)
        → s.furthest ≤ (seek p es e s fuel).furthest }
    ensures seek_back { (p : Term Text) (es : List Event) (s : Stand) (fuel : ℕ) → s.furthest ≤ (seek_back p es s fuel).furthest }
{}

/// A search forward stops at the next event that is accepted; where it finds none, none behind the place is accepted.
pub fn search_finds_the_next()
    ensures found { (test : Event → Test) (es : List Event) (e : Ending) (s : Stand) (fuel j : ℕ)
        → (search_on test es e s fuel).found ≡ At j
        → (s.place < j) × (j ≤ length es) × (accepted test es j ≡ true)
        × ((i : ℕ) → s.place < i → i < j → accepted test es i ≡ false) }
    ensures no_event { (test : Event → Test) (es : List Event) (e : Ending) (s : Stand) (fuel : ℕ)
        → (search_on test es e s fuel).found ≡ No_event → (i : ℕ) → s.place < i → accepted test es i ≡ false }
    ensures past_budget { (test : Event → Test) (es : List Event) (e : Ending) (s : Stand) (fuel : ℕ)
        → (search_on test es e s fuel).found ≡ Past_budget → (i : ℕ) → s.place < i → accepted test es i ≡ false }
{}

/// A search back stops at the last event before the place that is accepted; where it finds none, none of these is accepted.
pub fn search_back_finds_the_last()
    ensures found { (test : Event → Test) (es : List Event) (s : Stand) (fuel j : ℕ) → s.place ≤ length es + 1
        → (search_back test es s fuel).found ≡ At j
        → (0 < j) × (j < s.place) × (accepted test es j ≡ true)
        × ((i : ℕ) → j < i → i < s.place → accepted test es i ≡ false) }
    ensures no_event { (test : Event → Test) (es : List Event) (s : Stand) (fuel : ℕ) → s.place ≤ length es + 1
        → (search_back test es s fuel).found ≡ No_event → (i : ℕ) → i < s.place → accepted test es i ≡ false }
{}

/// The call of a box is the first event at port call with its number, and where none is found there is none; no box has the number 0.
pub fn calls_are_found()
    ensures found { (es : List Event) (k j : ℕ) → call_of es k ≡ At j
        → (0 < k) × (accepted (calls k) es j ≡ true) × ((i : ℕ) → i < j → accepted (calls k) es i ≡ false) }
    ensures none { (es : List Event) (k : ℕ) → 0 < k → call_of es k ≡ No_event → (i : ℕ) → accepted (calls k) es i ≡ false }
{}

/// What finds no event and met the end of the run tells whether the run is spent, and finds the end of a spent run nowhere else.
pub fn the_end_is_told()
    ensures search_past { (test : Event → Test) (es : List Event) (e : Ending) (s : Stand) (fuel : ℕ)
        → (search_on test es e s fuel).found ≡ Past_budget → e ≡ ending.Spent }
    ensures search_none { (test : Event → Test) (es : List Event) (e : Ending) (s : Stand) (fuel : ℕ)
        → (search_on test es e s fuel).found ≡ No_event → e ≡ ending.Spent → ⊥ }
    ensures goto_past { (es : List Event) (e : Ending) (j : ℕ) (s : Stand) (fuel : ℕ)
        → (goto es e j s fuel).found ≡ Past_budget → e ≡ ending.Spent }
    ensures goto_none { (es : List Event) (e : Ending) (j : ℕ) (s : Stand) (fuel : ℕ)
        → (goto es e j s fuel).found ≡ No_event → e ≡ ending.Spent → ⊥ }
    ensures last_past { (es : List Event) (e : Ending) (s : Stand) (fuel : ℕ)
        → (last es e s fuel).found ≡ Past_budget → e ≡ ending.Spent }
    ensures last_none { (es : List Event) (e : Ending) (s : Stand) (fuel : ℕ)
        → (last es e s fuel).found ≡ No_event → e ≡ ending.Spent → ⊥ }
{}

/// A step forward and a step back lead to where they began.
pub fn next_then_prev()
    ensures { (es : List Event) (e : Ending) (s : Stand) (fuel more : ℕ) → s.place < length es → 0 < fuel → 0 < more
        → (prev (moved s (next es e s fuel)) more).found ≡ At s.place }
{}

/// The turns of a run lead from the world that it found to the one that it leaves, where its acts take back nothing. So no place has fewer
/// steps than an earlier one, and an event's number is its place.
pub fn runs_rise()
    ensures course { (s : Setup) (g : Term Text) (n : ℕ) (w : World) → ActsGoOn s → w.steps ≤ s.budget
        → IsCourse (started n w) (run s g n w).turns (run s g n w).world }
    ensures rises { (s : Setup) (g : Term Text) (n : ℕ) (w : World) → ActsGoOn s → w.steps ≤ s.budget → Rising (run s g n w) }
    ensures numbered { (s : Setup) (g : Term Text) (n : ℕ) (w : World) → ActsGoOn s → w.steps ≤ s.budget → w.events ≡ 0
        → IsNumbered (run s g n w) }
{}

/// The acts of a program take back nothing.
pub fn program_acts_go_on()
    ensures { (budget wanted : ℕ) → ActsGoOn (setup_for budget wanted) }
{}

/// In a run each box is called once, before it is seen at another port and before a box is called in it.
pub fn boxes_are_called()
    ensures { (s : Setup) (g : Term Text) (n : ℕ) (w : World) → AreCalled (events_of (run s g n w).turns) }
{}
