//! Laws that a feed's users rest on, each as the contract of a function that does nothing.

ghost use Rattle.std.specs.Prelude.{◌≡◌, ◌≤◌, ℕ, None};
ghost use Rattle.op_desk.specs.Contents.{Known};
ghost use Rattle.op_retrace.specs.Fed.{Fed, IsSound, IsReset, Advances};
ghost use Rattle.op_retrace.specs.Went.{Went};
ghost use Rattle.op_retrace.specs.declared.feed.FeedStep.{FeedStep};

/// What calls of a feed come to together: nothing, a reset, and each further advance.
pub fn calls_join()
    ensures nothing { (v : Fed) (left written : Known) (n : ℕ) → v.fault ≡ None → v.place ≤ v.furthest
        → Went v.place v v left left written written n n }
    ensures reset { (old new : Fed) (left written : Known) (n : ℕ) → old.fault ≡ None → IsReset old new
        → Went 0 old new left left written written n n }
    ensures advance { (from : ℕ) (s : FeedStep) (old mid new : Fed) (left left_mid left_now written written_mid written_now : Known)
        (before between after : ℕ)
        → Went from old mid left left_mid written written_mid before between → IsSound mid
        → Advances s mid new left_mid left_now written_mid written_now between after → new.fault ≡ None
        → Went from old new left left_now written written_now before after }
{}
