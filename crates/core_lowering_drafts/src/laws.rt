//! Laws of drafts, as functions with nothing to do.
ghost use Rattle.std.specs.Prelude.{◌≡◌, ℕ, IsTrue, IsFalse, []};
ghost use Rattle.racer_base.specs.declared.ids.Place.{Place};
ghost use Rattle.core_code.specs.Tree.{Tree, LockAt};
ghost use Rattle.core_lowering_drafts.specs.Drafts.{Draft, End, Ends, SameEnds, has, do_meet, ends, meets};
ghost use Rattle.core_lowering_drafts.specs.Drafts.{ends_then, ends_within, ends_behind};
ghost use Rattle.core_lowering_drafts.specs.Examples.{finally_draft, finally_code, loop_draft, loop_code};
ghost use Rattle.core_lowering_drafts.specs.Only.{Rest, onto, only, code_of};
ghost use Rattle.core_lowering_drafts.specs.Paths.{Steps, IsPath, IsCodePath, cut, cut_end, ArePathsKept};
ghost use Rattle.core_lowering_drafts.specs.Plain.{is_plain, plain_code};

/// The code for the ends that are asked for has the paths of the draft that end by these, cut behind a return and an
/// exception, and an exit is a normal end there.
pub fn paths_are_kept()
    ensures { (draft : Draft) (asked : Ends) → IsTrue (meets draft asked) → ArePathsKept draft asked }
{}

/// The ends of a draft are those of its paths.
pub fn paths_end()
    ensures there { (draft : Draft) (p : Steps) (e : End) → IsPath draft p e → IsTrue (has (ends draft) e) }
    ensures back { (draft : Draft) (e : End) → IsTrue (has (ends draft) e) → (p : Steps) × IsPath draft p e }
{}

/// On a path of core code nothing stands behind a return or an exception.
pub fn code_is_cut()
    ensures { (code : Tree) (p : Steps) (e : End) → IsCodePath code p e → (p ≡ cut p) × (e ≡ cut_end p e) }
{}

/// The code of a return within a `finally`, and that of a loop that is left out of a switch.
pub fn code_of_drafts()
    ensures in_try { (place : Place) (lock : LockAt) → code_of (finally_draft place lock) ≡ finally_code place lock }
    ensures in_loop { (place : Place) → code_of (loop_draft place) ≡ loop_code place }
{}

/// A draft of operations, choices, loops and locks alone is its own code.
pub fn plain_drafts_are_code()
    ensures { (draft : Draft) → IsTrue (is_plain draft) → code_of draft ≡ plain_code draft }
{}

/// A draft that has none of the ends that are asked for leaves no code.
pub fn unmet_drafts_are_nothing()
    ensures { (draft : Draft) (asked : Ends) → IsFalse (meets draft asked) → only draft asked ≡ [] }
{}

/// What is made of sets of ends depends on which ends are in them, and not on their order and number in a list.
pub fn sets_are_their_members()
    ensures code { (draft : Draft) (asked same : Ends) → SameEnds asked same → only draft asked ≡ only draft same }
    ensures onto { (draft : Draft) (asked same : Ends) (rest : Rest) → SameEnds asked same →
        onto draft asked rest ≡ onto draft same rest }
    ensures met { (draft : Draft) (asked same : Ends) → SameEnds asked same → meets draft asked ≡ meets draft same }
    ensures do_meet { (a b c d : Ends) → SameEnds a b → SameEnds c d → do_meet a c ≡ do_meet b d }
    ensures in_order { (a b c d : Ends) → SameEnds a b → SameEnds c d → SameEnds (ends_then a c) (ends_then b d) }
    ensures within { (k : ℕ) (a b : Ends) → SameEnds a b → SameEnds (ends_within k a) (ends_within k b) }
    ensures behind { (k : ℕ) (a b c d e f : Ends) → SameEnds a b → SameEnds c d → SameEnds e f →
        SameEnds (ends_behind k a c e) (ends_behind k b d f) }
{}
