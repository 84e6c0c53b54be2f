//! Laws of the files of witnesses.
ghost use Rattle.std.specs.Prelude.{◌≡◌, ℕ, List, Some, [], ◌∷◌};
ghost use Rattle.std.specs.List.{Contains};
ghost use Rattle.serde_json.specs.Written.{compact_text};
ghost use Rattle.core_code.specs.declared.program.Program.{Program};
ghost use Rattle.core_code.specs.Program.{core};
ghost use Rattle.core_semantics.specs.declared.object.Start.TheVariants.{Only};
ghost use Rattle.core_semantics.specs.declared.object.StartPath.{StartPath};
ghost use Rattle.core_semantics.specs.Legs.{Leg, run};
ghost use Rattle.core_semantics.specs.Runs.{begun};
ghost use Rattle.core_semantics.specs.State.{State};
ghost use Rattle.core_ways.specs.Marks.{Confirmed};
ghost use Rattle.race_pairs.specs.declared.warning.Warning.{Warning};
ghost use Rattle.race_pairs.specs.Warnings.{warnings};
ghost use Rattle.witness_build_laws.specs.Warned.{warning_mark};
ghost use Rattle.race_report_parts.specs.Texts.{path_text};
ghost use Rattle.race_report_parts.specs.Told.{Sides, sides_of};
ghost use Rattle.race_report_parts.specs.WitnessFiles.{file_of_run};
ghost use Rattle.witness_build.specs.Replayed.{AreRight};
ghost use Rattle.witness_text_files.specs.declared.file.WitnessFile.{WitnessFile};
ghost use Rattle.witness_text_files.specs.Answers.{IsFile, IsFileOf, seen};
ghost use Rattle.witness_text_files.specs.Written.{data_of};
ghost use Rattle.witness_text.specs.declared.verdict.Verdict.TheVariants.{Races};
ghost use Rattle.witness_text.specs.Replaying.{DoShowWitnesses, DoWitnessesReplay, RacesIn};
ghost use Rattle.witness_text.specs.Verdicts.{verdict};

use race_pairs::laws::each_warning_is_a_pair;
use race_report_parts::laws::each_warning_has_two_records;
use witness_build::laws::confirmed_warnings_can_replay;
use witness_build_laws::laws::whole_warnings_race;

/// Where the objects of a witness of a warning of the list of warnings are right start paths, and its legs, run from
/// them, end in a race in the cell of the warning's path, the verdict of its file is a race.
pub fn written_witnesses_replay()
    ensures { (p : Program) (w : Warning) (sides : Sides) (objects : List StartPath) (a b : Leg) (end : State) →
        Contains (warnings (core p)) w → sides_of (core p) w ≡ Some sides → AreRight (core p) w objects →
        run (core p) (a ∷ b ∷ []) (begun (core p) w.entry w.partner (Only objects)) ≡ Some end →
        RacesIn end sides.first.access.path → verdict (core p) (file_of_run (core p) sides objects a b) ≡ Races }
{
    each_warning_is_a_pair();
}

/// The witness of each warning of the list of warnings that is marked confirmed replays: whatever is read of the
/// compact text of its file, as the report writes it, or of any bytes that are its file, has the verdict of a race. The
/// file is of version 2, and has the warning's path.
pub fn confirmed_witnesses_replay()
    ensures bytes { (p : Program) (w : Warning) (sides : Sides) (objects : List StartPath) (a b : Leg)
        (bytes : List ℕ) (f : WitnessFile) → Contains (warnings (core p)) w → sides_of (core p) w ≡ Some sides →
        warning_mark (core p) w ≡ Confirmed objects (a ∷ b ∷ []) →
        IsFileOf bytes (file_of_run (core p) sides objects a b) → IsFile bytes f →
        (f.path ≡ Some (path_text (core p) sides.first.access.path)) × (verdict (core p) (seen f) ≡ Races) }
    ensures text { (p : Program) (w : Warning) (sides : Sides) (objects : List StartPath) (a b : Leg)
        (f : WitnessFile) → Contains (warnings (core p)) w → sides_of (core p) w ≡ Some sides →
        warning_mark (core p) w ≡ Confirmed objects (a ∷ b ∷ []) →
        IsFile (compact_text (data_of (file_of_run (core p) sides objects a b))) f →
        (f.path ≡ Some (path_text (core p) sides.first.access.path)) × (verdict (core p) (seen f) ≡ Races) }
{
    written_witnesses_replay();
    confirmed_warnings_can_replay();
}

/// Each member `witness` of a mark in the JSON report on a program is a witness file with the path of its warning, that
/// has the verdict of a race.
pub fn witnesses_in_reports_replay()
    ensures { (p : Program) → DoWitnessesReplay (core p) }
{
    written_witnesses_replay();
    confirmed_warnings_can_replay();
}

/// In the JSON report on a program the object of each warning whose path is stable in both methods and whose two ways
/// are whole has a mark with the member `witness`: a witness file with the path, whose replay is a run that ends in a
/// race in the cell of the path.
pub fn json_reports_show_races()
    ensures { (p : Program) → DoShowWitnesses (core p) }
{
    each_warning_has_two_records();
    each_warning_is_a_pair();
    whole_warnings_race();
    confirmed_warnings_can_replay();
}
