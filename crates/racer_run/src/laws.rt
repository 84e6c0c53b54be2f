//! Laws of why a run ends as it does, of what two runs write, and of witnesses that are cut out of a report.
ghost use Rattle.std.specs.Prelude.{◌≡◌, ◌≢◌, ℕ, List, Some, codes};
ghost use Rattle.racer_base.specs.Outside.{Told};
ghost use Rattle.racer_run.specs.declared.status.Status.{Status};
ghost use Rattle.racer_run.specs.declared.status.Status.TheVariants.{Clean, Memory};
ghost use Rattle.racer_words.specs.Words.{WantedReport, WantedReplay, ReportOn, ReplayOf, request_of};
ghost use Rattle.racer_run.specs.Witnesses.{IsCall, IsCutOut};
ghost use Rattle.racer_run.specs.Causes.{Invocation, Wrote, IsCause, IsWhole};
ghost use Rattle.racer_run.specs.Reports.{AsksNoHistory, WroteOneReport};
ghost use Rattle.core_code.specs.Core.{Core};
ghost use Rattle.racer_base.specs.Outside.{Files};
ghost use Rattle.racer_sources.specs.Programs.{Source};
ghost use Rattle.racer_run_edits.specs.Edits.{Edit};
ghost use Rattle.racer_run.specs.Fresh.{TellFresh};
ghost use Rattle.racer_run.specs.Sessions.{AreSources};

use racer_sources::laws::{one_source, other_files_are_not_seen};

/// Where folder and sink tell their meanings, no two statuses other than
/// want of memory have their cause in one call.
pub fn one_status()
    ensures { (s t : Status) (asked : Invocation) (wrote : Wrote) (told : Told) (bytes : List ℕ) →
        asked.told ≡ Some told → wrote.taken_before ≡ Some bytes → s ≢ Memory → t ≢ Memory →
        IsCause s asked wrote → IsCause t asked wrote → s ≡ t }
{
    one_source();
}

/// Two runs with the same words, on folders that tell the same and without a fault, end with one status, unless memory
/// was refused. Where the words ask for no history, they write the same bytes; where they ask for a report, with or
/// without a history, they write one report, and each its history behind it.
pub fn same_bytes()
    ensures { (s t : Status) (a b : Invocation) (v w : Wrote) (told : Told) → a.words ≡ b.words →
        a.told ≡ Some told → b.told ≡ Some told → a.after ≡ a.before → b.after ≡ b.before →
        v.taken_before ≡ w.taken_before → v.after ≡ v.before → w.after ≡ w.before → s ≢ Memory → t ≢ Memory →
        IsCause s a v → IsCause t b w →
        (s ≡ t) × (AsksNoHistory a.words → v.taken_after ≡ w.taken_after)
        × ((wanted : WantedReport) → request_of a.words ≡ Some (ReportOn wanted) →
        WroteOneReport told.files wanted wanted v w) }
{
    one_source();
}

/// The report is the same for any number of workers, with typings or without, and with a history or without: two runs
/// whose words ask for the same folder in the same mode and with the same containers, on folders that tell the same and
/// without a fault, end with one status and write one report, unless memory was refused. Behind it stand the typings of
/// the classes and then the history, in a run whose words ask for them, and else nothing.
pub fn same_report()
    ensures { (s t : Status) (a b : Invocation) (v w : Wrote) (told : Told) (first second : WantedReport) →
        request_of a.words ≡ Some (ReportOn first) → request_of b.words ≡ Some (ReportOn second) →
        first.folder ≡ second.folder → first.mode ≡ second.mode → first.containers ≡ second.containers →
        a.told ≡ Some told → b.told ≡ Some told → a.after ≡ a.before → b.after ≡ b.before →
        v.after ≡ v.before → w.after ≡ w.before → s ≢ Memory → t ≢ Memory →
        IsCause s a v → IsCause t b w → (s ≡ t) × WroteOneReport told.files first second v w }
{
    one_source();
}

/// A witness that a user cuts out of a JSON report, with at most 1 MiB, and puts into a folder with the same sources,
/// replays: a call that asks for it there with the same containers ends clean, and writes that the threads race. The
/// member `witness` that is cut out is that of the report on the program that the sources of a first call are, in
/// whichever mode that call wrote it.
pub fn cut_witnesses_replay()
    ensures { (s t : Status) (a b : Invocation) (v w : Wrote) (from to : Told) (report : WantedReport)
        (replay : WantedReplay) →
        IsCall (ReportOn report) from s a v → IsCall (ReplayOf replay) to t b w →
        IsCutOut report.containers from.files to.files replay.witness → replay.containers ≡ report.containers →
        (t ≡ Clean) × IsWhole w (codes "races\n") }
{
    one_source();
    other_files_are_not_seen();
}

/// What is said of each edit of a session is its line, and then, word for word, what a fresh run says of the files as
/// they are then, whatever was kept: the report, or the line of the refusal.
pub fn sessions_tell_fresh_reports()
    ensures { (folder now : Files) (last : Core) (edits : List Edit) (sources : List Source) →
        AreSources folder now last edits sources → TellFresh folder now last edits sources }
{
    one_source();
}
