//! Laws of reports: the races that they show, and the reports of small programs.
ghost use Rattle.std.specs.Prelude.{◌≡◌, ◌++◌, None, Some, codes, false};
ghost use Rattle.std.specs.List.{Contains};
ghost use Rattle.core_code.specs.declared.program.Program.{Program};
ghost use Rattle.core_code.specs.Pair.{pair, after_call, call_put};
ghost use Rattle.core_code.specs.Program.{core};
ghost use Rattle.access_domain.specs.declared.access.Access.{Access};
ghost use Rattle.access_domain.specs.OutcomeRecords.{record_at};
ghost use Rattle.race_pairs.specs.declared.warning.Warning.{Warning};
ghost use Rattle.race_pairs.specs.Warnings.{warnings};
ghost use Rattle.witness_build_laws.specs.Warned.{warning_mark};
ghost use Rattle.race_report_parts.specs.Marks.{mark_word};
ghost use Rattle.race_report_parts.specs.Report.{report_text};
ghost use Rattle.race_report.specs.Shown.{DoWholeWarningsRace, ShowsRace};

use witness_build_laws::laws::{confirmed_warnings_race, whole_warnings_race};

/// The report of a class with two methods, one of which writes without the lock.
pub fn pair_report()
    ensures { report_text false pair ≡
        codes "racer report 1\nfiles 1 classes 1 methods 3\n"
        ++ codes "warning Pair.put/0 write this.a\n at Pair.java:4:21\n with Pair.put/0 write this.a\n"
        ++ codes " at Pair.java:4:21\n mark confirmed\n first 0 turns - steps 2\n second 1 turns - steps 2\n"
        ++ codes "warning Pair.both/0 write this.a locked\n at Pair.java:5:44\n"
        ++ codes " with Pair.put/0 write this.a\n at Pair.java:4:21\n mark confirmed\n first 1 turns - steps 2\n"
        ++ codes " second 0 turns - steps 4\nwarnings 2 confirmed 2\n" }
{}

/// The same where the second method calls the first: its places are those of the call and of the write.
pub fn call_report()
    ensures { report_text false (after_call call_put None) ≡
        codes "racer report 1\nfiles 1 classes 1 methods 3\n"
        ++ codes "warning Pair.put/0 write this.a\n at Pair.java:4:21\n with Pair.put/0 write this.a\n"
        ++ codes " at Pair.java:4:21\n mark confirmed\n first 0 turns - steps 2\n second 1 turns - steps 2\n"
        ++ codes "warning Pair.both/0 write this.a\n at Pair.java:5:8\n at Pair.java:4:21\n"
        ++ codes " with Pair.put/0 write this.a\n at Pair.java:4:21\n mark confirmed\n first 0 turns - steps 4\n"
        ++ codes " second 1 turns - steps 2\nwarnings 2 confirmed 2\n" }
{}

/// In the report on a program each warning whose path is stable in both methods and whose two ways are whole has lines
/// that are a run: these objects at the start, and these legs after which the next steps of both threads touch one
/// cell, at least one of them writing it. And wherever a warning's lines say that it is confirmed, the objects and legs
/// below are such a run.
pub fn reports_show_races()
    ensures whole { (p : Program) → DoWholeWarningsRace (core p) }
    ensures printed { (p : Program) (w : Warning) (r : Access) → Contains (warnings (core p)) w →
        record_at (core p) w.entry w.access ≡ Some r →
        mark_word (warning_mark (core p) w) ≡ codes "confirmed" → ShowsRace (core p) w r.path }
{
    confirmed_warnings_race();
    whole_warnings_race();
}
