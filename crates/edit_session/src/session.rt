//! A session of edits.
use crate::before::Before;
use crate::levels::method_at;
use crate::work::{Made, all_finished};
use access_domain::Outcomes;
use core_code::{Program, call_rows};
use racer_base::{Memory, MethodId};
use std::alloc::Global;
use std::marker::Model;
use std::sync::Arc;
use transfer::Finished;
use transfer_ties::ties_of;

/// A program with the outcomes of its methods, and the methods that were analysed when it came.
#[derive(Drop)]
pub struct Session {
    program: Arc<Program>,
    /// The analysed methods of the program, finished, each at its number.
    finished: Vec<Option<Arc<Finished>>>,
    outcomes: Outcomes,
    analysed: Vec<MethodId>,
}

impl Model for Session {
    ghost use Rattle.edit_session.specs.Whole.{Standing};

    ghost Value = { Standing };

    ghost use Rattle.std.specs.Coded.{codes};
    ghost use Rattle.core_code.specs.contracts.program.Program as type_of_program;

    ghost coded = { Prim.hlevel (codes, type_of_program.the_row.coded) };

    ghost use Rattle.std.specs.Arc.{arc_value};
    ghost use Rattle.core_code.specs.Program.{core};
    ghost use Rattle.edit_session.specs.Whole.{IsKeptWhole};

    ghost view = { λ session. record { program = arc_value session.program; again = session.analysed.items } };

    ghost invariant = { λ session.
        IsKeptWhole (core (arc_value session.program)) session.finished.items session.outcomes.items };
}

impl Session {
    ghost use Rattle.std.specs.Prelude.{◌≡◌, IfOk, IfSome, OnErr, OnOk, length};
    ghost use Rattle.std.specs.Arc.{arc_value};
    ghost use Rattle.core_code.specs.Program.{core};
    ghost use Rattle.access_domain.specs.Outcomes.{AreOutcomes};
    ghost use Rattle.transfer_ties.specs.Again.{again, analysed_in};
    ghost use Rattle.edit_session.specs.Sessions.{IsBefore, IsTold, methods_again, program_in};

    /// The session at a program, behind another one or behind none.
    fn at(
        alloc: Global,
        program: Arc<Program>,
        before: Option<Before<'_>>,
    ) -> Result<Session, Memory>
        requires { IfSome before (IsBefore (core (arc_value program))) }
        ensures { IfOk result (IsTold (arc_value program) before.entry) }
    {
        let rows = call_rows(alloc, &*program)?;
        let Made {
            finished,
            outcomes,
            analysed,
        } = all_finished(alloc, &program, &rows, before)?;
        Ok(Session {
            program,
            finished,
            outcomes,
            analysed,
        })
    }

    /// Begins at a program: each analysed method is analysed.
    pub fn start(alloc: Global, program: Arc<Program>) -> Result<Session, Memory>
        ensures program { IfOk result (λ session. program_in session ≡ arc_value program) }
        ensures analysed { IfOk result (λ session.
            methods_again session ≡ analysed_in (core (arc_value program))) }
    {
        Session::at(alloc, program, None)
    }

    /// Goes on to a program, and tells how many methods were analysed. Where memory is refused the session is as it was.
    pub fn next(&mut self, alloc: Global, program: Arc<Program>) -> Result<u32, Memory>
        ensures program { OnOk result (program_in self.new ≡ arc_value program) }
        ensures analysed { OnOk result (methods_again self.new ≡
            again (core (program_in self.old)) (core (arc_value program))) }
        ensures count { IfOk result (λ count. count ≡
            length (again (core (program_in self.old)) (core (arc_value program)))) }
        ensures unchanged { OnErr result (self.new ≡ self.old) }
    {
        let before = Before {
            program: &self.program,
            finished: self.finished.as_slice(),
            ties: ties_of(alloc, &*self.program, &*program)?,
        };
        let next = Session::at(alloc, program, Some(before))?;
        let count = method_at(next.analysed.len())?.0;
        *self = next;
        Ok(count)
    }

    /// The program that it stands at.
    pub fn program(&self) -> &Arc<Program>
        ensures { arc_value result.now ≡ program_in self.now }
    {
        &self.program
    }

    /// The outcome of each method of the program, none for those that are not analysed.
    pub fn outcomes(&self) -> &Outcomes
        ensures { AreOutcomes (core (program_in self.now)) result.now.items }
    {
        &self.outcomes
    }

    /// The methods that were analysed when the program came, by level and then in source order.
    pub fn analysed(&self) -> &[MethodId]
        ensures { result.now ≡ methods_again self.now }
    {
        self.analysed.as_slice()
    }
}
