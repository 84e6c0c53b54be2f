//! What is known of methods before it is known which are recursive: the methods that each calls, in reading order, why
//! it is not analysed, apart from recursion, and the extent of its code. All that comes of its code where no method is
//! analysed.
ghost use Rattle.std.specs.Prelude.{◌≡◌, [], IfOk, map};
ghost use Rattle.std.specs.List.{All};
ghost use Rattle.java_resolver.specs.Table.{methods};
ghost use Rattle.core_lowering_rules.specs.Methods.{is_past_limit};
ghost use Rattle.core_lowering_methods.specs.Extents.{is_past};
ghost use Rattle.core_lowering_context.specs.Views.{folder_of};
ghost use Rattle.core_lowering_context.specs.Sources.{source_of};
ghost use Rattle.core_lowering_surveys.specs.Counts.{AreCounts};
ghost use Rattle.core_lowering_surveys.specs.Reasons.{declared_by, own_reason};
ghost use Rattle.core_lowering_surveys.specs.Surveys.{row_in, seen, IsRight};

use crate::counts::count_methods;
use crate::reasons::first_reason;
use container_cells::Cell;
use core_code::{Reason, all_callees};
use core_lowering_context::Source;
use core_lowering_methods::{Extent, survey_method};
use java_resolver::Table;
use racer_base::{Items, Memory, MethodId};
use std::alloc::Global;

/// A method, and the extent of its code.
#[derive(Clone, Copy)]
pub struct Surveyed<'a> {
    pub source: Source<'a>,
    pub extent: Extent,
}

/// What is known of a method.
#[derive(Drop)]
struct Found {
    row: Items<MethodId>,
    reason: Option<Reason>,
    extent: Extent,
}

fn survey(
    alloc: Global,
    table: &Table,
    cells: &[Option<Cell>],
    counts: &[u32],
    source: &Source,
) -> Result<Found, Memory>
    requires { AreCounts (methods table.now) counts.now }
    ensures row { IfOk result (λ found. found.row ≡ row_in (folder_of table.now cells.now []) (source_of source.now)) }
    ensures reason { IfOk result (λ found.
        found.reason ≡ own_reason (declared_by table.now cells.now) (source_of source.now)) }
    ensures extent { IfOk result (λ found.
        is_past found.extent ≡ is_past_limit (folder_of table.now cells.now []) (source_of source.now)) }
{
    let survey = survey_method(alloc, table, cells, source)?;
    let reason = first_reason(table, counts, source, &survey)?;
    let extent = survey.extent;
    let row = Items::from(all_callees(alloc, &survey.lowered.code)?);
    Ok(Found {
        row,
        reason,
        extent,
    })
}

/// What is known of all methods: the methods that each calls, why it is not analysed, apart from recursion, and the
/// extent of its code.
#[derive(Drop)]
pub struct Surveys<'a> {
    pub rows: Vec<Items<MethodId>>,
    pub reasons: Vec<Option<Reason>>,
    pub methods: Vec<Surveyed<'a>>,
}

fn survey_all<'a>(
    alloc: Global,
    table: &Table,
    cells: &[Option<Cell>],
    counts: &[u32],
    sources: &[Source<'a>],
) -> Result<Surveys<'a>, Memory>
    requires { AreCounts (methods table.now) counts.now }
    ensures rows { IfOk result (λ surveys.
        surveys.rows.items ≡ map (row_in (folder_of table.now cells.now [])) (map source_of sources.now)) }
    ensures reasons { IfOk result (λ surveys.
        surveys.reasons.items ≡ map (own_reason (declared_by table.now cells.now)) (map source_of sources.now)) }
    ensures methods { IfOk result (λ surveys. map seen surveys.methods.items ≡ map source_of sources.now) }
    ensures extents { IfOk result (λ surveys. All (IsRight table.now cells.now) surveys.methods.items) }
{
    let mut rows = Vec::new(alloc);
    let mut reasons = Vec::new(alloc);
    let mut methods = Vec::new(alloc);
    for source in sources {
        let found = survey(alloc, table, cells, counts, source)?;
        methods.push(Surveyed {
            source: *source,
            extent: found.extent,
        })?;
        rows.push(found.row)?;
        reasons.push(found.reason)?;
    }
    Ok(Surveys {
        rows,
        reasons,
        methods,
    })
}

/// What is known of methods before it is known which are recursive.
pub fn find_surveys<'a>(
    alloc: Global,
    table: &Table,
    cells: &[Option<Cell>],
    sources: &[Source<'a>],
) -> Result<Surveys<'a>, Memory>
    ensures rows { IfOk result (λ surveys.
        surveys.rows.items ≡ map (row_in (folder_of table.now cells.now [])) (map source_of sources.now)) }
    ensures reasons { IfOk result (λ surveys.
        surveys.reasons.items ≡ map (own_reason (declared_by table.now cells.now)) (map source_of sources.now)) }
    ensures methods { IfOk result (λ surveys. map seen surveys.methods.items ≡ map source_of sources.now) }
    ensures extents { IfOk result (λ surveys. All (IsRight table.now cells.now) surveys.methods.items) }
{
    let counts = count_methods(alloc, table, table.methods())?;
    survey_all(alloc, table, cells, counts.as_slice(), sources)
}
