//! Touches of cells.
ghost use Rattle.std.specs.Prelude.{◌≡◌, ◌++◌, OnOk};
ghost use Rattle.core_lowering_rules.specs.Touches.{touch};
ghost use Rattle.core_lowering_context.specs.Drafts.{code_of};
ghost use Rattle.core_lowering_touches.specs.Touching.{fetched, looked_over, touched_in};

use container_cells::{CellTouch, touch_of};
use core_code::Op;
use core_lowering_context::{Context, Making};
use java_tree::Ident;
use racer_base::{FieldId, Memory, Place};

/// What a call does to what the container in a field holds, with the place of the field's name.
#[derive(Clone, Copy)]
pub struct Touched {
    pub field: FieldId,
    pub name: Place,
    pub content: FieldId,
    pub touch: CellTouch,
}

/// What a call with so many arguments does to what the container in a field holds, if that is one.
pub fn touched_in(
    context: &Context,
    f: FieldId,
    name: Place,
    x: &Ident,
    count: u32,
) -> Option<Touched>
    ensures { result ≡ touched_in context.now f name x.now count }
{
    let cell = context.cell(f)?;
    let touch = touch_of(cell.family, x.text.as_str(), count)?;
    Some(Touched {
        field: f,
        name,
        content: cell.content,
        touch,
    })
}

/// Before the arguments, behind the base: the container, above the base.
pub fn fetch_container(
    context: &Context,
    touched: Touched,
    draft: &mut Making,
) -> Result<(), Memory>
    ensures { OnOk result (code_of draft.new ≡ code_of draft.old ++ fetched context.now touched) }
{
    context.op(draft, Op::Dup)?;
    draft.op(touched.name, Op::Get(touched.field))
}

/// Behind what the call gives, at the place of its name.
pub fn touch(
    context: &Context,
    place: Place,
    touched: Touched,
    draft: &mut Making,
) -> Result<(), Memory>
    ensures { OnOk result (code_of draft.new ≡ code_of draft.old
        ++ touch context.now place touched.content touched.touch) }
{
    match touched.touch {
        CellTouch::Change => draft.op(place, Op::Put(touched.content)),
        CellTouch::Look => {
            context.op(draft, Op::Drop)?;
            draft.op(place, Op::Get(touched.content))?;
            context.op(draft, Op::Outside(1))
        }
    }
}

/// Behind the base, at the place of the field's name: what a container holds, of which nothing is known.
pub fn look_over(
    context: &Context,
    content: FieldId,
    name: Place,
    draft: &mut Making,
) -> Result<(), Memory>
    ensures { OnOk result (code_of draft.new ≡ code_of draft.old ++ looked_over context.now content name) }
{
    draft.op(name, Op::Get(content))?;
    context.op(draft, Op::Outside(1))
}
