//! What is called (JLS 15.9, 15.12).
ghost use Rattle.std.specs.Prelude.{◌≡◌, ◌++◌, suc, OnOk, OnErr, IfOk};
ghost use Rattle.racer_base.specs.declared.ids.Kind.{Kind};
ghost use Rattle.core_code.specs.declared.code.Op.TheVariants.{Outside};
ghost use Rattle.java_tree.specs.View.{ty_of};
ghost use Rattle.core_lowering_rules.specs.ValueKinds.{Of};
ghost use Rattle.core_lowering_rules.specs.Context.{op, type_kind};
ghost use Rattle.core_lowering_rules.specs.Calls.{callee_in, callee_of, info_at, if_static, own_callee};
ghost use Rattle.core_lowering_rules.specs.Calls.{callee_of_value};
ghost use Rattle.core_lowering_rules.specs.Calls.{result_kind, parameters_of, given_kinds, parameter_kinds};
ghost use Rattle.core_lowering_rules.specs.Calls.{with_object, call_of, call_at, constructor_in};
ghost use Rattle.core_lowering_context.specs.Drafts.{code_of};
ghost use Rattle.core_lowering_context.specs.Views.{value_kind};
ghost use Rattle.core_lowering_expressions.specs.Parts.{callee_seen, passed_kinds};
ghost use Rattle.core_lowering_expressions.specs.Parts.{maker_of, made_front, made_kinds, made_end};
ghost use Rattle.core_lowering_expressions.specs.Together.{target_callee, target_front, target_end};

use core_code::Op;
use core_lowering_context::{Context, Making, ValueKind, number_of};
use java_tree::{Ident, TypeTree};
use racer_base::{ClassId, Kind, Memory, MethodId, Place};

/// None of the folder's; a static method, or one of an object.
#[derive(Clone, Copy)]
pub enum Callee {
    Missing,
    OfClass(MethodId),
    OfObject(MethodId),
}

/// What stands before the name of a method: nothing, the name of a class, or a value of this kind.
#[derive(Clone, Copy)]
pub enum Target {
    Own,
    Class(ClassId),
    Value(ValueKind),
}

impl Callee {
    /// Where there is no object.
    fn if_static(self) -> Callee
        ensures { callee_seen result ≡ if_static (callee_seen self) }
    {
        match self {
            Callee::OfClass(m) => Callee::OfClass(m),
            Callee::OfObject(_) => Callee::Missing,
            Callee::Missing => Callee::Missing,
        }
    }
}

/// A method of the folder.
fn callee_of(context: &Context, m: MethodId) -> Callee
    ensures { callee_seen result ≡ callee_of m (info_at context.now m) }
{
    match context.method(m) {
        Some(info) => {
            if info.is_static {
                Callee::OfClass(m)
            } else {
                Callee::OfObject(m)
            }
        }
        None => Callee::Missing,
    }
}

/// The method of a class that a call of its name with so many arguments means.
fn callee_in(context: &Context, c: ClassId, x: &Ident, count: u32) -> Callee
    ensures { callee_seen result ≡ callee_in context.now c x.now.text count }
{
    match context.find(c, x.text.as_str(), count) {
        Some(m) => callee_of(context, m),
        None => Callee::Missing,
    }
}

/// The callee of f(..).
fn own_callee(context: &Context, x: &Ident, count: u32) -> Callee
    ensures { callee_seen result ≡ own_callee context.now x.now count }
{
    let callee = callee_in(context, context.class(), x, count);
    if context.is_static() {
        return callee.if_static();
    }
    callee
}

/// The callee of e.f(..), where e has this kind.
fn callee_of_value(context: &Context, kind: ValueKind, x: &Ident, count: u32) -> Callee
    ensures { callee_seen result ≡ callee_of_value context.now (value_kind kind) x.now count }
{
    match kind {
        ValueKind::Of(Kind::Declared(c)) => callee_in(context, c, x, count),
        _ => Callee::Missing,
    }
}

/// The callee with so many arguments, where this stands before the name.
pub fn callee_on(context: &Context, target: Target, x: &Ident, count: u32) -> Callee
    ensures { callee_seen result ≡ target_callee context.now target x.now count }
{
    match target {
        Target::Own => own_callee(context, x, count),
        Target::Class(c) => callee_in(context, c, x, count).if_static(),
        Target::Value(kind) => callee_of_value(context, kind, x, count),
    }
}

/// The kind of what a call gives.
fn result_kind(context: &Context, callee: Callee) -> ValueKind
    ensures { value_kind result ≡ result_kind context.now (callee_seen callee) }
{
    let (Callee::OfClass(m) | Callee::OfObject(m)) = callee else {
        return ValueKind::Of(Kind::Other);
    };
    match context.method(m) {
        Some(info) => ValueKind::Of(info.result),
        None => ValueKind::Of(Kind::Other),
    }
}

/// The kind of the value of a call with so many arguments, where this stands before the name.
pub fn call_kind(context: &Context, target: Target, x: &Ident, count: u32) -> ValueKind
    ensures { value_kind result ≡ result_kind context.now (target_callee context.now target x.now count) }
{
    result_kind(context, callee_on(context, target, x, count))
}

/// The kinds of a method's parameters.
fn parameters_of<'b>(context: &'b Context, m: MethodId) -> &'b [Kind]
    ensures { result.now ≡ parameters_of (info_at context.now m) }
{
    match context.method(m) {
        Some(info) => info.parameters.as_slice(),
        None => &[],
    }
}

/// What so many arguments are converted to where these are the kinds of the parameters.
fn given_kinds(count: u32, kinds: &[Kind]) -> &[Kind]
    ensures { result.now ≡ given_kinds count kinds.now }
{
    if kinds.len() == count as usize {
        return kinds;
    }
    &kinds[..kinds.len().saturating_sub(1)]
}

/// The same for a method; where it is not analysed they are converted to nothing.
fn parameter_kinds<'b>(context: &'b Context, m: MethodId, count: u32) -> &'b [Kind]
    ensures { result.now ≡ parameter_kinds context.now m count }
{
    if !context.is_analysed(m) {
        return &[];
    }
    given_kinds(count, parameters_of(context, m))
}

/// The same for a callee.
pub fn passed_kinds<'b>(context: &'b Context, callee: Callee, count: u32) -> &'b [Kind]
    ensures { result.now ≡ passed_kinds context.now (callee_seen callee) count }
{
    match callee {
        Callee::Missing => &[],
        Callee::OfClass(m) => parameter_kinds(context, m, count),
        Callee::OfObject(m) => parameter_kinds(context, m, count),
    }
}

/// How many values these are with the object that a method is called on.
fn with_object(has_object: bool, count: u32) -> Result<u32, Memory>
    ensures { IfOk result (λ n. n ≡ with_object has_object count) }
{
    if has_object {
        count.checked_add(1).ok_or(Memory)
    } else {
        Ok(count)
    }
}

/// The call of a method of so many parameters: where the arguments are others in number, one value is made of those
/// that the last parameter takes (JLS 15.12.4.2).
fn call_of(
    context: &Context,
    place: Place,
    m: MethodId,
    has_object: bool,
    counts: (u32, u32),
    draft: &mut Making,
) -> Result<(), Memory>
    ensures { OnOk result (code_of draft.new ≡ code_of draft.old
        ++ call_of context.now place m has_object counts.0 counts.1) }
{
    let (count, parameters) = counts;
    if count != parameters {
        let given = parameters.saturating_sub(1);
        context.op(draft, Op::Outside(count.saturating_sub(given)))?;
    }
    draft.op(place, Op::Call(m, with_object(has_object, parameters)?))
}

/// The call with so many arguments, at the place of the name or of `new`.
fn call_at(
    context: &Context,
    place: Place,
    m: MethodId,
    has_object: bool,
    count: u32,
    draft: &mut Making,
) -> Result<(), Memory>
    ensures { OnOk result (code_of draft.new ≡ code_of draft.old
        ++ call_at context.now place m has_object count) }
{
    if !context.is_analysed(m) {
        return draft.op(place, Op::Unread(m, with_object(has_object, count)?));
    }
    let parameters = number_of(parameters_of(context, m).len())?;
    call_of(context, place, m, has_object, (count, parameters), draft)
}

/// What is not the folder's, with so many values and one more.
pub fn call_outside(context: &Context, count: u32, draft: &mut Making) -> Result<(), Memory>
    ensures code { OnOk result (code_of draft.new ≡ code_of draft.old ++ op context.now (Outside (suc count))) }
    ensures err { OnErr result (code_of draft.new ≡ code_of draft.old) }
{
    let all = count.checked_add(1).ok_or(Memory)?;
    context.op(draft, Op::Outside(all))
}

/// What stands between the target and the arguments.
pub fn begin_call(
    context: &Context,
    target: Target,
    callee: Callee,
    draft: &mut Making,
) -> Result<(), Memory>
    ensures { OnOk result (code_of draft.new ≡ code_of draft.old
        ++ target_front context.now target (callee_seen callee)) }
{
    match (target, callee) {
        (Target::Value(_), Callee::OfClass(_)) => context.op(draft, Op::Drop),
        (Target::Value(_), _) => Ok(()),
        (_, Callee::OfObject(_)) => context.push_this(draft),
        _ => Ok(()),
    }
}

/// What stands behind the arguments.
fn end_on(
    context: &Context,
    target: Target,
    place: Place,
    count: u32,
    callee: Callee,
    draft: &mut Making,
) -> Result<(), Memory>
    ensures { OnOk result (code_of draft.new ≡ code_of draft.old
        ++ target_end context.now target place count (callee_seen callee)) }
{
    match callee {
        Callee::Missing => match target {
            Target::Own => context.op(draft, Op::Outside(count)),
            Target::Class(_) => context.op(draft, Op::Outside(count)),
            Target::Value(_) => call_outside(context, count, draft),
        },
        Callee::OfClass(m) => call_at(context, place, m, false, count, draft),
        Callee::OfObject(m) => call_at(context, place, m, true, count, draft),
    }
}

/// Behind the arguments, of which there are so many: the kind of the call's value.
pub fn finish_call(
    context: &Context,
    target: Target,
    place: Place,
    count: u32,
    callee: Callee,
    draft: &mut Making,
) -> Result<ValueKind, Memory>
    ensures code { OnOk result (code_of draft.new ≡ code_of draft.old
        ++ target_end context.now target place count (callee_seen callee)) }
    ensures kind { IfOk result (λ k. value_kind k ≡ result_kind context.now (callee_seen callee)) }
{
    end_on(context, target, place, count, callee, draft)?;
    Ok(result_kind(context, callee))
}

/// The constructor of a class that so many arguments mean.
fn constructor_in(context: &Context, c: ClassId, count: u32) -> Option<MethodId>
    ensures { result ≡ constructor_in context.now c count }
{
    let m = context.find(c, "<new>", count)?;
    let info = context.method(m)?;
    info.is_constructor.then_some(m)
}

/// The class of new T(..) and its constructor, where T has this kind.
fn maker_of(context: &Context, kind: Kind, count: u32) -> Option<(ClassId, MethodId)>
    ensures { result ≡ maker_of context.now kind count }
{
    let Kind::Declared(c) = kind else {
        return None;
    };
    let m = constructor_in(context, c, count)?;
    Some((c, m))
}

/// The new object, if it is of a class of the folder.
fn push_new(
    place: Place,
    maker: Option<(ClassId, MethodId)>,
    draft: &mut Making,
) -> Result<(), Memory>
    ensures { OnOk result (code_of draft.new ≡ code_of draft.old ++ made_front place maker) }
{
    match maker {
        Some(made) => draft.op(place, Op::New(made.0)),
        None => Ok(()),
    }
}

/// new T(..) before its arguments, of which there are so many: the class and its constructor.
pub fn begin_new(
    context: &Context,
    place: Place,
    t: &TypeTree,
    count: u32,
    draft: &mut Making,
) -> Result<Option<(ClassId, MethodId)>, Memory>
    ensures code { OnOk result (code_of draft.new ≡ code_of draft.old
        ++ made_front place (maker_of context.now (type_kind context.now (ty_of t.now)) count)) }
    ensures maker { IfOk result (λ maker. maker
        ≡ maker_of context.now (type_kind context.now (ty_of t.now)) count) }
{
    let maker = maker_of(context, context.type_kind(t), count);
    push_new(place, maker, draft)?;
    Ok(maker)
}

/// What so many arguments of new T(..) are converted to.
pub fn made_kinds<'b>(
    context: &'b Context,
    maker: Option<(ClassId, MethodId)>,
    count: u32,
) -> &'b [Kind]
    ensures { result.now ≡ made_kinds context.now maker count }
{
    match maker {
        Some(made) => parameter_kinds(context, made.1, count),
        None => &[],
    }
}

/// new T(..) behind its arguments.
fn end_new(
    context: &Context,
    place: Place,
    count: u32,
    maker: Option<(ClassId, MethodId)>,
    draft: &mut Making,
) -> Result<(), Memory>
    ensures { OnOk result (code_of draft.new ≡ code_of draft.old ++ made_end context.now place count maker) }
{
    match maker {
        Some(made) => call_at(context, place, made.1, true, count, draft),
        None => draft.op(place, Op::Outside(count)),
    }
}

/// new T(..) behind its arguments, of which there are so many: the kind of T.
pub fn finish_new(
    context: &Context,
    place: Place,
    t: &TypeTree,
    count: u32,
    maker: Option<(ClassId, MethodId)>,
    draft: &mut Making,
) -> Result<ValueKind, Memory>
    ensures code { OnOk result (code_of draft.new ≡ code_of draft.old ++ made_end context.now place count maker) }
    ensures kind { IfOk result (λ k. value_kind k ≡ Of (type_kind context.now (ty_of t.now))) }
{
    end_new(context, place, count, maker, draft)?;
    Ok(ValueKind::Of(context.type_kind(t)))
}
