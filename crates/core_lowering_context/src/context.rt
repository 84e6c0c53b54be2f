//! What an expression or a statement stands in.
ghost use Rattle.std.specs.Prelude.{◌≡◌, ◌++◌, length, OnOk, OnErr, IfOk, option_copied, option_map};
ghost use Rattle.racer_base.specs.declared.ids.Kind.{Kind};
ghost use Rattle.java_tree.specs.View.{ty_of};
ghost use Rattle.java_resolver.specs.Declarations.{class_names};
ghost use Rattle.java_resolver.specs.Meanings.{field_named, found, variable_named};
ghost use Rattle.java_resolver.specs.TypeKinds.{class_seen};
ghost use Rattle.core_lowering_rules.specs.Context.{Code, op, converted, push_this, push_owner, meaning_of};
ghost use Rattle.core_lowering_rules.specs.Context.{type_kind, variable_kind_in, is_analysed};
ghost use Rattle.core_lowering_rules.specs.Expressions.{is_own_class};
ghost use Rattle.core_lowering_rules.specs.Methods.{outside_methods};
ghost use Rattle.core_lowering_rules.specs.Assignments.{field_at};
ghost use Rattle.core_lowering_rules.specs.Touches.{cell_at};
ghost use Rattle.core_lowering_rules.specs.Calls.{info_at};
ghost use Rattle.core_lowering_rules.specs.Scopes.{declared, next_variable, is_closed_by};
ghost use Rattle.core_lowering_context.specs.Drafts.{code_of};
ghost use Rattle.core_lowering_context.specs.Restored.{variables_from, with_apart, with_closing};
ghost use Rattle.core_lowering_context.specs.Seen.{known_of};
ghost use Rattle.core_lowering_context.specs.Views.{value_kind, given_of};
ghost use Rattle.core_lowering_context.specs.Beginning.{entered_in, left_at, with_other_lock};

use crate::given::MethodResult;
use crate::making::Making;
use crate::numbers::number_of;
use crate::targets::{Guard, Target};
use crate::value_kind::{ValueKind, is_converted};
use crate::variables::Variables;
use container_cells::Cell;
use core_code::{Op, Reason};
use java_resolver::{FieldInfo, Hidden, Meaning, MethodInfo, Table, VariableKind};
use java_tree::{Ident, TypeTree};
use racer_base::{ClassId, FieldId, Items, Kind, Memory, MethodId, Place, Text, VarId};
use std::alloc::Global;
use std::marker::Model;

/// The folder, the cells of its containers, and why its methods are not analysed; of the method its place, what it
/// gives, its class, whether it is static and which names mean no class in it; the variables in scope; the kinds of all
/// variables so far; how many exits are open; the labels of the statement that comes, where jumps and where returns
/// lead, the innermost last; whether a lock so far is that of no lock field, and whether something so far sets the
/// method apart.
#[derive(Drop)]
pub struct Context<'a> {
    table: &'a Table,
    cells: &'a [Option<Cell>],
    statuses: &'a [Option<Reason>],
    place: Place,
    result: MethodResult,
    pub(crate) given: Kind,
    class: ClassId,
    is_static: bool,
    hidden: Option<&'a Hidden>,
    pub(crate) variables: Variables,
    pub(crate) kinds: Vec<Kind>,
    pub(crate) exits: u32,
    pub(crate) labels: Vec<Text>,
    pub(crate) targets: Vec<Target>,
    pub(crate) guards: Vec<Guard>,
    other_lock: bool,
    pub(crate) is_apart: bool,
}

impl<'a> Model for Context<'a> {
    ghost use Rattle.std.specs.Prelude.{reverse, option_copied};
    ghost use Rattle.java_resolver.specs.Hidden.{hidden_by};
    ghost use Rattle.core_lowering_rules.specs.Context.{Context};
    ghost use Rattle.core_lowering_context.specs.Exits.{guards_seen};
    ghost use Rattle.core_lowering_context.specs.Views.{folder_of, given_of};

    ghost Value = { Context };

    ghost view = { λ context. record {
      folder = folder_of context.table.now context.cells.now context.statuses.now;
      place = context.place;
      result = given_of context.result;
      given = context.given;
      scope = record {
        class = context.class;
        is_static = context.is_static;
        hidden = hidden_by (option_copied context.hidden);
        variables = context.variables;
      };
      kinds = context.kinds.items;
      exits = context.exits;
      labels = reverse context.labels.items;
      targets = reverse context.targets.items;
      guards = guards_seen context.guards.items;
      other_lock = context.other_lock;
      is_apart = context.is_apart;
    } };
}

impl<'a> Context<'a> {
    /// Where a method begins, before its parameters.
    pub fn new(
        alloc: Global,
        table: &'a Table,
        cells: &'a [Option<Cell>],
        statuses: &'a [Option<Reason>],
        place: Place,
        method_result: MethodResult,
        given: Kind,
        class: ClassId,
        is_static: bool,
        hidden: &'a Hidden,
    ) -> Result<Context<'a>, Memory>
        ensures { IfOk result (λ context. context
            ≡ entered_in table.now cells.now statuses.now place (given_of method_result) given class is_static
            hidden.now) }
    {
        let mut kinds = Vec::new(alloc);
        if !is_static {
            kinds.push(Kind::Declared(class))?;
        }
        Ok(Context {
            table,
            cells,
            statuses,
            place,
            result: method_result,
            given,
            class,
            is_static,
            hidden: Some(hidden),
            variables: Variables::new(alloc),
            kinds,
            exits: 0,
            labels: Vec::new(alloc),
            targets: Vec::new(alloc),
            guards: Vec::new(alloc),
            other_lock: false,
            is_apart: false,
        })
    }

    /// What the method gives.
    pub fn given(&self) -> MethodResult
        ensures { given_of result ≡ self.now.result }
    {
        self.result
    }

    /// The place of the method.
    pub fn place(&self) -> Place
        ensures { result ≡ self.now.place }
    {
        self.place
    }

    /// The kind of a type.
    pub fn type_kind(&self, t: &TypeTree) -> Kind
        ensures { result ≡ type_kind self.now (ty_of t.now) }
    {
        self.table.type_kind(self.hidden, t)
    }

    /// What is known of a variable of this type with so many `[ ]` behind its name.
    pub fn variable_kind(&self, t: &TypeTree, further: u32) -> VariableKind
        ensures { result ≡ variable_kind_in self.now (ty_of t.now) further }
    {
        self.table.variable_kind(self.hidden, t, further)
    }

    /// What a simple name means there (JLS 6.5).
    pub fn meaning(&self, x: &Ident) -> Meaning
        ensures { result ≡ meaning_of self.now x.now }
    {
        if let Some((v, known)) = self.variables.named(x.text.as_str()) {
            return Meaning::Variable(v, known.kind);
        }
        if let Some(f) = self
            .table
            .field_named(self.class, self.is_static, x.text.as_str())
        {
            return Meaning::Field(f);
        }
        match self.class_named(x) {
            Some(c) => Meaning::Class(c),
            None => Meaning::Opaque,
        }
    }

    /// The class of the method.
    pub fn class(&self) -> ClassId
        ensures { result ≡ self.now.scope.class }
    {
        self.class
    }

    /// Whether this is the class of the method.
    pub fn is_own_class(&self, class: Option<ClassId>) -> bool
        ensures { result ≡ is_own_class self.now class }
    {
        match class {
            Some(c) => c == self.class,
            None => false,
        }
    }

    pub fn is_static(&self) -> bool
        ensures { result ≡ self.now.scope.is_static }
    {
        self.is_static
    }

    /// What is known of a field.
    pub fn field(&self, f: FieldId) -> Option<&FieldInfo>
        ensures { option_copied result ≡ field_at self.now f }
    {
        self.table.fields().get(f.0 as usize)
    }

    /// The cell of a field that is a container.
    pub fn cell(&self, f: FieldId) -> Option<Cell>
        ensures { result ≡ cell_at self.now f }
    {
        match self.cells.get(f.0 as usize) {
            Some(cell) => *cell,
            None => None,
        }
    }

    /// What is known of a method.
    pub fn method(&self, m: MethodId) -> Option<&MethodInfo>
        ensures { option_copied result ≡ info_at self.now m }
    {
        self.table.methods().get(m.0 as usize)
    }

    pub fn is_analysed(&self, m: MethodId) -> bool
        ensures { result ≡ is_analysed self.now m }
    {
        match self.statuses.get(m.0 as usize) {
            Some(status) => status.is_none(),
            None => false,
        }
    }

    /// The class of a name.
    pub fn class_named(&self, x: &Ident) -> Option<ClassId>
        ensures { result ≡ class_seen self.now.scope.hidden (class_names self.now.folder.classes) x.now.text }
    {
        self.table.class_named(self.hidden, x.text.as_str())
    }

    /// What is known of the variable that a name means.
    pub fn variable(&self, x: &Ident) -> Option<VariableKind>
        ensures { result ≡ option_map known_of (variable_named self.now.scope x.now.text) }
    {
        let (_, known) = self.variables.named(x.text.as_str())?;
        Some(known)
    }

    /// The field of a class by its name; where a static one is asked for, a static one.
    pub fn field_named(&self, c: ClassId, in_static: bool, x: &Ident) -> Option<FieldId>
        ensures { result ≡ field_named self.now.folder.fields c in_static x.now.text }
    {
        self.table.field_named(c, in_static, x.text.as_str())
    }

    /// The method or constructor of a class that a call of its name, `<new>` for a constructor, with so many arguments
    /// means.
    pub fn find(&self, c: ClassId, name: &str, count: u32) -> Option<MethodId>
        ensures { result ≡ found self.now.folder.methods c name.now count }
    {
        self.table.find(c, name, count)
    }

    /// Puts an operation at the place of the method.
    pub fn op(&self, draft: &mut Making, operation: Op) -> Result<(), Memory>
        ensures code { OnOk result (code_of draft.new ≡ code_of draft.old ++ op self.now operation) }
        ensures err { OnErr result (code_of draft.new ≡ code_of draft.old) }
    {
        draft.op(self.place, operation)
    }

    /// Puts an operation at the place of the method, which leaves a value of this kind.
    pub fn value(
        &self,
        draft: &mut Making,
        operation: Op,
        kind: ValueKind,
    ) -> Result<ValueKind, Memory>
        ensures code { OnOk result (code_of draft.new ≡ code_of draft.old ++ op self.now operation) }
        ensures kind { IfOk result (λ k. value_kind k ≡ value_kind kind) }
    {
        draft.value(self.place, operation, kind)
    }

    pub fn push_this(&self, draft: &mut Making) -> Result<(), Memory>
        ensures code { OnOk result (code_of draft.new ≡ code_of draft.old ++ push_this self.now) }
        ensures err { OnErr result (code_of draft.new ≡ code_of draft.old) }
    {
        draft.op(self.place, Op::Push(VarId(0)))
    }

    /// `this` of an instance method, the class of a static one.
    pub fn push_owner(&self, draft: &mut Making) -> Result<(), Memory>
        ensures code { OnOk result (code_of draft.new ≡ code_of draft.old ++ push_owner self.now) }
        ensures err { OnErr result (code_of draft.new ≡ code_of draft.old) }
    {
        if self.is_static {
            draft.op(self.place, Op::PushClass(self.class))
        } else {
            self.push_this(draft)
        }
    }

    /// What a value goes through on its way to a kind.
    pub fn convert(&self, draft: &mut Making, kind: Kind, given: ValueKind) -> Result<(), Memory>
        ensures code { OnOk result (code_of draft.new ≡ code_of draft.old
            ++ converted self.now kind (value_kind given)) }
        ensures err { OnErr result (code_of draft.new ≡ code_of draft.old) }
    {
        if is_converted(kind, given) {
            draft.op(self.place, Op::Outside(1))?;
        }
        Ok(())
    }

    /// Declares a variable, which is in scope now.
    pub fn declare(
        &mut self,
        alloc: Global,
        known: VariableKind,
        name: &Ident,
    ) -> Result<VarId, Memory>
        ensures variable { IfOk result (λ v. v ≡ next_variable self.old) }
        ensures context { OnOk result (self.new ≡ declared self.old known name.now) }
        ensures err { OnErr result (left_at 0 self.new ≡ left_at 0 self.old) }
    {
        let id = VarId(number_of(self.kinds.len())?);
        self.variables
            .declare(alloc, name.text.as_str(), id, known)?;
        self.kinds.push(known.kind)?;
        Ok(id)
    }

    /// How many variables are in scope.
    pub fn in_scope(&self) -> usize
        ensures { result ≡ length self.now.scope.variables }
    {
        self.variables.as_slice().len()
    }

    /// Takes the variables from this one on out of scope.
    pub fn leave(&mut self, at: usize)
        ensures { self.new ≡ left_at at self.old }
    {
        self.variables.leave(at);
    }

    /// Stands in no method, where its fields begin.
    pub fn leave_method(&mut self)
        ensures { self.new ≡ outside_methods self.old }
    {
        self.variables.leave(0);
        self.hidden = None;
    }

    /// Notes that a lock is that of no lock field.
    pub fn note_other_lock(&mut self)
        ensures { self.new ≡ with_other_lock self.old }
    {
        self.other_lock = true;
    }

    /// Whether a lock so far is that of no lock field.
    pub fn other_lock(&self) -> bool
        ensures { result ≡ self.now.other_lock }
    {
        self.other_lock
    }

    /// The variables in scope from this one on.
    pub fn variables_from(&self, alloc: Global, at: usize) -> Result<Vec<VarId>, Memory>
        ensures { IfOk result (λ variables. variables.items ≡ variables_from at self.now) }
    {
        let mut all = Vec::new(alloc);
        let variables = self.variables.as_slice();
        if variables.len() < at {
            return Ok(all);
        }
        for variable in &variables[at..] {
            all.push(variable.id)?;
        }
        Ok(all)
    }

    /// Notes what sets the method apart: a jump without a target, or a resource that the folder closes.
    pub fn note_apart(&mut self)
        ensures { self.new ≡ with_apart self.old }
    {
        self.is_apart = true;
    }

    pub fn is_apart(&self) -> bool
        ensures { result ≡ self.now.is_apart }
    {
        self.is_apart
    }

    /// Whether a method of the folder closes a resource of this kind.
    fn is_closed(&self, kind: Kind) -> bool
        ensures { result ≡ is_closed_by self.now kind }
    {
        match kind {
            Kind::Declared(c) => self.table.find_exactly(c, "close", 0).is_some(),
            Kind::Plain => false,
            Kind::Other => false,
        }
    }

    /// Notes whether a method of the folder closes a resource of this kind.
    pub fn note_closing(&mut self, kind: Kind)
        ensures { self.new ≡ with_closing kind self.old }
    {
        if self.is_closed(kind) {
            self.is_apart = true;
        }
    }

    /// The kinds of all variables so far.
    pub fn into_kinds(self) -> Items<Kind>
        ensures { result ≡ self.entry.kinds }
    {
        Items::from(self.kinds)
    }
}
