//! The program of a folder: its classes, fields and methods with their code, a line each.
use crate::page::Page;
use core_code::{ClassCore, Code, FieldCore, MethodCore, Op, Program, Reason};
use racer_base::Kind;

/// An operation, and the numbers of what it names.
fn put_operation(page: &mut Page, op: Op) {
    match op {
        Op::Push(variable) => page.put_counted(" Push", variable.0 as usize),
        Op::PushClass(class) => page.put_counted(" PushClass", class.0 as usize),
        Op::PushPrim => page.put(" PushPrim"),
        Op::PushNull => page.put(" PushNull"),
        Op::New(class) => page.put_counted(" New", class.0 as usize),
        Op::Dup => page.put(" Dup"),
        Op::Drop => page.put(" Drop"),
        Op::Get(field) => page.put_counted(" Get", field.0 as usize),
        Op::Put(field) => page.put_counted(" Put", field.0 as usize),
        Op::Set(variable) => page.put_counted(" Set", variable.0 as usize),
        Op::Prim(count) => page.put_counted(" Prim", count as usize),
        Op::Outside(count) => page.put_counted(" Outside", count as usize),
        Op::Call(method, count) => put_call(page, " Call", method.0, count),
        Op::Unread(method, count) => put_call(page, " Unread", method.0, count),
        Op::Ret => page.put(" Ret"),
        Op::Throw => page.put(" Throw"),
    }
}

/// A call of a method with so many values.
fn put_call(page: &mut Page, word: &str, method: u32, count: u32) {
    page.put_counted(word, method as usize);
    page.put_counted("", count as usize);
}

/// The operations with their places, the sides of a choice in `( | )`, a loop in `{ }`, what is held in `[ ]`.
fn put_code(page: &mut Page, code: &Code) {
    match code {
        Code::Op(_, place, op) => {
            put_operation(page, *op);
            page.put_placed("@", *place);
        }
        Code::Seq(parts) => {
            for part in parts {
                put_code(page, part);
            }
        }
        Code::Choice(left, right) => {
            page.put(" (");
            put_code(page, left);
            page.put(" |");
            put_code(page, right);
            page.put(" )");
        }
        Code::Loop(body) => {
            page.put(" {");
            put_code(page, body);
            page.put(" }");
        }
        Code::Sync(place, _, body) => {
            page.put_placed(" [@", *place);
            put_code(page, body);
            page.put(" ]");
        }
    }
}

fn put_class(page: &mut Page, class: &ClassCore) {
    page.put_after("class ", class.name.as_str());
    page.put_flag(" checked", class.checked);
    page.put("\n");
}

fn put_field(page: &mut Page, field: &FieldCore) {
    page.put_counted("field", field.class.0 as usize);
    page.put_after(".", field.name.as_str());
    put_kind(page, field.kind);
    page.put_flag(" static", field.is_static);
    page.put_flag(" recorded", field.recorded);
    page.put("\n");
}

fn put_kind(page: &mut Page, kind: Kind) {
    match kind {
        Kind::Plain => page.put(" Plain"),
        Kind::Declared(class) => page.put_counted(" Declared", class.0 as usize),
        Kind::Other => page.put(" Other"),
    }
}

fn put_kinds(page: &mut Page, kinds: &[Kind]) {
    for kind in kinds {
        put_kind(page, *kind);
    }
}

fn put_head(page: &mut Page, method: &MethodCore) {
    page.put_placed("method ", method.place);
    page.put_counted("", method.class.0 as usize);
    page.put_after(".", method.name.as_str());
    put_kinds(page, method.parameters.as_slice());
    page.put(" to");
    put_kind(page, method.result);
    page.put(" variables");
    put_kinds(page, method.variables.as_slice());
}

fn reason_word(reason: Reason) -> &'static str {
    match reason {
        Reason::Overload => " Overload",
        Reason::Outside => " Outside",
        Reason::Parameters => " Parameters",
        Reason::Locals => " Locals",
        Reason::Operations => " Operations",
        Reason::Recursive => " Recursive",
    }
}

fn put_flags(page: &mut Page, method: &MethodCore) {
    page.put_flag(" static", method.is_static);
    page.put_flag(" entry", method.entry);
    page.put_flag(" main", method.main);
    if let Some(reason) = method.status {
        page.put(reason_word(reason));
    }
    page.put("\n ");
}

fn put_method(page: &mut Page, method: &MethodCore) {
    put_head(page, method);
    put_flags(page, method);
    put_code(page, &method.code);
    page.put("\n");
}

fn put_classes(page: &mut Page, program: &Program) {
    for class in program.classes() {
        put_class(page, class);
    }
    for field in program.fields() {
        put_field(page, field);
    }
}

/// Classes and fields, the places of skipped members, and methods.
pub fn put_program(page: &mut Page, program: &Program) {
    put_classes(page, program);
    for place in program.skipped() {
        page.put_line("skipped ", *place);
    }
    for method in program.methods() {
        put_method(page, method);
    }
}
