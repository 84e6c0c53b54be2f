//! Classes with their members, a line each.
use crate::page::Page;
use crate::trees::{
    put_annotation, put_arrays, put_head_result, put_modifiers, put_parameters, put_result,
    put_type, put_type_parameters, put_variables,
};
use java_lexer::Lexed;
use java_parser::{let_go, parse_unit};
use java_tree::{ClassTree, FieldTree, Member, MethodTree, OutsideHead, ParseFault, Unit};
use std::alloc::Global;

fn put_field(page: &mut Page, field: &FieldTree) {
    page.put("  field");
    put_modifiers(page, field.modifiers.as_slice());
    put_type(page, &field.kind);
    put_variables(page, field.variables.as_slice());
    page.put("\n");
}

fn put_method(page: &mut Page, method: &MethodTree) {
    page.put_placed("  method ", method.name.place);
    put_modifiers(page, method.modifiers.as_slice());
    if let Some(parameters) = &method.type_parameters {
        put_type_parameters(page, parameters.get());
    }
    put_result(page, &method.result);
    page.put_after(" ", method.name.text.as_str());
    put_parameters(page, method.parameters.as_slice());
    put_arrays(page, method.arrays);
    page.put_counted(" throws", method.throws.len());
    page.put_counted(" statements", method.body.len());
    page.put("\n");
}

fn put_outside(page: &mut Page, head: &OutsideHead) {
    page.put_placed("  outside ", head.place);
    page.put_after(" ", head.name.as_str());
    page.put_flag(" static", head.is_static);
    page.put_flag(" synchronized", head.has_synchronized);
    put_head_result(page, &head.result);
    page.put_counted(" parameters", head.parameters as usize);
    page.put("\n");
}

fn put_member(page: &mut Page, member: &Member) {
    match member {
        Member::Field(field) => put_field(page, field),
        Member::Method(method) => put_method(page, method),
        Member::Outside(head) => put_outside(page, head),
        Member::Skipped(place) => page.put_line("  skipped ", *place),
    }
}

fn put_class(page: &mut Page, class: &ClassTree) {
    page.put_placed("class ", class.place);
    page.put_after(" ", class.name.as_str());
    for annotation in class.annotations.as_slice() {
        put_annotation(page, annotation);
    }
    page.put("\n");
    for member in class.members.as_slice() {
        put_member(page, member);
    }
}

fn put_parts(page: &mut Page, unit: &Unit) {
    for class in unit.classes.as_slice() {
        put_class(page, class);
    }
    for place in unit.skipped.as_slice() {
        page.put_line("skipped ", *place);
    }
}

fn put_fault(page: &mut Page, fault: ParseFault) {
    match fault {
        ParseFault::Unbalanced(place) => page.put_line("unbalanced ", place),
        ParseFault::TooDeep(place) => page.put_line("too deep ", place),
        ParseFault::NotAUnit(place) => page.put_line("not a unit ", place),
        ParseFault::Memory => page.put("memory\n"),
    }
}

/// What a file is read as, or its first fault.
pub fn put_unit(alloc: Global, page: &mut Page, lexed: &Lexed) {
    match parse_unit(alloc, lexed) {
        Ok(unit) => {
            put_parts(page, &unit);
            let_go(unit);
        }
        Err(fault) => put_fault(page, fault),
    }
}
