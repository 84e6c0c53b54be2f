//! The parts of members, as one line says them.
use crate::page::Page;
use java_tree::{
    AnnotationTree, BaseType, FieldInitialiser, FieldVariable, HeadResult, ModifierTree,
    ParameterTree, ResultTree, TypeParametersTree, TypeTree,
};

/// An annotation: its names, and what stands in its brackets.
pub fn put_annotation(page: &mut Page, annotation: &AnnotationTree) {
    page.put(" @");
    for name in annotation.names.as_slice() {
        page.put_after(" ", name.as_str());
    }
    for argument in annotation.arguments.as_slice() {
        page.put_after(" ", argument.text.as_str());
    }
    page.put(" @");
}

pub fn put_modifiers(page: &mut Page, modifiers: &[ModifierTree]) {
    for modifier in modifiers {
        match modifier {
            ModifierTree::Word(text) => page.put_after(" ", text.as_str()),
            ModifierTree::Annotated(annotation) => put_annotation(page, annotation),
        }
    }
}

/// A type: its word or names, and its dimensions.
pub fn put_type(page: &mut Page, kind: &TypeTree) {
    match &kind.base {
        BaseType::Plain(text) => page.put_after(" ", text.as_str()),
        BaseType::Named(parts) => {
            for part in parts {
                page.put_after(" .", part.name.text.as_str());
            }
        }
    }
    page.put_counted("", kind.arrays as usize);
}

pub fn put_result(page: &mut Page, given: &ResultTree) {
    match given {
        ResultTree::Constructor => page.put(" constructor"),
        ResultTree::Void => page.put(" void"),
        ResultTree::Of(kind) => put_type(page, kind),
    }
}

pub fn put_head_result(page: &mut Page, given: &HeadResult) {
    match given {
        HeadResult::Constructor => page.put(" constructor"),
        HeadResult::Void => page.put(" void"),
        HeadResult::Unknown => page.put(" unknown"),
        HeadResult::Formed(kind) => put_type(page, kind),
    }
}

/// Each type parameter with its bounds, and the modifiers behind them.
pub fn put_type_parameters(page: &mut Page, parameters: &TypeParametersTree) {
    for parameter in parameters.items.as_slice() {
        page.put(" <");
        for annotation in parameter.annotations.as_slice() {
            put_annotation(page, annotation);
        }
        page.put_after(" ", parameter.name.text.as_str());
        for bound in parameter.bounds.as_slice() {
            put_type(page, bound);
        }
        page.put(">");
    }
    put_modifiers(page, parameters.modifiers.as_slice());
}

/// The number of `[ ]` behind a name or behind parameters, where some stand there.
pub fn put_arrays(page: &mut Page, arrays: u32) {
    if arrays > 0 {
        page.put_counted(" []", arrays as usize);
    }
}

pub fn put_parameters(page: &mut Page, parameters: &[ParameterTree]) {
    for parameter in parameters {
        page.put(" (");
        put_modifiers(page, parameter.modifiers.as_slice());
        put_type(page, &parameter.kind);
        if parameter.any_number {
            page.put(" ...");
        }
        page.put_after(" ", parameter.name.text.as_str());
        put_arrays(page, parameter.arrays);
        page.put(")");
    }
}

fn initialiser_word(initialiser: &FieldInitialiser) -> &'static str {
    match initialiser {
        FieldInitialiser::Absent => "",
        FieldInitialiser::Formed(_) => " formed",
        FieldInitialiser::Unread => " unread",
    }
}

pub fn put_variables(page: &mut Page, variables: &[FieldVariable]) {
    for variable in variables {
        page.put_after(" (", variable.name.text.as_str());
        page.put_after(initialiser_word(&variable.initialiser), ")");
    }
}
