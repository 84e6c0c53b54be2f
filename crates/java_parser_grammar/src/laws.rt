//! Laws of the definitions, as functions with nothing to do.
mod annotations;
mod answers;
mod brackets;
mod classes;
mod counts;
mod cuts;
mod declarations;
mod forms;
mod heads;
mod members;
mod statements;
mod trees;

pub use annotations::pieces_of_lines;
pub use answers::{
    first_faults, heads_of_constructors, unknown_results, variable_with_a_tree, whole_file,
};
pub use brackets::{deep_brackets, unbalanced_brackets};
pub use classes::{annotations_of_classes, read_classes, skipped_types};
pub use counts::tokens_are_counted;
pub use cuts::{
    declarations_are_cut_once, items_are_the_tokens, members_are_cut_once, one_division_of_fields,
};
pub use declarations::{
    other_lists, types_of_units, unfit_annotations, unfit_ends, unfit_orders, unfit_tokens, units,
};
pub use forms::{
    casts_and_tests, classes_in_methods, classes_of_types, deep_type_arguments, heads_of_locals,
    heads_of_methods, lambdas, no_types_end_in_expressions, references,
};
pub use heads::{parameters, static_heads, synchronized_members};
pub use members::{
    blocks, endless_members, ends_of_members, fields, methods, methods_without_bodies,
    types_among_members,
};
pub use statements::{
    groups_of_switches, labelled_statements, parts_of_tries, statements_of_keywords,
};
pub use trees::{
    methods_of_classes, results_of_heads, texts_between_commas, texts_of_no_variable,
    words_of_fields,
};
