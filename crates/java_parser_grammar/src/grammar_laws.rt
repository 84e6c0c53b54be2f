//! Laws of the definitions, as functions with nothing to do.
mod found;
mod one_tree;
mod sound;

pub use found::{
    arrays_are_read, expressions_are_read, inits_are_read, methods_are_read, statements_are_read,
    types_are_read, variables_are_read,
};
pub use one_tree::{
    one_array, one_expression, one_init, one_list_of_variables, one_method, one_statement, one_type,
};
pub use sound::{
    read_arrays, read_expressions, read_inits, read_methods, read_statements, read_types,
    read_variables,
};
