//! Laws of the definitions, as functions with nothing to do.
mod depths;
mod expression_edges;
mod expression_forms;
mod jump_forms;
mod method_forms;
mod operators;
mod places;
mod readings;
mod spellings;
mod statement_forms;

pub use depths::{
    nesting_of_expressions, nesting_of_jumps, nesting_of_methods, nesting_of_statements,
    nesting_of_switches, nesting_of_tries, nesting_of_types,
};
pub use expression_edges::{edges_of_expressions, edges_of_operands};
pub use expression_forms::{
    formed_binaries, formed_creations, formed_operations, formed_primaries, formed_types,
};
pub use jump_forms::{endings_of_tries, formed_jumps, formed_switches, formed_tries};
pub use method_forms::{formed_heads, formed_methods};
pub use operators::{levels_of_operators, other_operators};
pub use places::kept_places;
pub use readings::{
    character_is_one_literal, conditionals_group_to_the_right, difference_is_no_statement,
    else_belongs_to_the_inner_if, minuses_group_to_the_left, named_parentheses_before_a_sign,
    nested_arguments_close_glued, parentheses_before_an_operand, plain_parentheses_before_a_sign,
    shift_is_two_glued_signs, signs_are_seen_at_the_front,
};
pub use spellings::{
    spelling_of_expressions, spelling_of_jumps, spelling_of_methods, spelling_of_statements,
    spelling_of_switches, spelling_of_tries, spelling_of_types,
};
pub use statement_forms::{formed_endings, formed_parts, formed_statements};
