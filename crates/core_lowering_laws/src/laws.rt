//! The values of the definitions on each form, as functions with nothing to do.
//!
//! The texts of the rows are read by the functions that are named here, so that they compute.
#![tactic(auto, unfolding( // what stands ahead
java_parser_grammar::specs::Leads::lead, // what stands ahead
java_parser_grammar::specs::Leads::behind, // what stands ahead
java_parser_grammar::specs::Leads::begins_lambda, // what stands ahead
java_parser_grammar::specs::Leads::casts, // what stands ahead
java_parser_grammar::specs::Taking::commas, // lists
java_parser_grammar::specs::BalancedReading::closed_at, // names and balanced tokens
java_parser_grammar::specs::BalancedReading::names_at, // names and balanced tokens
java_parser_grammar::specs::BalancedReading::annotation_at, // names and balanced tokens
java_parser_grammar::specs::BalancedReading::annotations_at, // names and balanced tokens
java_parser_grammar::specs::BalancedReading::variable_modifiers_at, // names and balanced tokens
java_parser_grammar::specs::TypeReading::brackets_at, // types
java_parser_grammar::specs::TypeReading::points, // types
java_parser_grammar::specs::TypeReading::angled_with, // types
java_parser_grammar::specs::TypeReading::part_with, // types
java_parser_grammar::specs::TypeReading::base_with, // types
java_parser_grammar::specs::TypeReading::ty_at, // types
java_parser_grammar::specs::TypeReading::tested_part_with, // types
java_parser_grammar::specs::TypeReading::tested_ty_at, // types
java_parser_grammar::specs::TypeReading::types_at, // types
java_parser_grammar::specs::TypeReading::behind_each, // types
java_parser_grammar::specs::TypeReading::made_part_with, // types
java_parser_grammar::specs::TypeReading::made_parts_with, // types
java_parser_grammar::specs::TypeReading::made_base_with, // types
java_parser_grammar::specs::TypeReading::made_base_at, // types
java_parser_grammar::specs::ExpressionReading::class_at, // expressions
java_parser_grammar::specs::ExpressionReading::referred_at, // expressions
java_parser_grammar::specs::ExpressionReading::typed_name_with, // expressions
java_parser_grammar::specs::ExpressionReading::plain_word_with, // expressions
java_parser_grammar::specs::ExpressionReading::lambda_parameters_at, // expressions
java_parser_grammar::specs::ExpressionReading::lambda_with, // expressions
java_parser_grammar::specs::ExpressionReading::call_arguments_with, // expressions
java_parser_grammar::specs::ExpressionReading::name_with, // expressions
java_parser_grammar::specs::ExpressionReading::prefix_with, // expressions
java_parser_grammar::specs::ExpressionReading::lengths_with, // expressions
java_parser_grammar::specs::ExpressionReading::new_array_with, // expressions
java_parser_grammar::specs::ExpressionReading::new_items_with, // expressions
java_parser_grammar::specs::ExpressionReading::new_object_with, // expressions
java_parser_grammar::specs::ExpressionReading::new_with, // expressions
java_parser_grammar::specs::ExpressionReading::operand_with, // expressions
java_parser_grammar::specs::ExpressionReading::assign_with, // expressions
java_parser_grammar::specs::ExpressionReading::conditional_with, // expressions
java_parser_grammar::specs::ExpressionReading::binary_with, // expressions
java_parser_grammar::specs::ExpressionReading::instance_with, // expressions
java_parser_grammar::specs::ExpressionReading::select_with, // expressions
java_parser_grammar::specs::ExpressionReading::refer_with, // expressions
java_parser_grammar::specs::ExpressionReading::index_with, // expressions
java_parser_grammar::specs::ExpressionReading::turn_with, // expressions
java_parser_grammar::specs::ExpressionReading::climb_with, // expressions
java_parser_grammar::specs::ExpressionReading::items_with, // expressions
java_parser_grammar::specs::ExpressionReading::braces_with, // expressions
java_parser_grammar::specs::ExpressionReading::read_at, // expressions
java_parser_grammar::specs::ExpressionReading::array_at, // expressions
java_parser_grammar::specs::StatementReading::class_from, // statements
java_parser_grammar::specs::StatementReading::local_class_at, // statements
java_parser_grammar::specs::StatementReading::variable_at, // statements
java_parser_grammar::specs::StatementReading::variables_at, // statements
java_parser_grammar::specs::StatementReading::locals_at, // statements
java_parser_grammar::specs::StatementReading::condition_at, // statements
java_parser_grammar::specs::StatementReading::stmts_at, // statements
java_parser_grammar::specs::StatementReading::if_at, // statements
java_parser_grammar::specs::StatementReading::for_from, // statements
java_parser_grammar::specs::StatementReading::each_from, // statements
java_parser_grammar::specs::StatementReading::for_typed, // statements
java_parser_grammar::specs::StatementReading::for_run, // statements
java_parser_grammar::specs::StatementReading::for_at, // statements
java_parser_grammar::specs::StatementReading::local_at, // statements
java_parser_grammar::specs::StatementReading::run_line_at, // statements
java_parser_grammar::specs::StatementReading::resource_at, // statements
java_parser_grammar::specs::StatementReading::more_resources_at, // statements
java_parser_grammar::specs::StatementReading::catch_parameter_at, // statements
java_parser_grammar::specs::StatementReading::label_at, // statements
java_parser_grammar::specs::StatementReading::labels_at, // statements
java_parser_grammar::specs::StatementReading::group_stmts_at, // statements
java_parser_grammar::specs::StatementReading::groups_at, // statements
java_parser_grammar::specs::StatementReading::again_at, // statements
java_parser_grammar::specs::StatementReading::pieces_at, // statements
java_parser_grammar::specs::StatementReading::stmt_at, // statements
java_parser_grammar::specs::StatementReading::block_at, // statements
))]

mod assignments;
mod calls;
mod containers;
mod expressions;
mod forms;
mod methods;
mod statements;

pub use assignments::{assignments_to_fields, assignments_to_variables, other_assignments};
pub use calls::{calls_by_name, calls_of_objects, creations};
pub use containers::{calls_on_containers, loops_over_containers, other_calls_on_containers};
pub use expressions::{accesses, kinds_of_expressions, names, operators, values};
pub use forms::{any_number_of_arguments, bodies, names_and_casts, other_types, references};
pub use methods::{
    ends_of_methods, fields_of_objects, first_methods, locks_of_methods, unread_fields,
};
pub use statements::{blocks, branches, jumps, loops, returns, throws, variables};
