//! Which statements may stand inside of others (JLS 14).
ghost use Rattle.std.specs.Prelude.{◌≡◌};
ghost use Rattle.java_tree.specs.Formed.{is_body};
ghost use Rattle.java_tree.specs.View.{stmt_of};

use java_tree::Statement;

/// Whether a statement is no declaration.
pub fn is_body(statement: &Statement) -> bool
    ensures { result ≡ is_body (stmt_of statement.now) }
{
    !matches!(statement, Statement::Local(_) | Statement::LocalClass(_, _))
}

/// The same for the statement behind a name and its `:` (JLS 14.7).
// By itself for its wrong body: where statements are made it has their drops proved too.
pub fn may_have_label(body: &Statement) -> bool
    ensures { result ≡ is_body (stmt_of body.now) }
{
    is_body(body)
}
