//! Two formed trees with one spelling are equal.
ghost use Rattle.std.specs.Prelude.{◌≡◌, List, [], IsTrue};
ghost use Rattle.java_tree.specs.Trees.{Ty, Expr, Array, Init, Variable, Stmt, Method};
ghost use Rattle.java_tree.specs.Spelling.{commas_onto, variable_onto};
ghost use Rattle.java_tree.specs.Spelling.{ty_onto, expr_onto, array_onto, init_onto, stmt_onto, spelling};
ghost use Rattle.java_tree.specs.FormedModifiers.{Each, has_some};
ghost use Rattle.java_tree.specs.Formed.{FormedVariable};
ghost use Rattle.java_tree.specs.FormedMethods.{FormedMethod};
ghost use Rattle.java_tree.specs.Formed.{FormedTy, FormedExpr, FormedArray, FormedInit, FormedStmt};

/// Two formed types with one spelling are equal.
pub fn one_type()
    ensures { (a b : Ty) → FormedTy a → FormedTy b → ty_onto a [] ≡ ty_onto b [] → a ≡ b }
{}

/// Two formed expressions with one spelling are equal.
pub fn one_expression()
    ensures { (a b : Expr) → FormedExpr a → FormedExpr b → expr_onto a [] ≡ expr_onto b [] → a ≡ b }
{}

/// Two formed array initialisers with one spelling are equal.
pub fn one_array()
    ensures { (a b : Array) → FormedArray a → FormedArray b → array_onto a [] ≡ array_onto b [] → a ≡ b }
{}

/// Two formed beginnings of variables with one spelling are equal.
pub fn one_init()
    ensures { (a b : Init) → FormedInit a → FormedInit b → init_onto a [] ≡ init_onto b [] → a ≡ b }
{}

/// Two formed lists of variables with one spelling are equal.
pub fn one_list_of_variables()
    ensures { (a b : List Variable) → IsTrue (has_some a) → IsTrue (has_some b) → Each FormedVariable a
        → Each FormedVariable b → commas_onto variable_onto a [] ≡ commas_onto variable_onto b [] → a ≡ b }
{}

/// Two formed statements with one spelling are equal.
pub fn one_statement()
    ensures { (a b : Stmt) → FormedStmt a → FormedStmt b → stmt_onto a [] ≡ stmt_onto b [] → a ≡ b }
{}

/// Two formed methods with one spelling are equal.
pub fn one_method()
    ensures { (a b : Method) → FormedMethod a → FormedMethod b → spelling a ≡ spelling b → a ≡ b }
{}
