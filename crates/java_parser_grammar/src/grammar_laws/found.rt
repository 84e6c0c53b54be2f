//! Each formed tree is read from its tokens, whatever follows that does not go on with it.
ghost use Rattle.std.specs.Prelude.{◌≡◌, ◌≤◌, ℕ, codes, Some, None, List, [], true, IsTrue};
ghost use Rattle.java_tree.specs.declared.words.Spelled.{Spelled};
ghost use Rattle.java_tree.specs.Trees.{Ty, Expr, Array, Init, Variable, Stmt, Method};
ghost use Rattle.java_tree.specs.Spelling.{commas_onto, variable_onto};
ghost use Rattle.java_tree.specs.Spelling.{ty_onto, expr_onto, array_onto, init_onto, stmt_onto, spelling};
ghost use Rattle.java_tree.specs.FormedModifiers.{Each, has_some};
ghost use Rattle.java_tree.specs.Formed.{FormedVariable};
ghost use Rattle.java_tree.specs.Formed.{FormedTy, FormedExpr, FormedArray, FormedInit, level, ends_open, FormedStmt};
ghost use Rattle.java_tree.specs.FormedMethods.{FormedMethod};
ghost use Rattle.java_tree.specs.Formed.{goes_on, is_joining};
ghost use Rattle.java_tree.specs.Nesting.{most_over, variable_nesting};
ghost use Rattle.java_tree.specs.Nesting.{ty_nesting, expr_nesting, array_nesting, init_nesting, stmt_nesting};
ghost use Rattle.java_tree.specs.Nesting.{method_nesting};
ghost use Rattle.java_parser_grammar.specs.Taking.{after_sign, after_keyword};
ghost use Rattle.java_parser_grammar.specs.TypeReading.{after_brackets, ty_at};
ghost use Rattle.java_parser_grammar.specs.Leads.{pull};
ghost use Rattle.java_parser_grammar.specs.ExpressionReading.{LeavesTypes, read_at, array_at, init_at};
ghost use Rattle.java_parser_grammar.specs.JavaReaders.{method_readers};
ghost use Rattle.java_parser_grammar.specs.StatementReading.{comma_list, variable_at, stmt_at};
ghost use Rattle.java_parser_grammar.specs.MethodReading.{method_at};

/// Each formed type is read, where what follows does not go on with it.
pub fn types_are_read()
    ensures { (t : Ty) → FormedTy t → (n : ℕ) (rest : List Spelled) → ty_nesting t ≤ n
        → after_sign (codes "<") rest ≡ None → after_sign (codes ".") rest ≡ None → after_brackets rest ≡ None
        → ty_at n (ty_onto t rest) ≡ Some (t, rest) }
{}

/// Each formed expression is read, where what follows goes on neither with it, nor with the expression of a lambda at
/// its end, nor with a type that its names would begin.
pub fn expressions_are_read()
    ensures { (e : Expr) → FormedExpr e → (n l : ℕ) (rest : List Spelled) → expr_nesting e ≤ n → l ≤ level e
        → pull rest ≤ l → (IsTrue (ends_open e) → pull rest ≤ 0) → LeavesTypes rest
        → read_at n l (expr_onto e rest) ≡ Some (e, rest) }
{}

/// Each formed array initialiser is read.
pub fn arrays_are_read()
    ensures { (a : Array) → FormedArray a → (n : ℕ) (rest : List Spelled) → array_nesting a ≤ n
        → array_at n (array_onto a rest) ≡ Some (a, rest) }
{}

/// Each formed beginning of a variable is read, where what follows does not go on with it.
pub fn inits_are_read()
    ensures { (i : Init) → FormedInit i → (n : ℕ) (rest : List Spelled) → init_nesting i ≤ n → pull rest ≤ 0
        → LeavesTypes rest → init_at n (init_onto i rest) ≡ Some (i, rest) }
{}

/// Variables with commas between them are read, where what follows goes on with none of them, and also where they end
/// the tokens.
pub fn variables_are_read()
    ensures before { (vs : List Variable) (n : ℕ) (rest : List Spelled) → IsTrue (has_some vs)
        → Each FormedVariable vs → most_over variable_nesting vs ≤ n → pull rest ≤ 0 → LeavesTypes rest
        → after_sign (codes ",") rest ≡ None
        → comma_list (variable_at method_readers n) (commas_onto variable_onto vs rest) ≡ Some (vs, rest) }
    ensures at_the_end { (vs : List Variable) (n : ℕ) → IsTrue (has_some vs) → Each FormedVariable vs
        → most_over variable_nesting vs ≤ n
        → comma_list (variable_at method_readers n) (commas_onto variable_onto vs []) ≡ Some (vs, []) }
{}

/// Each formed statement is read, where no keyword behind it would belong to it: no `else` to an `if` at its end, and
/// no `catch` and no `finally` to such a `try`.
pub fn statements_are_read()
    ensures { (s : Stmt) (n : ℕ) (rest : List Spelled) → FormedStmt s → stmt_nesting s ≤ n
        → ((word : List ℕ) → is_joining word ≡ true → goes_on word s ≡ true → after_keyword word rest ≡ None)
        → stmt_at method_readers n (stmt_onto s rest) ≡ Some (s, rest) }
{}

/// Each formed method is read, and takes all of its tokens.
pub fn methods_are_read()
    ensures { (m : Method) (n : ℕ) → FormedMethod m → method_nesting m ≤ n
        → method_at method_readers n (spelling m) ≡ Some m }
{}
