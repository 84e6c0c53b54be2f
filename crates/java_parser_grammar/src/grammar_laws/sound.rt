//! What is read is formed, of at most the nesting that is left, and spells the tokens that were taken.
ghost use Rattle.std.specs.Prelude.{◌≡◌, ◌≤◌, ◌<◌, ℕ, codes, Some, None, List, length, true, IsTrue};
ghost use Rattle.java_tree.specs.declared.words.Spelled.{Spelled};
ghost use Rattle.java_tree.specs.Operators.{unary_level};
ghost use Rattle.java_tree.specs.Trees.{Ty, Expr, Array, Init, Variable, Stmt, Method};
ghost use Rattle.java_tree.specs.Spelling.{commas_onto, variable_onto};
ghost use Rattle.java_tree.specs.Spelling.{ty_onto, expr_onto, array_onto, init_onto, stmt_onto, spelling};
ghost use Rattle.java_tree.specs.FormedModifiers.{Each, has_some};
ghost use Rattle.java_tree.specs.Formed.{FormedVariable};
ghost use Rattle.java_tree.specs.Formed.{FormedTy, FormedExpr, FormedArray, FormedInit, level, FormedStmt};
ghost use Rattle.java_tree.specs.FormedMethods.{FormedMethod};
ghost use Rattle.java_tree.specs.Formed.{goes_on, is_joining};
ghost use Rattle.java_tree.specs.Nesting.{most_over, variable_nesting};
ghost use Rattle.java_tree.specs.Nesting.{ty_nesting, expr_nesting, array_nesting, init_nesting, stmt_nesting};
ghost use Rattle.java_tree.specs.Nesting.{method_nesting};
ghost use Rattle.java_parser_grammar.specs.TypeReading.{ty_at};
ghost use Rattle.java_parser_grammar.specs.ExpressionReading.{read_at, array_at, init_at};
ghost use Rattle.java_parser_grammar.specs.Taking.{after_keyword};
ghost use Rattle.java_parser_grammar.specs.JavaReaders.{method_readers};
ghost use Rattle.java_parser_grammar.specs.StatementReading.{comma_list, variable_at, stmt_at};
ghost use Rattle.java_parser_grammar.specs.MethodReading.{method_at};

/// What is read as a type is formed, of at most this nesting, and spells the tokens that were taken.
pub fn read_types()
    ensures formed { (n : ℕ) (ts : List Spelled) (t : Ty) (rest : List Spelled) → ty_at n ts ≡ Some (t, rest)
        → FormedTy t }
    ensures small { (n : ℕ) (ts : List Spelled) (t : Ty) (rest : List Spelled) → ty_at n ts ≡ Some (t, rest)
        → ty_nesting t ≤ n }
    ensures spelled { (n : ℕ) (ts : List Spelled) (t : Ty) (rest : List Spelled) → ty_at n ts ≡ Some (t, rest)
        → ts ≡ ty_onto t rest }
    ensures shorter { (n : ℕ) (ts : List Spelled) (t : Ty) (rest : List Spelled) → ty_at n ts ≡ Some (t, rest)
        → length rest < length ts }
{}

/// What is read as an expression is formed, of at most this nesting, and spells the tokens that were taken.
pub fn read_expressions()
    ensures formed { (n l : ℕ) (ts : List Spelled) (e : Expr) (rest : List Spelled) → read_at n l ts ≡ Some (e, rest)
        → FormedExpr e }
    ensures high { (n l : ℕ) (ts : List Spelled) (e : Expr) (rest : List Spelled) → l ≤ unary_level
        → read_at n l ts ≡ Some (e, rest) → l ≤ level e }
    ensures small { (n l : ℕ) (ts : List Spelled) (e : Expr) (rest : List Spelled) → read_at n l ts ≡ Some (e, rest)
        → expr_nesting e ≤ n }
    ensures spelled { (n l : ℕ) (ts : List Spelled) (e : Expr) (rest : List Spelled) → read_at n l ts ≡ Some (e, rest)
        → ts ≡ expr_onto e rest }
    ensures shorter { (n l : ℕ) (ts : List Spelled) (e : Expr) (rest : List Spelled) → read_at n l ts ≡ Some (e, rest)
        → length rest < length ts }
{}

/// What is read as an array initialiser is formed, of at most this nesting, and spells the tokens that were taken.
pub fn read_arrays()
    ensures formed { (n : ℕ) (ts : List Spelled) (a : Array) (rest : List Spelled) → array_at n ts ≡ Some (a, rest)
        → FormedArray a }
    ensures small { (n : ℕ) (ts : List Spelled) (a : Array) (rest : List Spelled) → array_at n ts ≡ Some (a, rest)
        → array_nesting a ≤ n }
    ensures spelled { (n : ℕ) (ts : List Spelled) (a : Array) (rest : List Spelled) → array_at n ts ≡ Some (a, rest)
        → ts ≡ array_onto a rest }
    ensures shorter { (n : ℕ) (ts : List Spelled) (a : Array) (rest : List Spelled) → array_at n ts ≡ Some (a, rest)
        → length rest < length ts }
{}

/// What a variable begins with is read as formed, of at most this nesting, and spells the tokens that were taken.
pub fn read_inits()
    ensures formed { (n : ℕ) (ts : List Spelled) (i : Init) (rest : List Spelled) → init_at n ts ≡ Some (i, rest)
        → FormedInit i }
    ensures small { (n : ℕ) (ts : List Spelled) (i : Init) (rest : List Spelled) → init_at n ts ≡ Some (i, rest)
        → init_nesting i ≤ n }
    ensures spelled { (n : ℕ) (ts : List Spelled) (i : Init) (rest : List Spelled) → init_at n ts ≡ Some (i, rest)
        → ts ≡ init_onto i rest }
    ensures shorter { (n : ℕ) (ts : List Spelled) (i : Init) (rest : List Spelled) → init_at n ts ≡ Some (i, rest)
        → length rest < length ts }
{}

/// Variables with commas between them are read as formed, of at most this nesting, at least one, and spell the tokens
/// that were taken.
pub fn read_variables()
    ensures some { (n : ℕ) (ts : List Spelled) (vs : List Variable) (rest : List Spelled)
        → comma_list (variable_at method_readers n) ts ≡ Some (vs, rest) → IsTrue (has_some vs) }
    ensures formed { (n : ℕ) (ts : List Spelled) (vs : List Variable) (rest : List Spelled)
        → comma_list (variable_at method_readers n) ts ≡ Some (vs, rest) → Each FormedVariable vs }
    ensures small { (n : ℕ) (ts : List Spelled) (vs : List Variable) (rest : List Spelled)
        → comma_list (variable_at method_readers n) ts ≡ Some (vs, rest) → most_over variable_nesting vs ≤ n }
    ensures spelled { (n : ℕ) (ts : List Spelled) (vs : List Variable) (rest : List Spelled)
        → comma_list (variable_at method_readers n) ts ≡ Some (vs, rest) → ts ≡ commas_onto variable_onto vs rest }
    ensures shorter { (n : ℕ) (ts : List Spelled) (vs : List Variable) (rest : List Spelled)
        → comma_list (variable_at method_readers n) ts ≡ Some (vs, rest) → length rest < length ts }
{}

/// What is read as a statement is formed, of at most this nesting, spells the tokens that were taken, and leaves no
/// keyword that would belong to it: no `else` to an `if` at its end, and no `catch` and no `finally` to such a `try`.
pub fn read_statements()
    ensures formed { (n : ℕ) (ts : List Spelled) (s : Stmt) (rest : List Spelled)
        → stmt_at method_readers n ts ≡ Some (s, rest) → FormedStmt s }
    ensures small { (n : ℕ) (ts : List Spelled) (s : Stmt) (rest : List Spelled)
        → stmt_at method_readers n ts ≡ Some (s, rest) → stmt_nesting s ≤ n }
    ensures spelled { (n : ℕ) (ts : List Spelled) (s : Stmt) (rest : List Spelled)
        → stmt_at method_readers n ts ≡ Some (s, rest) → ts ≡ stmt_onto s rest }
    ensures shorter { (n : ℕ) (ts : List Spelled) (s : Stmt) (rest : List Spelled)
        → stmt_at method_readers n ts ≡ Some (s, rest) → length rest < length ts }
    ensures greedy { (n : ℕ) (ts : List Spelled) (s : Stmt) (rest : List Spelled)
        → stmt_at method_readers n ts ≡ Some (s, rest) → (word : List ℕ) → is_joining word ≡ true
        → goes_on word s ≡ true → after_keyword word rest ≡ None }
{}

/// What is read as a method is formed, of at most this nesting, and spells the tokens; where none is read, there
/// is none.
pub fn read_methods()
    ensures formed { (n : ℕ) (ts : List Spelled) (m : Method) → method_at method_readers n ts ≡ Some m
        → FormedMethod m }
    ensures small { (n : ℕ) (ts : List Spelled) (m : Method) → method_at method_readers n ts ≡ Some m
        → method_nesting m ≤ n }
    ensures spelled { (n : ℕ) (ts : List Spelled) (m : Method) → method_at method_readers n ts ≡ Some m
        → ts ≡ spelling m }
    ensures none { (n : ℕ) (ts : List Spelled) → method_at method_readers n ts ≡ None → (m : Method) → FormedMethod m
        → method_nesting m ≤ n → ts ≡ spelling m → ⊥ }
{}
