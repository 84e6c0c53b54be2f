//! The operators and their levels, one by one.
ghost use Rattle.std.specs.Prelude.{◌≡◌, codes, true, false};
ghost use Rattle.java_tree.specs.Operators.{binary_level, is_assignment, is_prefix, is_step, is_signed};

/// The levels, and what no operator is named by.
pub fn levels_of_operators()
    ensures levels { (binary_level (codes "||") ≡ 2) × (binary_level (codes "&&") ≡ 3)
        × (binary_level (codes "|") ≡ 4) × (binary_level (codes "^") ≡ 5) × (binary_level (codes "&") ≡ 6)
        × (binary_level (codes "==") ≡ 7) × (binary_level (codes "!=") ≡ 7) × (binary_level (codes "<") ≡ 8)
        × (binary_level (codes ">") ≡ 8) × (binary_level (codes "<=") ≡ 8) × (binary_level (codes ">=") ≡ 8)
        × (binary_level (codes "<<") ≡ 9) × (binary_level (codes ">>") ≡ 9) × (binary_level (codes ">>>") ≡ 9)
        × (binary_level (codes "+") ≡ 10) × (binary_level (codes "-") ≡ 10) × (binary_level (codes "*") ≡ 11)
        × (binary_level (codes "/") ≡ 11) × (binary_level (codes "%") ≡ 11) × (binary_level (codes "=") ≡ 0) }
{}

/// The operators that have one operand or change it (JLS 15.14, 15.15, 15.26).
pub fn other_operators()
    ensures assignments { (is_assignment (codes "=") ≡ true) × (is_assignment (codes "+=") ≡ true)
        × (is_assignment (codes "-=") ≡ true) × (is_assignment (codes "*=") ≡ true)
        × (is_assignment (codes "/=") ≡ true) × (is_assignment (codes "&=") ≡ true)
        × (is_assignment (codes "|=") ≡ true) × (is_assignment (codes "^=") ≡ true)
        × (is_assignment (codes "%=") ≡ true) × (is_assignment (codes "<<=") ≡ true)
        × (is_assignment (codes ">>=") ≡ true) × (is_assignment (codes ">>>=") ≡ true)
        × (is_assignment (codes "<=") ≡ false) × (is_assignment (codes ">=") ≡ false)
        × (is_assignment (codes "!=") ≡ false) × (is_assignment (codes "==") ≡ false) }
    ensures prefixes { (is_prefix (codes "+") ≡ true) × (is_prefix (codes "-") ≡ true)
        × (is_prefix (codes "!") ≡ true) × (is_prefix (codes "~") ≡ true) × (is_prefix (codes "++") ≡ true)
        × (is_prefix (codes "--") ≡ true) × (is_prefix (codes "*") ≡ false) × (is_prefix (codes ">") ≡ false) }
    ensures steps { (is_step (codes "++") ≡ true) × (is_step (codes "--") ≡ true) × (is_step (codes "+") ≡ false)
        × (is_step (codes "-") ≡ false) × (is_step (codes "!") ≡ false) × (is_step (codes "~") ≡ false) }
    ensures signed { (is_signed (codes "+") ≡ true) × (is_signed (codes "-") ≡ true) × (is_signed (codes "++") ≡ true)
        × (is_signed (codes "--") ≡ true) × (is_signed (codes "!") ≡ false) × (is_signed (codes "~") ≡ false) }
{}
