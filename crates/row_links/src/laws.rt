//! Laws of lists that have each node once.
ghost use Rattle.std.specs.Prelude.{◌≡◌, ℕ, List, [], ◌∷◌, ◌<◌, length, Some, None};
ghost use Rattle.row_links.specs.Lists.{all_in, moved, spliced, front, front_taken, node_count, HasEachOnce, IsInList};

/// At the start each node stands once, and there are as many as were asked for. Where each node stands once, it does so
/// after each move, and there are as many nodes as before.
pub fn each_stands_once()
    ensures start { (l nodes lists : ℕ) → l < lists → HasEachOnce (all_in l nodes lists) }
    ensures start_count { (l nodes lists : ℕ) → l < lists → node_count (all_in l nodes lists) ≡ nodes }
    ensures moved { (x l : ℕ) (lists : List (List ℕ)) → HasEachOnce lists → x < node_count lists → l < length lists →
        HasEachOnce (moved x l lists) }
    ensures moved_count { (x l : ℕ) (lists : List (List ℕ)) → HasEachOnce lists → x < node_count lists →
        l < length lists → node_count (moved x l lists) ≡ node_count lists }
    ensures spliced { (from to : ℕ) (lists : List (List ℕ)) → HasEachOnce lists → (from ≡ to → ⊥) →
        from < length lists → to < length lists → HasEachOnce (spliced from to lists) }
    ensures spliced_count { (from to : ℕ) (lists : List (List ℕ)) → (from ≡ to → ⊥) → from < length lists →
        to < length lists → node_count (spliced from to lists) ≡ node_count lists }
{}

/// There are as many lists at the start as were asked for, and after each move as many as before.
pub fn lists_stay()
    ensures start { (l nodes lists : ℕ) → length (all_in l nodes lists) ≡ lists }
    ensures moved { (x l : ℕ) (lists : List (List ℕ)) → length (moved x l lists) ≡ length lists }
    ensures spliced { (from to : ℕ) (lists : List (List ℕ)) → length (spliced from to lists) ≡ length lists }
{}

/// A node stands in one list.
pub fn one_list_has_the_node()
    ensures one { (x l m : ℕ) (lists : List (List ℕ)) → HasEachOnce lists → IsInList lists x l →
        IsInList lists x m → l ≡ m }
    ensures some { (x : ℕ) (lists : List (List ℕ)) → HasEachOnce lists → x < node_count lists →
        (l : ℕ) × (l < length lists) × IsInList lists x l }
{}

/// Five nodes in three lists, moved and spliced.
pub fn worked_example()
    ensures start { all_in 0 5 3 ≡ (0 ∷ 1 ∷ 2 ∷ 3 ∷ 4 ∷ []) ∷ [] ∷ [] ∷ [] }
    ensures moves { moved 4 1 (spliced 1 2 (moved 0 2 (moved 3 1 (moved 1 1 (all_in 0 5 3))))) ≡
        (2 ∷ []) ∷ (4 ∷ []) ∷ (0 ∷ 1 ∷ 3 ∷ []) ∷ [] }
    ensures first { front 2 ((2 ∷ []) ∷ (4 ∷ []) ∷ (0 ∷ 1 ∷ 3 ∷ []) ∷ []) ≡ Some 0 }
    ensures taken { front_taken 2 1 ((2 ∷ []) ∷ (4 ∷ []) ∷ (0 ∷ 1 ∷ 3 ∷ []) ∷ []) ≡
        (2 ∷ []) ∷ (4 ∷ 0 ∷ []) ∷ (1 ∷ 3 ∷ []) ∷ [] }
    ensures none { front 0 ([] ∷ (0 ∷ []) ∷ []) ≡ None }
    ensures untouched { front_taken 0 1 ([] ∷ (0 ∷ []) ∷ []) ≡ [] ∷ (0 ∷ []) ∷ [] }
{}
