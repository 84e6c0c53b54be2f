//! Programs of small units.
ghost use Rattle.std.specs.Prelude.{◌≡◌, ℕ, Bool, List, [], ◌∷◌, Some, None, true, false, codes, map, IsTrue};
ghost use Rattle.container_cells.specs.declared.cell.Containers.{Containers};
ghost use Rattle.container_cells.specs.declared.cell.Containers.TheVariants.{Opaque};
ghost use Rattle.racer_base.specs.declared.ids.MethodId.{MethodId};
ghost use Rattle.java_tree.specs.declared.methods.ResultTree.TheVariants.{Constructor, Void};
ghost use Rattle.java_tree.specs.declared.unit.Unit.{Unit};
ghost use Rattle.java_tree.specs.declared.unit.HeadResult.TheVariants as head;
ghost use Rattle.java_tree.specs.declared.unit.ClassTree.{ClassTree};
ghost use Rattle.java_tree.specs.declared.unit.Member.TheVariants.{Field};
ghost use Rattle.java_resolver.specs.NameExamples.{outside, ints, absent};
ghost use Rattle.java_resolver.specs.Declarations.{field_info, fields_of, names_of};
ghost use Rattle.java_resolver.specs.Refusals.{refusal};
ghost use Rattle.core_code.specs.Chains.{flag_of};
ghost use Rattle.core_code.specs.declared.code.Op.TheVariants.{Push, PushClass, PushPrim, Drop, Ret, Call, Unread};
ghost use Rattle.core_code.specs.declared.code.Reason.TheVariants.{Overload, Outside, Parameters, Recursive};
ghost use Rattle.core_code.specs.Core.{Method};
ghost use Rattle.core_code.specs.Facts.{are_numbers_in_range, are_sites_in_order, are_entries_analysed};
ghost use Rattle.core_code.specs.Facts.{are_stacks_enough, are_parameters_few};
ghost use Rattle.core_code.specs.CallFacts.{do_end_by_return, are_calls_right, has_ranks};
ghost use Rattle.core_code.specs.Recursion.{all_rows, TellRecursion};
ghost use Rattle.core_code.specs.KindCheck.{are_kinded};
ghost use Rattle.core_code.specs.Names.{are_names_right, do_classes_differ, do_fields_differ, do_methods_differ};
ghost use Rattle.core_code.specs.Tree.{Skip, Seq, Choice, Loop, in_sequence};
ghost use Rattle.core_code.specs.Pair.{at, own_sync, step, pair, method_put, method_both};
ghost use Rattle.core_lowering_drafts.specs.Sites.{numbered};
ghost use Rattle.core_lowering_rules.specs.Programs.{program_of, draft_of, in_order, call_edges};
ghost use Rattle.core_lowering_rules.specs.ByField.{by_field};
ghost use Rattle.core_lowering_rules.specs.Conditions.{class_places, are_in_files, are_named};
ghost use Rattle.core_lowering_rules.specs.ProgramExamples.{placed_class, placed_unit};
ghost use Rattle.core_lowering_rules.specs.ProgramExamples.{checked_class, empty_method, void_method, methods_of};
ghost use Rattle.core_lowering_rules.specs.ProgramExamples.{statuses_of, codes_of};

/// Why methods are not analysed; the first of these is the constructor that a class does not declare.
pub fn statuses_of_programs()
    ensures analysed { statuses_of (checked_class (void_method (codes "f") ∷ [])) ≡ None ∷ None ∷ [] }
    ensures overload { statuses_of (checked_class (void_method (codes "f") ∷ empty_method [] Void (codes "f") 1
        ∷ outside (codes "f") 9 head.Void false ∷ void_method (codes "f") ∷ []))
        ≡ None ∷ Some Overload ∷ None ∷ Some Outside ∷ Some Overload ∷ [] }
    ensures parameters { statuses_of (checked_class (empty_method [] Void (codes "f") 64
        ∷ empty_method [] Void (codes "g") 65 ∷ [])) ≡ None ∷ None ∷ Some Parameters ∷ [] }
    ensures recursive { map (λ (m : Method). m.status) (program_of Opaque [] (checked_class (void_method (codes "f")
        ∷ outside (codes "g") 9 head.Void false ∷ [])) (flag_of (true ∷ false ∷ true ∷ []))).methods
        ≡ Some Recursive ∷ None ∷ Some Outside ∷ [] }
{}

/// What other threads may call: analysed methods of a checked class that are not private, and no constructor.
pub fn entries_of_programs()
    ensures checked { map (λ (m : Method). m.entry) (methods_of (checked_class (void_method (codes "f")
        ∷ empty_method (codes "private" ∷ []) Void (codes "g") 0 ∷ outside (codes "h") 9 head.Void false ∷ [])))
        ≡ false ∷ true ∷ false ∷ false ∷ [] }
{}

/// The code of whole methods, numbered.
pub fn codes_of_programs()
    ensures locks { codes_of (checked_class (empty_method (codes "synchronized" ∷ []) Constructor (codes "A") 0
        ∷ empty_method (codes "static" ∷ codes "synchronized" ∷ []) Void (codes "f") 0 ∷ []))
        ≡ in_sequence (step 0 (at 1 9) (Push (record { 0 = 0 })) ∷ own_sync (at 1 9) Skip
        ∷ step 1 (at 1 9) (Push (record { 0 = 0 })) ∷ step 2 (at 1 9) Ret ∷ [])
        ∷ in_sequence (step 0 (at 1 9) (PushClass (record { 0 = 0 })) ∷ own_sync (at 1 9) Skip
        ∷ step 1 (at 1 9) PushPrim ∷ step 2 (at 1 9) Ret ∷ []) ∷ [] }
{}

/// Operations are numbered in reading order.
pub fn sites()
    ensures { numbered 5 (Seq (Choice (step 0 (at 1 1) Ret) (own_sync (at 1 2) (step 0 (at 1 3) Drop)))
        (Seq (Loop (step 0 (at 1 4) Drop)) (step 0 (at 1 5) Ret)))
        ≡ Seq (Choice (step 5 (at 1 1) Ret) (own_sync (at 1 2) (step 6 (at 1 3) Drop)))
        (Seq (Loop (step 7 (at 1 4) Drop)) (step 8 (at 1 5) Ret)) }
{}

/// Places go by file, line and column.
pub fn ordered_places()
    ensures { in_order (at 2 1 ∷ at 1 9 ∷ at 3 1 ∷ at 1 7 ∷ []) ≡ at 1 7 ∷ at 1 9 ∷ at 2 1 ∷ at 3 1 ∷ [] }
{}

/// Calls of one method from one place or from several are one pair; calls of unread methods count.
pub fn draft_edges()
    ensures { call_edges (record pair {
      methods = record method_put {
        code = in_sequence
            (step 0 (at 1 1) (Call (record { 0 = 1 }) 1) ∷ step 1 (at 1 1) (Unread (record { 0 = 1 }) 1)
            ∷ step 2 (at 1 1) (Unread (record { 0 = 0 }) 1) ∷ []);
      }
          ∷ record method_both { code = step 0 (at 1 1) (Unread (record { 0 = 1 }) 1) } ∷ [];
    }) ≡ 3 }
{}

/// When the places of units are in files, and their names are identifiers.
pub fn conditions_of_units()
    ensures places { map (λ (t : ClassTree). class_places t) (placed_class ∷ [])
        ≡ (at 1 7 ∷ at 1 9 ∷ at 1 3 ∷ at 1 5 ∷ at 1 6 ∷ []) ∷ [] }
    ensures inside { are_in_files (codes "A.java" ∷ []) (placed_unit ∷ []) ≡ true }
    ensures no_file { are_in_files [] (placed_unit ∷ []) ≡ false }
    ensures nothing { are_in_files [] [] ≡ true }
    ensures skipped { are_in_files (codes "A.java" ∷ []) (record placed_unit {
      skipped = record (at 1 1) { file = record { 0 = 1 } } ∷ [];
    } ∷ []) ≡ false }
    ensures named { are_named (placed_unit ∷ []) ≡ true }
    ensures class_name { are_named (record placed_unit {
      classes = record placed_class { name = codes "class" } ∷ [];
    } ∷ []) ≡ false }
    ensures field_name { are_named (record placed_unit {
      classes = record placed_class { members = Field (ints [] (absent (codes "int") 4 ∷ [])) ∷ [] } ∷ [];
    } ∷ []) ≡ false }
{}

/// What every program of units keeps, with cells of containers and without, whichever methods are taken for recursive.
/// Whatever the units, the code of all methods is kinded, pops no empty stack and calls rightly, that of an analysed
/// method ends by returns and throws alone, analysed methods differ, and have few parameters. Numbers are in range
/// where the places of the units are in the files, names are right where those of the units are identifiers, and classes
/// and fields differ where the units are not refused; fields with what containers hold among them, where their names are
/// identifiers.
pub fn facts_of_programs()
    ensures kinded { (containers : Containers) (files : List (List ℕ)) (units : List Unit)
        (is_recursive : MethodId → Bool) → IsTrue (are_kinded (program_of containers files units is_recursive)) }
    ensures stacks { (containers : Containers) (files : List (List ℕ)) (units : List Unit)
        (is_recursive : MethodId → Bool) → IsTrue (are_stacks_enough (program_of containers files units is_recursive)) }
    ensures calls { (containers : Containers) (files : List (List ℕ)) (units : List Unit)
        (is_recursive : MethodId → Bool) → IsTrue (are_calls_right (program_of containers files units is_recursive)) }
    ensures sites { (containers : Containers) (files : List (List ℕ)) (units : List Unit)
        (is_recursive : MethodId → Bool) →
        IsTrue (are_sites_in_order (program_of containers files units is_recursive)) }
    ensures entries { (containers : Containers) (files : List (List ℕ)) (units : List Unit)
        (is_recursive : MethodId → Bool) →
        IsTrue (are_entries_analysed (program_of containers files units is_recursive)) }
    ensures ends { (containers : Containers) (files : List (List ℕ)) (units : List Unit)
        (is_recursive : MethodId → Bool) → IsTrue (do_end_by_return (program_of containers files units is_recursive)) }
    ensures methods { (containers : Containers) (files : List (List ℕ)) (units : List Unit)
        (is_recursive : MethodId → Bool) → IsTrue (do_methods_differ (program_of containers files units is_recursive)) }
    ensures parameters { (containers : Containers) (files : List (List ℕ)) (units : List Unit)
        (is_recursive : MethodId → Bool) →
        IsTrue (are_parameters_few (program_of containers files units is_recursive)) }
    ensures numbers { (containers : Containers) (files : List (List ℕ)) (units : List Unit)
        (is_recursive : MethodId → Bool) → IsTrue (are_in_files files units) →
        IsTrue (are_numbers_in_range (program_of containers files units is_recursive)) }
    ensures names_right { (containers : Containers) (files : List (List ℕ)) (units : List Unit)
        (is_recursive : MethodId → Bool) →
        IsTrue (are_named units) → IsTrue (are_names_right (program_of containers files units is_recursive)) }
    ensures classes { (containers : Containers) (files : List (List ℕ)) (units : List Unit)
        (is_recursive : MethodId → Bool) →
        refusal units ≡ None → IsTrue (do_classes_differ (program_of containers files units is_recursive)) }
    ensures fields { (files : List (List ℕ)) (units : List Unit) (is_recursive : MethodId → Bool) →
        refusal units ≡ None → IsTrue (do_fields_differ (program_of Opaque files units is_recursive)) }
    ensures named_fields { (containers : Containers) (files : List (List ℕ)) (units : List Unit)
        (is_recursive : MethodId → Bool) → refusal units ≡ None → IsTrue (are_named units) →
        IsTrue (do_fields_differ (program_of containers files units is_recursive)) }
{}

/// The fields of units are what `by_field` makes of the declarations, as each list beside theirs is to be.
pub fn fields_by_field()
    ensures { (units : List Unit) → fields_of units ≡ by_field (field_info (names_of units)) units }
{}

/// Methods call the same methods, whichever are taken for recursive. So there are ranks where those are that are
/// recursive in the draft, and no others.
pub fn ranks_of_programs()
    ensures same_calls { (containers : Containers) (files : List (List ℕ)) (units : List Unit)
        (is_recursive : MethodId → Bool) →
        all_rows (program_of containers files units is_recursive) ≡ all_rows (draft_of containers files units) }
    ensures ranks { (containers : Containers) (files : List (List ℕ)) (units : List Unit) (flags : List Bool) →
        TellRecursion (draft_of containers files units) flags →
        IsTrue (has_ranks (program_of containers files units (flag_of flags))) }
{}
