//! Laws of the definitions, and their values on small programs.
ghost use Rattle.std.specs.Prelude.{◌≡◌, ℕ, ◌<◌, true, false, [], ◌∷◌, ◌++◌, ◌&&◌, ◌+◌, length, Some, None, IsTrue};
ghost use Rattle.std.specs.Prelude.{List};
ghost use Rattle.std.specs.Prelude.{slice_get, Contains, map, codes, nat_eq};
ghost use Rattle.std.specs.List.{All};
ghost use Rattle.racer_base.specs.declared.ids.Kind.TheVariants.{Plain};
ghost use Rattle.core_code.specs.declared.code.Op.TheVariants.{Call};
ghost use Rattle.core_code.specs.declared.code.Reason.TheVariants.{Overload};
ghost use Rattle.racer_base.specs.declared.ids.MethodId.{MethodId};
ghost use Rattle.core_code.specs.Chains.{IsOnCycle};
ghost use Rattle.core_code.specs.Core.{Core};
ghost use Rattle.core_code.specs.CalleeRows.{code_rows};
ghost use Rattle.core_code.specs.Calls.{rank_of, calls_of};
ghost use Rattle.racer_base.specs.declared.ids.SiteId.{SiteId};
ghost use Rattle.core_code.specs.Tree.{Tree, Skip, Seq, Choice, Loop, Operation, can_end, can_return, steps_of, op_at};
ghost use Rattle.core_code.specs.Facts.{are_numbers_in_range, are_sites_in_order, are_entries_analysed};
ghost use Rattle.core_code.specs.Facts.{are_stacks_enough, are_parameters_few, has_few_parameters};
ghost use Rattle.core_code.specs.Facts.{sites_of, counts_from, height_after};
ghost use Rattle.core_code.specs.Pair.{pair, step, at, put_at, this, method_put, method_both, lock_elsewhere};
ghost use Rattle.core_code.specs.Pair.{with_method, class_pair, field_a, field_b, method_new, in_class};
ghost use Rattle.core_code.specs.Pair.{call_put, unread_put, after_call, own_sync, returned, thrown, with_parameters};
ghost use Rattle.core_code.specs.CallFacts.{do_end_by_return, are_calls_right, has_ranks};
ghost use Rattle.core_code.specs.KindCheck.{are_kinded};
ghost use Rattle.core_code.specs.Names.{is_identifier, is_field_name, content_name, are_names_right, same_text};
ghost use Rattle.core_code.specs.Names.{do_classes_differ, do_fields_differ};
ghost use Rattle.core_code.specs.Names.{do_methods_differ};

/// What the type of `Program` keeps holds of a class with two methods, and is refused where one number of it is
/// changed.
pub fn pair_is_a_program()
    ensures numbers { IsTrue (are_numbers_in_range pair) }
    ensures sites { IsTrue (are_sites_in_order pair) }
    ensures entries { IsTrue (are_entries_analysed pair) }
    ensures stacks { IsTrue (are_stacks_enough pair) }
    ensures ends { IsTrue (do_end_by_return pair) }
    ensures calls { IsTrue (are_calls_right pair) }
    ensures ranks { IsTrue (has_ranks pair) }
    ensures kinded { IsTrue (are_kinded pair) }
    ensures names_right { IsTrue (are_names_right pair) }
    ensures classes { IsTrue (do_classes_differ pair) }
    ensures fields { IsTrue (do_fields_differ pair) }
    ensures methods { IsTrue (do_methods_differ pair) }
    ensures parameters { IsTrue (are_parameters_few pair) }
    ensures no_field { are_numbers_in_range (record pair { fields = [] }) ≡ false }
    ensures no_file { are_numbers_in_range (record pair { files = [] }) ≡ false }
    ensures no_variable { are_numbers_in_range (with_method (record method_put { variables = [] })) ≡ false }
    ensures no_file_of_a_lock { are_numbers_in_range (with_method lock_elsewhere) ≡ false }
    ensures unchecked { are_entries_analysed (record pair { classes = [] }) ≡ false }
    ensures other_site { are_sites_in_order (with_method (record method_put { code = step 1 (at 1 1) this })) ≡ false }
    ensures empty_stack { height_after (step 0 (at 1 1) (put_at 0)) 1 ≡ None }
    ensures returns { can_end method_both.code ≡ false }
{}

/// How code with a throw can be left. Nothing behind a throw counts; the height of the stack stays as it is.
pub fn throws_of_code()
    ensures throw { can_end thrown ≡ false }
    ensures no_return { can_return thrown ≡ false }
    ensures behind { map can_return (Seq thrown returned ∷ Seq returned thrown ∷ []) ≡ false ∷ true ∷ [] }
    ensures either { map can_return (Choice thrown returned ∷ Choice thrown Skip ∷ []) ≡ true ∷ false ∷ [] }
    ensures past { map can_return (Seq (Choice thrown Skip) returned ∷ Seq (Loop returned) thrown ∷ [])
        ≡ true ∷ true ∷ [] }
    ensures within { map can_return (own_sync (at 1 1) thrown ∷ own_sync (at 1 1) returned ∷ []) ≡ false ∷ true ∷ [] }
    ensures ends { map can_end (Choice thrown Skip ∷ Loop thrown ∷ own_sync (at 1 1) thrown ∷ Seq Skip thrown ∷ [])
        ≡ true ∷ true ∷ false ∷ false ∷ [] }
    ensures height { map (height_after thrown) (0 ∷ 2 ∷ []) ≡ Some 0 ∷ Some 2 ∷ [] }
{}

/// Which names are identifiers, and when names differ enough.
pub fn names_of_programs()
    ensures identifiers { map is_identifier (codes "Pair" ∷ codes "$a_1" ∷ codes "_" ∷ codes "class1" ∷ [])
        ≡ true ∷ true ∷ true ∷ true ∷ [] }
    ensures others { map is_identifier
        (codes "" ∷ codes "<new>" ∷ codes "1a" ∷ codes "a b" ∷ codes "class" ∷ codes "null" ∷ [])
        ≡ false ∷ false ∷ false ∷ false ∷ false ∷ false ∷ [] }
    ensures class_name { are_names_right (record pair { classes = record class_pair { name = codes "<new>" } ∷ [] })
        ≡ false }
    ensures field_name { are_names_right (record pair { fields = record field_a { name = codes "int" } ∷ [] }) ≡ false }
    ensures classes { do_classes_differ (record pair { classes = class_pair ∷ class_pair ∷ [] }) ≡ false }
    ensures fields { do_fields_differ (record pair { fields = field_a ∷ field_b ∷ field_a ∷ [] }) ≡ false }
    ensures of_classes { do_fields_differ (record pair { fields = field_a ∷ in_class 1 field_a ∷ [] }) ≡ true }
    ensures methods { do_methods_differ (record pair { methods = method_put ∷ method_put ∷ [] }) ≡ false }
    ensures overload { do_methods_differ
        (record pair { methods = method_put ∷ record method_put { status = Some Overload } ∷ [] }) ≡ true }
    ensures counts { do_methods_differ
        (record pair { methods = method_put ∷ record method_put { parameters = Plain ∷ [] } ∷ [] }) ≡ true }
{}

/// The name of a field is not empty, and neither a dot (byte 46) nor a number sign (byte 35) is in it, so that it can
/// be read back from a text where these stand round it. That of the content of a container tells the container's name,
/// and is no identifier.
pub fn field_names_stand_in_texts()
    ensures not_empty { is_field_name [] ≡ false }
    ensures content { is_field_name (codes "names[]") ≡ true }
    ensures no_content { is_field_name (codes "[]") ≡ false }
    ensures of_identifiers { (name : List ℕ) → is_field_name (content_name name) ≡ is_identifier name }
    ensures contents_differ { (name other : List ℕ) → IsTrue (is_identifier name) →
        same_text name (content_name other) ≡ false }
    ensures no_dot { (name : List ℕ) → IsTrue (is_field_name name) → All (λ b. nat_eq b 46 ≡ false) name }
    ensures no_number_sign { (name : List ℕ) → IsTrue (is_field_name name) → All (λ b. nat_eq b 35 ≡ false) name }
{}

/// Which methods have few parameters: 64 and no more, where they are analysed.
pub fn parameters_of_programs()
    ensures most { has_few_parameters (with_parameters 64 None) ≡ true }
    ensures more { has_few_parameters (with_parameters 65 None) ≡ false }
    ensures not_analysed { has_few_parameters (with_parameters 65 (Some Overload)) ≡ true }
{}

/// When calls, ranks and the ends of code are right. The methods of the class are 0, 1 and 2.
pub fn calls_of_programs()
    ensures call { are_calls_right (after_call call_put None) ≡ true }
    ensures not_analysed { are_calls_right (after_call call_put (Some Overload)) ≡ false }
    ensures unread { are_calls_right (after_call unread_put (Some Overload)) ≡ true }
    ensures analysed { are_calls_right (after_call unread_put None) ≡ false }
    ensures other_count { are_calls_right (after_call (Call (record { 0 = 1 }) 2) None) ≡ false }
    ensures no_method { are_calls_right (after_call (Call (record { 0 = 3 }) 1) None) ≡ false }
    ensures ranks { has_ranks (after_call call_put None) ≡ true }
    ensures rank_of_caller { rank_of (after_call call_put None) (record { 0 = 2 }) ≡ 2 }
    ensures itself { has_ranks (after_call (Call (record { 0 = 2 }) 1) None) ≡ false }
    ensures goes_on { do_end_by_return (with_method (record method_put { code = step 0 (at 1 1) this })) ≡ false }
{}

/// Any numbers of methods that fall along calls, and are smaller than the number of methods, show that there are ranks.
pub fn numbers_show_ranks()
    ensures { (core : Core) (number : MethodId → ℕ) →
        ((m n : MethodId) → Contains (calls_of core m) n → number n < number m) →
        ((m : MethodId) → m.0 < length core.methods → number m < length core.methods) → IsTrue (has_ranks core) }
{}

/// Where each method that is called is there, and none is on a cycle of calls, there are ranks.
pub fn no_cycles_show_ranks()
    ensures { (core : Core) → ((m n : MethodId) → Contains (calls_of core m) n → n.0 < length core.methods) →
        ((m : MethodId) → IsOnCycle (code_rows core) m → ⊥) → IsTrue (has_ranks core) }
{}

/// Sites that go on where others end count from where those began.
pub fn sites_go_on()
    ensures { (n : ℕ) (first rest : List SiteId) → IsTrue (counts_from n first) →
        IsTrue (counts_from (n + length first) rest) → IsTrue (counts_from n (first ++ rest)) }
{}

/// Where the sites of code are 0, 1 and so on, a site is the index of its operation, and each operation is the one at
/// its site.
pub fn sites_are_indices()
    ensures index { (code : Tree) (site : SiteId) → IsTrue (counts_from 0 (sites_of code)) →
        op_at code site ≡ slice_get (steps_of code) site.0 }
    ensures each { (code : Tree) (o : Operation) → IsTrue (counts_from 0 (sites_of code)) →
        Contains (steps_of code) o → op_at code o.site ≡ Some o }
{}
