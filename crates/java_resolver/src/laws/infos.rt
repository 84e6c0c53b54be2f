//! What is known of fields and methods.
ghost use Rattle.std.specs.Prelude.{◌≡◌, [], ◌∷◌, true, false, codes, map, None};
ghost use Rattle.racer_base.specs.declared.ids.Kind.TheVariants as kind;
ghost use Rattle.java_tree.specs.declared.methods.ModifierTree.TheVariants.{Annotated};
ghost use Rattle.java_tree.specs.declared.methods.ResultTree.TheVariants.{Constructor, Void, Of};
ghost use Rattle.java_tree.specs.View.{ty_of};
ghost use Rattle.java_tree.specs.declared.unit.Member.TheVariants.{Field, Method};
ghost use Rattle.java_resolver.specs.declared.infos.FieldInfo.{FieldInfo};
ghost use Rattle.java_resolver.specs.declared.infos.MethodInfo.{MethodInfo};
ghost use Rattle.java_resolver.specs.TypeKinds.{kind_of};
ghost use Rattle.java_resolver.specs.Declarations.{field_info, member_fields, fields_of, method_info, is_checked};
ghost use Rattle.java_resolver.specs.NameExamples.{at, class, annotation, tree, unit, int, words, ints, absent};
ghost use Rattle.java_resolver.specs.NameExamples.{method_tree, parameter};

/// Each declarator is a field, at its name; the words of the declaration are those of each.
pub fn fields_of_declarations()
    ensures two { map (λ (f : FieldInfo). f.place) (member_fields [] (class 0)
        (Field (ints [] (absent (codes "x") 5 ∷ absent (codes "y") 8 ∷ [])))) ≡ at 5 ∷ at 8 ∷ [] }
    ensures words { field_info [] (class 1) (ints (codes "static" ∷ codes "volatile" ∷ []) []) (absent (codes "x") 5)
        ≡ record {
          class = class 1;
          name = codes "x";
          place = at 5;
          kind = kind_of [] [] (ty_of (int 0));
          is_static = true;
          is_final = false;
          is_volatile = true;
          is_lock = false;
          family = None;
        } }
    ensures final_word { (field_info [] (class 1) (ints (codes "final" ∷ []) [])
        (absent (codes "x") 5)).is_final ≡ true }
    ensures none { member_fields [] (class 0) (Method (method_tree [] Void (codes "x") [])) ≡ [] }
    ensures classes { map (λ (f : FieldInfo). f.class) (fields_of
        (unit (tree (codes "A") 1 [] [] ∷ tree (codes "B") 2 [] (Field (ints [] (absent (codes "x") 5 ∷ [])) ∷ []) ∷ [])
        ∷ unit (tree (codes "C") 3 [] (Field (ints [] (absent (codes "x") 6 ∷ [])) ∷ []) ∷ []) ∷ []))
        ≡ class 1 ∷ class 2 ∷ [] }
{}

/// A constructor is no static method and has the name `<new>`; annotations count by their last name.
pub fn methods_of_trees()
    ensures method { method_info [] (class 1) (method_tree (words (codes "private" ∷ codes "static" ∷ []))
        (Of (int 1)) (codes "f") (parameter (int 0) ∷ [])) ≡ record {
          class = class 1;
          name = codes "f";
          place = at 9;
          parameters = kind_of [] [] (ty_of (int 0)) ∷ [];
          any_number = false;
          result = kind_of [] [] (ty_of (int 1));
          is_static = true;
          is_private = true;
          is_constructor = false;
          main = false;
          not_thread_safe = false;
          hidden = [];
        } }
    ensures constructor { method_info [] (class 1)
        (method_tree (words (codes "static" ∷ [])) Constructor (codes "A") [])
        ≡ record {
          class = class 1;
          name = codes "<new>";
          place = at 9;
          parameters = [];
          any_number = false;
          result = kind.Declared (class 1);
          is_static = false;
          is_private = false;
          is_constructor = true;
          main = false;
          not_thread_safe = false;
          hidden = [];
        } }
    ensures main { (method_info [] (class 0) (method_tree
        (Annotated (annotation (codes "p" ∷ codes "MainThread" ∷ [])) ∷ []) Void (codes "f") [])).main ≡ true }
    ensures ui { (method_info [] (class 0) (method_tree
        (Annotated (annotation (codes "UiThread" ∷ [])) ∷ []) Void (codes "f") [])).main ≡ true }
    ensures not_main { (method_info [] (class 0) (method_tree
        (Annotated (annotation (codes "UiThread" ∷ codes "p" ∷ [])) ∷ []) Void (codes "f") [])).main ≡ false }
    ensures called_unsafe { (method_info [] (class 0) (method_tree
        (Annotated (annotation (codes "NotThreadSafe" ∷ [])) ∷ []) Void (codes "f") [])).not_thread_safe ≡ true }
{}

/// The word `synchronized` in a method that a tree spells makes its class checked.
pub fn classes_of_methods()
    ensures modifier { is_checked (tree (codes "A") 1 [] (Method
        (method_tree (words (codes "synchronized" ∷ [])) Void (codes "f") []) ∷ [])) ≡ true }
    ensures other_modifier { is_checked (tree (codes "A") 1 [] (Method
        (method_tree (words (codes "static" ∷ [])) Void (codes "f") []) ∷ [])) ≡ false }
{}
