//! What classes declare.
ghost use Rattle.std.specs.Prelude.{◌≡◌, [], ◌∷◌, true, false, codes, map};
ghost use Rattle.racer_base.specs.declared.ids.Kind.TheVariants as kind;
ghost use Rattle.java_tree.specs.declared.unit.Member.TheVariants.{Skipped};
ghost use Rattle.java_tree.specs.declared.unit.HeadResult.TheVariants as head;
ghost use Rattle.java_resolver.specs.declared.infos.MethodInfo.{MethodInfo};
ghost use Rattle.java_resolver.specs.Declarations.{is_checked, methods_of, default_constructor, member_methods};
ghost use Rattle.java_resolver.specs.NameExamples.{at, class, annotation, tree, outside, unit};

/// A class is checked by the last name of an annotation, or by the word `synchronized` in a method.
pub fn checked_classes()
    ensures safe { is_checked (tree (codes "A") 1 (annotation (codes "p" ∷ codes "ThreadSafe" ∷ []) ∷ []) []) ≡ true }
    ensures first_name { is_checked (tree (codes "A") 1 (annotation (codes "ThreadSafe" ∷ codes "p" ∷ []) ∷ []) [])
        ≡ false }
    ensures locks { is_checked (tree (codes "A") 1 [] (outside (codes "f") 9 head.Void true ∷ [])) ≡ true }
    ensures no_lock { is_checked (tree (codes "A") 1 [] (outside (codes "f") 9 head.Void false ∷ [])) ≡ false }
    ensures skipped { is_checked (tree (codes "A") 1 [] (Skipped (at 9) ∷ [])) ≡ false }
    ensures called_unsafe { is_checked (tree (codes "A") 1 (annotation (codes "NotThreadSafe" ∷ []) ∷ [])
        (outside (codes "f") 9 head.Void true ∷ [])) ≡ false }
{}

/// A class without a constructor has one, first among its methods and at its name.
pub fn constructors_of_classes()
    ensures made { map (λ (m : MethodInfo). m.place)
        (methods_of (unit (tree (codes "A") 7 [] (outside (codes "f") 9 head.Void false ∷ []) ∷ []) ∷ []))
        ≡ at 7 ∷ at 9 ∷ [] }
    ensures declared { map (λ (m : MethodInfo). m.place)
        (methods_of (unit (tree (codes "A") 7 [] (outside (codes "f") 8 head.Void false
        ∷ outside (codes "<new>") 9 head.Constructor false ∷ []) ∷ []) ∷ [])) ≡ at 8 ∷ at 9 ∷ [] }
    ensures two_units { map (λ (m : MethodInfo). m.result)
        (methods_of (unit (tree (codes "A") 7 [] [] ∷ []) ∷ unit (tree (codes "B") 9 [] [] ∷ []) ∷ []))
        ≡ kind.Declared (class 0) ∷ kind.Declared (class 1) ∷ [] }
{}

/// A method that no tree spells keeps its head; its parameters are of no known kind.
pub fn methods_of_heads()
    ensures void { member_methods [] (class 0) (outside (codes "f") 9 head.Void false) ≡ record {
      class = class 0;
      name = codes "f";
      place = at 9;
      parameters = kind.Other ∷ kind.Other ∷ [];
      any_number = false;
      result = kind.Plain;
      is_static = true;
      is_private = false;
      is_constructor = false;
      main = false;
      not_thread_safe = false;
      hidden = [];
    } ∷ [] }
    ensures constructor { member_methods [] (class 0) (outside (codes "<new>") 9 head.Constructor false) ≡ record {
      class = class 0;
      name = codes "<new>";
      place = at 9;
      parameters = kind.Other ∷ kind.Other ∷ [];
      any_number = false;
      result = kind.Declared (class 0);
      is_static = false;
      is_private = false;
      is_constructor = true;
      main = false;
      not_thread_safe = false;
      hidden = [];
    } ∷ [] }
    ensures unknown { map (λ (m : MethodInfo). m.result) (member_methods [] (class 0)
        (outside (codes "f") 9 head.Unknown false)) ≡ kind.Other ∷ [] }
{}
