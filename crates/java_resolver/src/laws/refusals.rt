//! What has no table.
ghost use Rattle.std.specs.Prelude.{◌≡◌, [], ◌∷◌, true, false, codes, None, Some};
ghost use Rattle.java_resolver.specs.declared.fault.ResolveFault.TheVariants as fault;
ghost use Rattle.java_resolver.specs.Refusals.{repeated, same_field, refusal, too_many};
ghost use Rattle.java_resolver.specs.NameExamples.{at, tree, unit, field};

/// Two classes of one name, in one file or in two.
pub fn refused_classes()
    ensures two { refusal (unit (tree (codes "A") 1 [] [] ∷ []) ∷ unit (tree (codes "B") 2 [] []
        ∷ tree (codes "A") 3 [] [] ∷ []) ∷ []) ≡ Some (fault.DuplicateClass (at 3) (at 1)) }
    ensures first_of_three { refusal (unit (tree (codes "A") 1 [] [] ∷ tree (codes "A") 2 [] []
        ∷ tree (codes "A") 3 [] [] ∷ []) ∷ []) ≡ Some (fault.DuplicateClass (at 2) (at 1)) }
    ensures none { refusal (unit (tree (codes "A") 1 [] [] ∷ tree (codes "B") 2 [] [] ∷ []) ∷ []) ≡ None }
    ensures many { too_many 2049 4097 ≡ Some (fault.TooManyClasses 2049) }
    ensures methods { too_many 2048 4097 ≡ Some (fault.TooManyMethods 4097) }
    ensures as_many { too_many 2048 4096 ≡ None }
{}

/// Two fields of one name in one class.
pub fn refused_fields()
    ensures in_two_classes { repeated same_field (field 0 (codes "x") 1 false
        ∷ field 1 (codes "x") 2 false ∷ []) ≡ None }
    ensures in_one { repeated same_field (field 0 (codes "x") 1 false ∷ field 0 (codes "y") 2 false
        ∷ field 0 (codes "x") 3 true ∷ []) ≡ Some (record {
          first = field 0 (codes "x") 1 false;
          second = field 0 (codes "x") 3 true;
        }) }
{}
