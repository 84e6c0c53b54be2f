//! Laws of what is analysed again, and worked rows.
ghost use Rattle.std.specs.Prelude.{◌≡◌, [], ◌∷◌, true, false};
ghost use Rattle.racer_base.specs.declared.ids.ClassId.{ClassId};
ghost use Rattle.core_code.specs.Program.{core};
ghost use Rattle.core_code.specs.declared.program.Program.{Program};
ghost use Rattle.transfer_ties.specs.Again.{again, analysed_in};
ghost use Rattle.transfer_ties.specs.Examples as row;
ghost use Rattle.transfer_ties.specs.Forms.{same_code};
ghost use Rattle.transfer_ties.specs.Ties.{ties_classes, ties_fields};

/// Behind a program that has none of its classes each analysed method is analysed.
pub fn all_is_again_behind_others()
    ensures { (p q : Program) → ((c d : ClassId) → ties_classes (core p) (core q) c d ≡ false) →
        again (core p) (core q) ≡ analysed_in (core q) }
{}

/// A class that comes to stand before another; fields of two kinds, and one that is final now.
pub fn tied_rows()
    ensures class { ties_classes row.old row.new (row.class 0) (row.class 1) ≡ true }
    ensures other_class { ties_classes row.old row.new (row.class 0) (row.class 0) ≡ false }
    ensures field { ties_fields row.old row.new (row.field 0) (row.field 0) ≡ true }
    ensures final_field { ties_fields row.old row.new (row.field 1) (row.field 1) ≡ false }
    ensures code { same_code row.old row.new (row.reads 0 5) (row.reads 0 9) ≡ true }
    ensures other_code { same_code row.old row.new (row.reads 1 5) (row.reads 1 5) ≡ false }
{}

/// Of a method that reads a field, one that calls it and one that calls nothing: the field is final in the newer
/// program, so the first is analysed again, and then the second, whose callee has no record any more.
pub fn worked_rows()
    ensures again { again row.old row.new ≡ row.method 0 ∷ row.method 1 ∷ [] }
    ensures all { analysed_in row.new ≡ row.method 0 ∷ row.method 2 ∷ row.method 1 ∷ [] }
{}
