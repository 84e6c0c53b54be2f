//! The lowering of Java to core code: its definition, and what holds of all programs.
//!
//! Code is a list of parts of a draft, so no sequence stands directly in another. Core code is made of it once for the
//! fields and once for the block of a method, and numbered at the method's end.
//! What a name or an access is stored in is said once (`Storage`), for reads, `=`, `op=`, `++` and `--`. Where a
//! statement stands is a record (`Context`), and the next variable has the number of kinds so far. A class before
//! `.class` is looked for among the classes alone (JLS 6.5.5). A field's initialiser is the statement `x = e;` of the
//! constructor, without variables in scope. A constructor is found by `<new>` and only where it is one, so that every
//! lowering is kinded, of whatever trees. A list beside the fields is made as theirs is (`by_field`).
#![tactic(auto)]

pub mod laws;
