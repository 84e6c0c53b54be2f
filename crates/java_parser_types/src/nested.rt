//! Trees with their nesting.
ghost use Rattle.std.specs.Prelude.{◌≡◌, map};
ghost use Rattle.java_tree.specs.Nesting.{most_over, ty_nesting, base_nesting, part_nesting, angled_nesting};
ghost use Rattle.java_tree.specs.Nesting.{argument_nesting, maybe_angled_nesting};
ghost use Rattle.java_tree.specs.View.{ty_of, base_of, part_of, angled_of, argument_of, types_of};

use java_tree::{BaseType, TypeArgument, TypeArguments, TypePart, TypeTree};
use racer_base::Items;

#[derive(Drop)]
pub struct NestedType {
    pub tree: TypeTree,
    pub nesting: u32,
    ghost measured: { nesting ≡ ty_nesting (ty_of tree) },
}

#[derive(Drop)]
pub struct NestedTypes {
    pub trees: Vec<TypeTree>,
    pub nesting: u32,
    ghost measured: { nesting ≡ most_over ty_nesting (map ty_of trees.items) },
}

/// The types before the name of a method that is called, none where there are no brackets, and whether the `>` behind
/// them is glued to the `>` before it (JLS 15.12, 15.13).
#[derive(Drop)]
pub struct NestedExact {
    pub trees: Items<TypeTree>,
    pub glued: bool,
    pub nesting: u32,
    ghost measured: { nesting ≡ maybe_angled_nesting (types_of trees glued) },
}

#[derive(Drop)]
pub struct NestedBase {
    pub tree: BaseType,
    pub nesting: u32,
    ghost measured: { nesting ≡ base_nesting (base_of tree) },
}

#[derive(Drop)]
pub struct NestedPart {
    pub tree: TypePart,
    pub nesting: u32,
    ghost measured: { nesting ≡ part_nesting (part_of tree) },
}

#[derive(Drop)]
pub struct NestedAngled {
    pub tree: TypeArguments,
    pub nesting: u32,
    ghost measured: { nesting ≡ angled_nesting (angled_of tree) },
}

#[derive(Drop)]
pub struct NestedArgument {
    pub tree: TypeArgument,
    pub nesting: u32,
    ghost measured: { nesting ≡ argument_nesting (argument_of tree) },
}
