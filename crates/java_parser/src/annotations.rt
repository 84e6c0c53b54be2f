//! Annotations of classes (JLS 9.7.4).
ghost use Rattle.std.specs.Prelude.{◌≡◌, map, IfOk, OnOk};
ghost use Rattle.java_tree.specs.View.{annotation_of, modifier_of};
ghost use Rattle.java_parser_grammar.specs.ClassHeads.{annotations_in};
ghost use Rattle.java_parser.specs.ClassAnnotations.{added};

use java_tree::{AnnotationTree, ModifierTree};
use racer_base::{Items, Memory};
use std::alloc::Global;

/// Puts an annotation behind others; a word is let go.
fn add(items: &mut Items<AnnotationTree>, modifier: ModifierTree) -> Result<(), Memory>
    ensures { OnOk result (map annotation_of items.new ≡ added (map annotation_of items.old) (modifier_of modifier)) }
{
    match modifier {
        ModifierTree::Annotated(annotation) => items.push(annotation),
        ModifierTree::Word(_) => Ok(()),
    }
}

/// The annotations among modifiers; the words are let go.
pub fn annotations(
    alloc: Global,
    modifiers: Vec<ModifierTree>,
) -> Result<Items<AnnotationTree>, Memory>
    ensures { IfOk result (λ items. map annotation_of items ≡ annotations_in (map modifier_of modifiers.items)) }
{
    let mut items = Items::new(alloc);
    for modifier in modifiers {
        add(&mut items, modifier)?;
    }
    Ok(items)
}
