//! The words and annotations of declarations.
ghost use Rattle.std.specs.Prelude.{◌≡◌};
ghost use Rattle.std.specs.List.{list_any};
ghost use Rattle.java_resolver.specs.Words.{ends_with, is_annotation_named, is_modifier_named, is_word, has_word};
ghost use Rattle.java_resolver.specs.Words.{is_annotated};
ghost use Rattle.java_resolver.specs.Declarations.{has_synchronized, is_checked};

use java_tree::{AnnotationTree, ClassTree, Member, ModifierTree};
use racer_base::Text;

/// Whether the last of the names is this one.
#[tactic(auto, using(crate::proofs::LastNames::ends_with_last))]
fn ends_with(names: &[Text], name: &str) -> bool
    ensures { result ≡ ends_with name.now names.now }
{
    match names {
        [] => false,
        [.., last] => last.as_str() == name,
    }
}

/// Whether a modifier is this word.
fn is_word(modifier: &ModifierTree, word: &str) -> bool
    ensures { result ≡ is_word word.now modifier.now }
{
    match modifier {
        ModifierTree::Word(text) => text.as_str() == word,
        ModifierTree::Annotated(_) => false,
    }
}

/// Whether a modifier is an annotation of this last name.
fn is_modifier_named(modifier: &ModifierTree, name: &str) -> bool
    ensures { result ≡ is_modifier_named name.now modifier.now }
{
    match modifier {
        ModifierTree::Annotated(annotation) => ends_with(annotation.names.as_slice(), name),
        ModifierTree::Word(_) => false,
    }
}

/// Whether a word stands among the modifiers.
pub fn has_word(modifiers: &[ModifierTree], word: &str) -> bool
    ensures { result ≡ has_word word.now modifiers.now }
{
    for modifier in modifiers {
        if is_word(modifier, word) {
            return true;
        }
    }
    false
}

/// Whether an annotation of this last name stands among the modifiers.
pub fn is_annotated(modifiers: &[ModifierTree], name: &str) -> bool
    ensures { result ≡ is_annotated name.now modifiers.now }
{
    for modifier in modifiers {
        if is_modifier_named(modifier, name) {
            return true;
        }
    }
    false
}

/// Whether one of the annotations has this last name.
fn has_annotation(annotations: &[AnnotationTree], name: &str) -> bool
    ensures { result ≡ list_any (is_annotation_named name.now) annotations.now }
{
    for annotation in annotations {
        if ends_with(annotation.names.as_slice(), name) {
            return true;
        }
    }
    false
}

/// Whether the word `synchronized` stands in a method or constructor.
fn has_synchronized(member: &Member) -> bool
    ensures { result ≡ has_synchronized member.now }
{
    match member {
        Member::Method(method) => method.has_synchronized,
        Member::Outside(head) => head.has_synchronized,
        Member::Field(_) | Member::Skipped(_) => false,
    }
}

/// Whether the word `synchronized` stands in one of the methods and constructors.
fn any_has_synchronized(members: &[Member]) -> bool
    ensures { result ≡ list_any has_synchronized members.now }
{
    for member in members {
        if has_synchronized(member) {
            return true;
        }
    }
    false
}

/// Whether a class is analysed for races.
pub fn is_checked(class: &ClassTree) -> bool
    ensures { result ≡ is_checked class.now }
{
    let annotations = class.annotations.as_slice();
    if has_annotation(annotations, "NotThreadSafe") {
        return false;
    }
    if has_annotation(annotations, "ThreadSafe") {
        return true;
    }
    any_has_synchronized(class.members.as_slice())
}
