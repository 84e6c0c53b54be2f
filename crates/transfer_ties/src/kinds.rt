//! Kinds of values, by the partners of classes.
ghost use Rattle.std.specs.Prelude.{◌≡◌};
ghost use Rattle.transfer_ties.specs.Names as named;

use crate::partners::{is_class, partner};
use racer_base::{ClassId, Kind};

/// Whether two kinds are the same, where classes have these partners.
pub(crate) fn same_kind(classes: &[Option<ClassId>], old: Kind, new: Kind) -> bool
    ensures { result ≡ named.same_kind classes.now old new }
{
    match (old, new) {
        (Kind::Plain, Kind::Plain) | (Kind::Other, Kind::Other) => true,
        (Kind::Declared(old), Kind::Declared(new)) => is_class(partner(classes, old), new),
        _ => false,
    }
}

/// Whether kinds are the same, one by one.
pub(crate) fn same_kinds(classes: &[Option<ClassId>], olds: &[Kind], news: &[Kind]) -> bool
    ensures { result ≡ named.same_kinds classes.now olds.now news.now }
{
    if olds.len() != news.len() {
        return false;
    }
    for (old, new) in olds.iter().zip(news) {
        if !same_kind(classes, *old, *new) {
            return false;
        }
    }
    true
}
