//! A part of a tree that stands in memory of its own.
ghost use Rattle.std.specs.Prelude.{◌≡◌, IfOk};

use racer_base::Memory;
use std::alloc::Global;
use std::marker::Model;

/// A value in memory of its own, which contracts see as the value itself.
///
/// Large parts of rare forms stand in it, so that each tree is as small as the common ones.
#[derive(Drop)]
pub struct Apart<T> {
    value: Box<T>,
}

impl<T> Model for Apart<T> {
    ghost Value = { T };

    ghost coded = { T.code };

    ghost view = { λ part. part.value.value };
}

impl<T> Apart<T> {
    pub fn new(alloc: Global, value: T) -> Result<Apart<T>, Memory>
    where
        T: Drop,
        ensures { IfOk result (λ part. part ≡ value) }
    {
        Ok(Apart {
            value: Box::new(alloc, value)?,
        })
    }

    pub fn get(&self) -> &T
        ensures { result.now ≡ self.now }
    {
        &self.value
    }
}

impl<T> From<Box<T>> for Apart<T> {
    ghost use Rattle.std.specs.Prelude.{◌≡◌};

    ghost from_gives = { λ boxed part. part ≡ boxed.value };

    fn from(value: Box<T>) -> Apart<T> {
        Apart { value }
    }
}
