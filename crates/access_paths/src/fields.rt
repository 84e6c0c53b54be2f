//! The fields of a path.
ghost use Rattle.std.specs.Prelude.{◌≡◌, ◌≤◌, [], IfOk, IsTrue, ◌↔◌, length};
ghost use Rattle.racer_base.specs.declared.limits.TheConstants.{MAX_PATH_FIELDS};

use racer_base::{FieldId, MAX_PATH_FIELDS, Memory};
use std::alloc::Global;
use std::marker::Model;

/// At most sixteen fields, which contracts see as their list.
#[derive(Drop)]
pub struct PathFields {
    items: Vec<FieldId>,
}

impl Model for PathFields {
    ghost use Rattle.std.specs.Prelude.{List, ◌≤◌, length};
    ghost use Rattle.std.specs.Coded.{coded_list};
    ghost use Rattle.racer_base.specs.declared.ids.FieldId.{FieldId};
    ghost use Rattle.racer_base.specs.contracts.ids.FieldId as field;
    ghost use Rattle.racer_base.specs.declared.limits.TheConstants.{MAX_PATH_FIELDS};

    ghost Value = { List FieldId };

    ghost coded = { coded_list field.the_row.coded };

    ghost view = { λ fields. fields.items.items };

    ghost invariant = { λ fields. length fields.items.items ≤ MAX_PATH_FIELDS };
}

impl PathFields {
    pub fn new(alloc: Global) -> PathFields
        ensures { result ≡ [] }
    {
        PathFields {
            items: Vec::new(alloc),
        }
    }

    /// These fields, without taking memory.
    pub fn from_vec(items: Vec<FieldId>) -> PathFields
        requires { length items.items ≤ MAX_PATH_FIELDS }
        ensures { result ≡ items.items }
    {
        PathFields { items }
    }

    pub fn as_slice(&self) -> &[FieldId]
        ensures { result.now ≡ self.now }
    {
        self.items.as_slice()
    }

    pub fn len(&self) -> usize
        ensures count { result ≡ length self.now }
        ensures limit { length self.now ≤ MAX_PATH_FIELDS }
    {
        self.items.len()
    }

    pub fn is_empty(&self) -> bool
        ensures { IsTrue result ↔ (self.now ≡ []) }
    {
        self.items.is_empty()
    }

    /// Fields that are equal to these.
    pub fn copied(&self, alloc: Global) -> Result<PathFields, Memory>
        ensures { IfOk result (λ copy. copy ≡ self.now) }
    {
        Ok(PathFields {
            items: Vec::from_slice(alloc, self.items.as_slice())?,
        })
    }
}
