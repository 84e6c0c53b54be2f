//! Paths.
ghost use Rattle.std.specs.Prelude.{◌≡◌, false, IfOk};
ghost use Rattle.access_paths.specs.Order.{path_cmp, root_form, root_number};
ghost use Rattle.access_paths.specs.Paths.{alone, some_path, front, extended, is_some_root};

use crate::PathFields;
use racer_base::{ClassId, FieldId, MAX_PATH_FIELDS, Memory};
use std::alloc::Global;
use std::cmp::Ordering;
use std::hash::{Hash, Hasher};

/// Where a path begins.
#[derive(Clone, Copy, PartialEq, Eq)]
pub enum Root {
    /// The receiver.
    This,
    /// A class, for its static fields.
    Class(ClassId),
    /// The parameter of this number, from 0.
    Formal(u32),
    /// Some object of a class, of which nothing more is known.
    Some(ClassId),
}

impl Root {
    /// Whether nothing more than the class of the object is known.
    pub fn is_some(self) -> bool
        ensures { result ≡ is_some_root self }
    {
        matches!(self, Root::Some(_))
    }

    /// The number of the form of a root.
    fn form(self) -> u32
        ensures { result ≡ root_form self }
    {
        match self {
            Root::This => 0,
            Root::Class(_) => 1,
            Root::Formal(_) => 2,
            Root::Some(_) => 3,
        }
    }

    /// The number in a root, 0 where it has none.
    fn number(self) -> u32
        ensures { result ≡ root_number self }
    {
        match self {
            Root::This => 0,
            Root::Class(class) | Root::Some(class) => class.0,
            Root::Formal(number) => number,
        }
    }
}

/// A root and at most sixteen fields. One whose root is `Some(c)` has exactly one field, declared in c.
#[derive(Drop)]
pub struct Path {
    pub root: Root,
    pub fields: PathFields,
}

impl Path {
    /// A root without fields.
    pub fn alone(alloc: Global, root: Root) -> Path
        ensures { result ≡ alone root }
    {
        Path {
            root,
            fields: PathFields::new(alloc),
        }
    }

    /// A field of some object of a class.
    pub fn of_some(alloc: Global, class: ClassId, f: FieldId) -> Result<Path, Memory>
        ensures { IfOk result (λ path. path ≡ some_path class f) }
    {
        let mut fields = Vec::new(alloc);
        fields.push(f)?;
        Ok(Path {
            root: Root::Some(class),
            fields: PathFields::from_vec(fields),
        })
    }

    /// The path with this field at its end, or `None` where it has sixteen fields already.
    pub fn extended(&self, alloc: Global, f: FieldId) -> Result<Option<Path>, Memory>
        requires { is_some_root self.now.root ≡ false }
        ensures { IfOk result (λ found. found ≡ extended self.now f) }
    {
        if self.fields.len() >= MAX_PATH_FIELDS {
            return Ok(None);
        }
        let mut fields = Vec::with_capacity(alloc, self.fields.len() + 1)?;
        fields.extend_from_slice(self.fields.as_slice())?;
        fields.push(f)?;
        Ok(Some(Path {
            root: self.root,
            fields: PathFields::from_vec(fields),
        }))
    }

    /// The path of the first so many fields, which is the path itself where it has no more.
    pub fn front(&self, alloc: Global, fields: usize) -> Result<Path, Memory>
        ensures { IfOk result (λ made. made ≡ front fields self.now) }
    {
        let all = self.fields.as_slice();
        let count = fields.min(self.fields.len());
        Ok(Path {
            root: self.root,
            fields: PathFields::from_vec(Vec::from_slice(alloc, &all[..count])?),
        })
    }

    /// A path that is equal to this one.
    pub fn copied(&self, alloc: Global) -> Result<Path, Memory>
        ensures { IfOk result (λ copy. copy ≡ self.now) }
    {
        Ok(Path {
            root: self.root,
            fields: self.fields.copied(alloc)?,
        })
    }
}

impl PartialEq for Path {
    ghost use Rattle.access_paths.specs.Paths.{same_path};
    ghost use Rattle.access_paths.specs.Same.{same_path-laws};

    ghost eq = { same_path };

    ghost laws = { same_path-laws };

    fn eq(&self, other: &Path) -> bool {
        self.root == other.root && self.fields.as_slice() == other.fields.as_slice()
    }
}

impl Eq for Path {
    ghost use Rattle.access_paths.specs.Same.{same_path-equivalence};

    ghost laws = { same_path-equivalence };
}

impl PartialOrd for Path {
    ghost use Rattle.std.specs.Ordering.{as_partial_cmp};
    ghost use Rattle.access_paths.specs.Order.{path_cmp};
    ghost use Rattle.access_paths.specs.Same.{path_cmp-partial};

    ghost partial_cmp = { as_partial_cmp path_cmp };

    ghost laws = { path_cmp-partial };

    fn partial_cmp(&self, other: &Path) -> Option<Ordering> {
        Some(compare(self, other))
    }
}

impl Ord for Path {
    ghost use Rattle.std.proofs.Common.{refl, sym};
    ghost use Rattle.access_paths.specs.Order.{path_cmp};
    ghost use Rattle.access_paths.specs.Same.{path_cmp-total, tied};

    ghost cmp = { path_cmp };

    ghost total = { path_cmp-total };

    ghost matches_partial_cmp = { λ p q. refl };

    ghost matches_eq = { λ p q. sym (tied p q) };

    fn cmp(&self, other: &Path) -> Ordering {
        compare(self, other)
    }
}

impl Hash for Path {
    ghost use Rattle.access_paths.specs.Table.{path_input, path_input-respects};

    ghost hash_input = { path_input };

    ghost respects_eq = { path_input-respects };

    fn hash<H: Hasher>(&self, state: &mut H) {
        self.root.form().hash(state);
        self.root.number().hash(state);
        self.fields.as_slice().hash(state);
    }
}

/// The order of two paths: of the forms of their roots, of the numbers in these, and of their fields in turn.
fn compare(p: &Path, q: &Path) -> Ordering
    ensures { result ≡ path_cmp p.now q.now }
{
    let forms = p.root.form().cmp(&q.root.form());
    let numbers = p.root.number().cmp(&q.root.number());
    forms.then(numbers.then(p.fields.as_slice().cmp(q.fields.as_slice())))
}
