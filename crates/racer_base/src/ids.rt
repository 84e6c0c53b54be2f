//! Numbers of what a program has, places in its sources, and kinds of values.

/// The number of a source file, from 0 in byte order of the files' names.
#[derive(Clone, Copy, PartialEq, Eq, PartialOrd, Ord)]
pub struct FileId(pub u32);

/// The number of a class, from 0 in source order.
#[derive(Clone, Copy, PartialEq, Eq)]
pub struct ClassId(pub u32);

/// The number of a field among those of all classes, from 0 in source order.
#[derive(Clone, Copy, PartialEq, Eq, PartialOrd, Ord, Hash)]
pub struct FieldId(pub u32);

/// The number of a method among those of all classes, from 0 in source order.
#[derive(Clone, Copy, PartialEq, Eq)]
pub struct MethodId(pub u32);

/// The number of a variable of a method: `this` of an instance method, then parameters, then locals.
#[derive(Clone, Copy, PartialEq, Eq)]
pub struct VarId(pub u32);

/// The number of an operation of a method, from 0 in reading order.
#[derive(Clone, Copy, PartialEq, Eq)]
pub struct SiteId(pub u32);

/// A place in a source file. Lines and columns count from 1, columns in bytes.
#[derive(Clone, Copy, PartialEq, Eq, PartialOrd, Ord)]
pub struct Place {
    pub file: FileId,
    pub line: u32,
    pub column: u32,
}

/// The kind of a type: a primitive one, a class of the folder, or any other (JLS 4.1).
#[derive(Clone, Copy, PartialEq, Eq)]
pub enum Kind {
    Plain,
    Declared(ClassId),
    Other,
}

/// What an access does to its variable (JLS 17.4.1).
#[derive(Clone, Copy, PartialEq, Eq)]
pub enum Touch {
    Read,
    Write,
}

/// What a worker has just done, or is about to publish.
#[derive(Clone, Copy)]
pub enum Moment {
    Taken(MethodId),
    Finished(MethodId),
}
