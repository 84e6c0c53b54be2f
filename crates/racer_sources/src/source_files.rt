//! The sources of a folder.
ghost use Rattle.std.specs.Prelude.{length};
ghost use Rattle.racer_sources.specs.Contents.{AreInLimits};

/// The sources of a folder: their names in byte order, and the bytes of each; of one that is too long a byte more than
/// it may have.
#[derive(Drop)]
pub struct SourceFiles {
    pub(crate) names: Vec<String>,
    pub(crate) contents: Vec<Vec<u8>>,
    ghost in_limits: { AreInLimits (length names.items) contents.items },
}
