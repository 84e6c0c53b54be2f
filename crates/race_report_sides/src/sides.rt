//! The records of a warning, with their places from the site down to the access.
ghost use Rattle.std.specs.Prelude.{◌≡◌};

use access_domain::Access;
use access_paths::Path;
use core_code::MethodCore;
use racer_base::Place;

/// One of the two records of a warning, with its places from the site down to the access.
#[derive(Drop)]
pub struct Side<'a> {
    pub method: &'a MethodCore,
    pub access: &'a Access,
    pub places: Vec<Place>,
}

/// The two records of a warning, that of its entry first.
#[derive(Drop)]
pub struct Sides<'a> {
    pub first: Side<'a>,
    pub partner: Side<'a>,
}

impl Sides<'_> {
    /// The path that a witness has: that of the first record, as its entry names it.
    pub fn witness_path(&self) -> &Path
        ensures { result.now ≡ self.now.first.access.now.path }
    {
        &self.first.access.path
    }
}
