//! Warnings.
use racer_base::{ClassId, MethodId};

/// Two records of entries of a checked class that conflict: one of `entry`, and the first one, in order of
/// entries and records, that conflicts with it. Records go by their index among those of their method.
#[derive(Clone, Copy)]
pub struct Warning {
    pub class: ClassId,
    pub entry: MethodId,
    pub access: u32,
    pub partner: MethodId,
    pub partner_access: u32,
}
