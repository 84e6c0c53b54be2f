//! Records with their method and their index there.
use access_domain::Access;
use racer_base::MethodId;

/// A record with its method and its index among the method's records.
#[derive(Clone, Copy)]
pub struct MethodAccess<'a> {
    pub method: MethodId,
    pub index: u32,
    pub access: &'a Access,
}
