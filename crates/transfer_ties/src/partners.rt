//! What of an older program is the same by names in a newer one, by numbers.
ghost use Rattle.std.specs.Prelude.{◌≡◌};
ghost use Rattle.transfer_ties.specs.Names as named;
ghost use Rattle.transfer_ties.specs.Partners.{class_in, field_in, partner_in};

use racer_base::{ClassId, FieldId, MethodId};

/// The partners of two programs: of each class and each field of the older one that of the newer, and of each analysed
/// method of the newer one that of the older, where there is one.
#[derive(Drop)]
pub struct Ties {
    pub(crate) classes: Vec<Option<ClassId>>,
    pub(crate) fields: Vec<Option<FieldId>>,
    pub(crate) methods: Vec<Option<MethodId>>,
}

/// The partner of a class.
pub(crate) fn partner(classes: &[Option<ClassId>], class: ClassId) -> Option<ClassId>
    ensures { result ≡ named.class_at classes.now class }
{
    *classes.get(class.0 as usize)?
}

/// Whether this class is the partner.
pub(crate) fn is_class(partner: Option<ClassId>, class: ClassId) -> bool
    ensures { result ≡ named.is_partner_class partner class }
{
    match partner {
        Some(partner) => partner == class,
        None => false,
    }
}

/// Whether this field is the partner.
pub(crate) fn is_field(partner: Option<FieldId>, field: FieldId) -> bool
    ensures { result ≡ named.is_partner_field partner field }
{
    match partner {
        Some(partner) => partner == field,
        None => false,
    }
}

impl Ties {
    /// The class of the newer program that is this one of the older.
    pub(crate) fn class(&self, class: ClassId) -> Option<ClassId>
        ensures { result ≡ class_in self.now class }
    {
        partner(self.classes.as_slice(), class)
    }

    /// The field of the newer program that is this one of the older.
    pub(crate) fn field(&self, field: FieldId) -> Option<FieldId>
        ensures { result ≡ field_in self.now field }
    {
        *self.fields.get(field.0 as usize)?
    }

    /// The analysed method of the older program that has the class, the name and as many parameters as this one of the
    /// newer.
    pub fn before(&self, method: MethodId) -> Option<MethodId>
        ensures { result ≡ partner_in self.now.methods.items method.0 }
    {
        *self.methods.get(method.0 as usize)?
    }
}
