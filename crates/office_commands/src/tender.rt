//! The parts of a tender beside its bytes: the security, and the points for quality.
use crate::amounts::SecurityAmount;
use office_values::bounded::Bounded;
use office_values::id::Id;

/// The points for a tender's quality: 0 to 100.
pub type Quality = Bounded<0, 100>;

/// A security that a request names (UNCITRAL Model Law 2011, article 17): the reference that its issuer gave it, and its amount.
#[derive(Clone, Copy)]
pub struct NamedSecurity {
    pub reference: Id,
    pub amount: SecurityAmount,
}
