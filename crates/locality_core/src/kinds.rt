//! The kinds of locality.
use locality_tables::{ClassFill, RoleFill};

/// A kind of locality: what the classes and roles outside a signature are filled with.
pub trait Locality {
    ghost use Rattle.locality_tables.specs.Laws.{FillsNames, VerdictsStay};
    ghost use Rattle.locality_tables.specs.declared.fills.ClassFill.{ClassFill};
    ghost use Rattle.locality_tables.specs.declared.fills.RoleFill.{RoleFill};

    ghost CLASSES: { ClassFill };

    ghost ROLES: { RoleFill };

    /// What an outside class is.
    const CLASSES: ClassFill;

    /// What an outside role is.
    const ROLES: RoleFill;

    /// The fill of an interpretation fills the names outside so, and leaves all others.
    ghost fills: { FillsNames CLASSES ROLES };

    /// A verdict of Empty or Full stays with a smaller signature.
    ghost stays: { VerdictsStay CLASSES ROLES };
}
