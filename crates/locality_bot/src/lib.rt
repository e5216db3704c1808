//! Bottom: the kind of locality whose outside classes and outside roles are empty. What the crates above use of it are its two
//! values, and that it has the laws of a kind.
#![tactic(auto)]

use locality_core::{ClassFill, Locality, RoleFill};

/// The kind whose outside classes and outside roles are empty.
#[derive(Clone, Copy)]
pub struct Bot;

impl Locality for Bot {
    ghost use Rattle.locality_tables.proofs.FillLaws.{fills_names};
    ghost use Rattle.locality_tables.proofs.Monotone.{verdicts_stay};
    ghost use Rattle.locality_tables.specs.declared.fills.ClassFill.TheVariants as class;
    ghost use Rattle.locality_tables.specs.declared.fills.RoleFill.TheVariants as role;

    ghost CLASSES = { class.Empty };

    ghost ROLES = { role.Empty };

    ghost fills = { fills_names class.Empty role.Empty };

    ghost stays = { verdicts_stay class.Empty role.Empty };

    const CLASSES: ClassFill = ClassFill::Empty;

    const ROLES: RoleFill = RoleFill::Empty;
}
