//! Top: the kind of locality whose outside classes and outside roles are full. What the crates above use of it are its two
//! values, and that it has the laws of a kind.
#![tactic(auto)]

use locality_core::{ClassFill, Locality, RoleFill};

/// The kind whose outside classes and outside roles are full.
#[derive(Clone, Copy)]
pub struct Top;

impl Locality for Top {
    ghost use Rattle.locality_tables.proofs.FillLaws.{fills_names};
    ghost use Rattle.locality_tables.proofs.Monotone.{verdicts_stay};
    ghost use Rattle.locality_tables.specs.declared.fills.ClassFill.TheVariants as class;
    ghost use Rattle.locality_tables.specs.declared.fills.RoleFill.TheVariants as role;

    ghost CLASSES = { class.Full };

    ghost ROLES = { role.Full };

    ghost fills = { fills_names class.Full role.Full };

    ghost stays = { verdicts_stay class.Full role.Full };

    const CLASSES: ClassFill = ClassFill::Full;

    const ROLES: RoleFill = RoleFill::Full;
}
