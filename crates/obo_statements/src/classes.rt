//! Classes and restrictions by ids.
ghost use Rattle.std.specs.Prelude.{◌≡◌, IfOk};
ghost use Rattle.obo_notes.specs.Context.{reading_in};
ghost use Rattle.obo_statements.specs.Classes as spec;
ghost use Rattle.obo_statements.specs.Restrictions.{restriction};

use iri_map::iri_of;
use owl_axioms::{ClassExpr, class_named};
use rel_io::{Boxed, Bytes, NoMemory};
use std::alloc::Global;

/// The class with this id.
pub fn class_read(alloc: Global, space: &Bytes, id: &Bytes) -> Result<ClassExpr, NoMemory>
    ensures { IfOk result (λ class. class ≡ spec.class_read (reading_in space.now) id.now) }
{
    let iri = iri_of(alloc, id, space)?;
    Ok(class_named(iri))
}

/// What has a filler of the class with this id by the property with the other one.
#[tactic(auto, unfolding(crate::specs::Restrictions::restriction))]
pub fn restriction(
    alloc: Global,
    space: &Bytes,
    role: &Bytes,
    filler: &Bytes,
) -> Result<ClassExpr, NoMemory>
    ensures { IfOk result (λ made. made ≡ restriction (reading_in space.now) role.now filler.now) }
{
    let role = iri_of(alloc, role, space)?;
    let class = class_read(alloc, space, filler)?;
    let filler = Boxed::new(alloc, class)?;
    Ok(ClassExpr::Some(role, filler))
}
