//! The forest of all expressions that are stored as trees of boxes.
ghost use Rattle.std.specs.Prelude.{◌≡◌, ◌<◌, Some, length, slice_get};

use crate::{Forest, Look};
use owl_axioms::ClassExpr;
use rel_io::Items;
use std::marker::PhantomData;

/// A forest that every expression is in.
#[derive(Clone, Copy)]
pub struct Boxes<'a> {
    of: PhantomData<&'a ClassExpr>,
}

impl<'a> Boxes<'a> {
    /// The forest of all expressions.
    pub fn new() -> Boxes<'a> {
        Boxes { of: PhantomData }
    }
}

impl<'a> Forest for Boxes<'a> {
    type Tree = &'a ClassExpr;

    ghost has = { λ _ _. Unit {0} };

    ghost stands = { λ _ tree. tree.now };

    fn look(&self, tree: &'a ClassExpr) -> Look<'_, &'a ClassExpr> {
        match tree {
            ClassExpr::Thing => Look::Thing,
            ClassExpr::Nothing => Look::Nothing,
            ClassExpr::Class(name) => Look::Class(name),
            ClassExpr::And(parts) => Look::And(parts.as_slice().len()),
            ClassExpr::Or(parts) => Look::Or(parts.as_slice().len()),
            ClassExpr::Not(part) => Look::Not(part.get()),
            ClassExpr::Some(role, part) => Look::Some(role, part.get()),
            ClassExpr::All(role, part) => Look::All(role, part.get()),
            ClassExpr::Min(n, role, part) => Look::Min(*n, role, part.get()),
            ClassExpr::Max(n, role, part) => Look::Max(*n, role, part.get()),
            ClassExpr::Exact(n, role, part) => Look::Exact(*n, role, part.get()),
        }
    }

    #[tactic(auto, unfolding(crate::specs::Shows::operand_count, crate::specs::Shows::operands, crate::specs::Shows::IsOperand))]
    fn operand(&self, tree: &'a ClassExpr, at: usize) -> &'a ClassExpr {
        match tree {
            ClassExpr::And(parts) => part_at(parts, at),
            ClassExpr::Or(parts) => part_at(parts, at),
            _ => unreachable!(),
        }
    }
}

/// The part at a place.
fn part_at(parts: &Items<ClassExpr>, at: usize) -> &ClassExpr
    requires { at < length parts.now }
    ensures { slice_get parts.now at ≡ Some result.now }
{
    &parts.as_slice()[at]
}
