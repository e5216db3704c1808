//! Class expressions, as the OWL 2 Structural Specification has them, of those kinds that OBO files can say.
ghost use Rattle.std.specs.Prelude.{◌≡◌, IfOk};

use rel_io::{Boxed, Dup, Iri, Items, NoMemory};
use std::alloc::Global;

/// A class expression as a tree. `Thing` and `Nothing` are owl:Thing and owl:Nothing; an `Iri` beside an
/// expression is that of an object property.
#[derive(PartialEq, Eq, Hash, Drop)]
pub enum ClassExpr {
    /// owl:Thing.
    Thing,
    /// owl:Nothing.
    Nothing,
    /// A named class.
    Class(Iri),
    /// The intersection of its operands.
    And(Items<ClassExpr>),
    /// The union of its operands.
    Or(Items<ClassExpr>),
    /// The complement.
    Not(Boxed<ClassExpr>),
    /// What has some filler by the property.
    Some(Iri, Boxed<ClassExpr>),
    /// What has only such fillers.
    All(Iri, Boxed<ClassExpr>),
    /// What has at least so many fillers.
    Min(u32, Iri, Boxed<ClassExpr>),
    /// What has at most so many fillers.
    Max(u32, Iri, Boxed<ClassExpr>),
    /// What has exactly so many fillers.
    Exact(u32, Iri, Boxed<ClassExpr>),
}

impl Dup for ClassExpr {
    fn copy(&self, alloc: Global) -> Result<ClassExpr, NoMemory> {
        copy_expr(alloc, self)
    }
}

/// A copy of an expression.
#[cycle(copying)]
fn copy_expr(alloc: Global, expr: &ClassExpr) -> Result<ClassExpr, NoMemory>
    ensures { IfOk result (λ twin. twin ≡ expr.now) }
{
    match expr {
        ClassExpr::Thing => Ok(ClassExpr::Thing),
        ClassExpr::Nothing => Ok(ClassExpr::Nothing),
        ClassExpr::Class(iri) => iri.copy(alloc).map(ClassExpr::Class),
        ClassExpr::And(operands) => copy_exprs(alloc, operands.as_slice()).map(ClassExpr::And),
        ClassExpr::Or(operands) => copy_exprs(alloc, operands.as_slice()).map(ClassExpr::Or),
        ClassExpr::Not(part) => copy_part(alloc, part).map(ClassExpr::Not),
        ClassExpr::Some(role, part) => {
            copy_filler(alloc, role, part).map(|(role, part)| ClassExpr::Some(role, part))
        }
        ClassExpr::All(role, part) => {
            copy_filler(alloc, role, part).map(|(role, part)| ClassExpr::All(role, part))
        }
        ClassExpr::Min(n, role, part) => {
            copy_filler(alloc, role, part).map(|(role, part)| ClassExpr::Min(*n, role, part))
        }
        ClassExpr::Max(n, role, part) => {
            copy_filler(alloc, role, part).map(|(role, part)| ClassExpr::Max(*n, role, part))
        }
        ClassExpr::Exact(n, role, part) => {
            copy_filler(alloc, role, part).map(|(role, part)| ClassExpr::Exact(*n, role, part))
        }
    }
}

/// Copies of a property and of the filler beside it.
#[cycle(copying)]
fn copy_filler(
    alloc: Global,
    role: &Iri,
    part: &Boxed<ClassExpr>,
) -> Result<(Iri, Boxed<ClassExpr>), NoMemory>
    ensures { IfOk result (λ twins. twins ≡ (role.now, part.now)) }
{
    let role = role.copy(alloc)?;
    let part = copy_part(alloc, part)?;
    Ok((role, part))
}

/// A copy of a part, in a box of its own.
#[cycle(copying)]
fn copy_part(alloc: Global, part: &Boxed<ClassExpr>) -> Result<Boxed<ClassExpr>, NoMemory>
    ensures { IfOk result (λ twin. twin ≡ part.now) }
{
    let twin = copy_expr(alloc, part.get())?;
    Boxed::new(alloc, twin)
}

/// A copy of each operand, in order.
#[cycle(copying)]
fn copy_exprs(alloc: Global, exprs: &[ClassExpr]) -> Result<Items<ClassExpr>, NoMemory>
    ensures { IfOk result (λ twins. twins ≡ exprs.now) }
{
    let mut twins = Vec::with_capacity(alloc, exprs.len())?;
    for expr in exprs {
        let twin = copy_expr(alloc, expr)?;
        twins.push(twin)?;
    }
    Ok(Items::from_vec(twins))
}
