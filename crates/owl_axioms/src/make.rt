//! Groups are made: their operands are sorted by their text, and each kept once.
ghost use Rattle.std.specs.Prelude.{◌≡◌, ◌<◌, [], ◌∷◌, IfErr, IfOk, length, map};
ghost use Rattle.owl_axioms.specs.Made.{AreProperExprs, IsGroup, IsProperExpr, IsSortedSet};
ghost use Rattle.owl_axioms.specs.Text as spec;
ghost use Rattle.owl_axioms.specs.declared.expr.ClassExpr.TheVariants as expr;
ghost use Rattle.owl_axioms.specs.inner.Sorting.{worded};

use crate::ClassExpr;
use crate::sorting::{self, Worded};
use crate::text::text_of_expr;
use rel_io::{Items, NoMemory};
use std::alloc::Global;

/// The intersection of the operands: sorted by their text, repeats dropped. Where one is left, it is the answer itself.
/// It takes time in proportion to the operands' texts, times the logarithm of their number.
pub fn and_of(alloc: Global, operands: Vec<ClassExpr>) -> Result<ClassExpr, NoMemory>
    requires some { 0 < length operands.items }
    requires proper { AreProperExprs operands.items }
    ensures group { IfOk result (λ made. IsGroup expr.And operands.items made) }
    ensures proper { IfOk result (λ made. IsProperExpr made) }
{
    let operands = sorted_exprs(alloc, operands)?;
    match only_one(operands) {
        Ok(one) => Ok(one),
        Err(operands) => Ok(ClassExpr::And(Items::from_vec(operands))),
    }
}

/// The union of the operands: sorted by their text, repeats dropped. Where one is left, it is the answer itself.
/// It takes time in proportion to the operands' texts, times the logarithm of their number.
pub fn or_of(alloc: Global, operands: Vec<ClassExpr>) -> Result<ClassExpr, NoMemory>
    requires some { 0 < length operands.items }
    requires proper { AreProperExprs operands.items }
    ensures group { IfOk result (λ made. IsGroup expr.Or operands.items made) }
    ensures proper { IfOk result (λ made. IsProperExpr made) }
{
    let operands = sorted_exprs(alloc, operands)?;
    match only_one(operands) {
        Ok(one) => Ok(one),
        Err(operands) => Ok(ClassExpr::Or(Items::from_vec(operands))),
    }
}

/// The expressions sorted by their text, each once.
fn sorted_exprs(alloc: Global, exprs: Vec<ClassExpr>) -> Result<Vec<ClassExpr>, NoMemory>
    requires proper { AreProperExprs exprs.items }
    ensures { IfOk result (λ kept. IsSortedSet spec.expr_text exprs.items kept.items) }
{
    let list = worded_exprs(alloc, exprs)?;
    sorting::values(alloc, sorting::ordered(list))
}

/// Each expression beside its text.
fn worded_exprs(alloc: Global, exprs: Vec<ClassExpr>) -> Result<Vec<Worded<ClassExpr>>, NoMemory>
    ensures { IfOk result (λ list. list.items ≡ map (worded spec.expr_text) exprs.items) }
{
    let mut list = Vec::with_capacity(alloc, exprs.len())?;
    for value in exprs {
        let text = text_of_expr(alloc, &value)?;
        list.push(Worded { text, value })?;
    }
    Ok(list)
}

/// The one expression, where there is one; otherwise all of them as they were.
fn only_one(exprs: Vec<ClassExpr>) -> Result<ClassExpr, Vec<ClassExpr>>
    ensures one { IfOk result (λ one. exprs.items ≡ one ∷ []) }
    ensures all { IfErr result (λ all. all.items ≡ exprs.items) }
    ensures several { IfErr result (λ all. length all.items ≡ 1 → ⊥) }
{
    let mut exprs = exprs;
    if exprs.len() == 1 {
        Ok(exprs.remove(0))
    } else {
        Err(exprs)
    }
}
