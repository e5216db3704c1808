//! Classes by the numbers of a table.
ghost use Rattle.std.specs.Prelude.{◌≡◌, ◌<◌, ◌≤◌, ◌^◌, ℕ, List, IfOk, MatchOption, None, OnOk, Some, length, slice_set, true};
ghost use Rattle.el_taxonomy.specs.inner.Numbers.{AreClasses, AreDeclared, AreTold, FlagsMore, IsGround, IsNumberOf, TellsMore, class_in, declared_as, declared_in, exprs_of, told_in};
ghost use Rattle.fact_rows.specs.Rows.{push_at};
ghost use Rattle.el_part.specs.Part.{FitsPool};
ghost use Rattle.owl_axioms.specs.declared.expr.ClassExpr.{ClassExpr};
ghost use Rattle.owl_ontology.specs.Ontology.{axioms_of};

use el_part::ElPart;
use el_saturate::Table;
use expr_pool::{Cell, Pool};
use fact_rows::{Numbers, empty_numbers, fresh_flags, push_number_at};
use owl_axioms::{Axiom, Body, ClassExpr, Kind, Name};
use owl_ontology::Ontology;
use rel_io::{Iri, NoMemory};
use std::alloc::Global;

/// The number of a class, if it occurs.
pub fn number_of(part: &ElPart, table: &Table, class: &Iri) -> Option<u32>
    ensures { (trees : List ClassExpr) → IsGround trees part.now table.now → MatchOption result ((k : ℕ) → ¬ (IsNumberOf (exprs_of trees part.now) class.now k)) (IsNumberOf (exprs_of trees part.now) class.now) }
{
    match part.class_node(class) {
        None => None,
        Some(node) => table.number(node),
    }
}

/// The class of a number, if its expression is one.
pub fn class_of<'a>(part: &ElPart, pool: &'a Pool, number: u32) -> Option<&'a Iri>
    requires { FitsPool pool.now part.now }
    ensures { MatchOption result ((class : List ℕ) → ¬ (IsNumberOf (exprs_of pool.now part.now) class number)) (λ class. IsNumberOf (exprs_of pool.now part.now) class.now number) }
{
    if number as usize >= part.occurring() {
        return None;
    }
    let node = part.occurs(number as usize);
    class_in(pool.node(node))
}

/// The class of a cell, if it is one.
#[tactic(auto, unfolding(crate::specs::inner::Numbers::class_in))]
fn class_in(cell: &Cell) -> Option<&Iri>
    ensures { MatchOption result (class_in cell.now ≡ None) (λ class. class_in cell.now ≡ Some class.now) }
{
    match cell {
        Cell::Class(class) => Some(class),
        _ => None,
    }
}

/// The class that an axiom declares, if it declares one.
#[tactic(auto, unfolding(crate::specs::inner::Numbers::declared_in))]
pub fn declared_class(body: &Body) -> Option<&Iri>
    ensures { MatchOption result (declared_in body.now ≡ None) (λ class. declared_in body.now ≡ Some class.now) }
{
    match body {
        Body::Declaration(name) => class_named(name),
        _ => None,
    }
}

/// The IRI of an entity that is a class.
fn class_named(name: &Name) -> Option<&Iri>
    ensures { MatchOption result (declared_as name.now.kind name.now.iri ≡ None) (λ class. declared_as name.now.kind name.now.iri ≡ Some class.now) }
{
    match name.kind {
        Kind::Class => Some(&name.iri),
        Kind::Role => None,
        Kind::Individual => None,
        Kind::AnnotationProperty => None,
    }
}

/// The two classes of which an axiom says, with whatever annotations, that the first is below the second.
#[tactic(auto, unfolding(crate::specs::inner::Numbers::class_name, crate::specs::inner::Numbers::told_in))]
fn told_classes(one: &Axiom) -> Option<(&Iri, &Iri)>
    ensures { MatchOption result (told_in one.now.body ≡ None) (λ found. told_in one.now.body ≡ Some (found.0.now, found.1.now)) }
{
    match &one.body {
        Body::Sub(ClassExpr::Class(sub), ClassExpr::Class(sup)) => Some((sub, sup)),
        _ => None,
    }
}

/// A flag for each number, set where it is that of a class.
pub fn class_flags(alloc: Global, part: &ElPart, pool: &Pool) -> Result<Vec<bool>, NoMemory>
    requires fits { FitsPool pool.now part.now }
    requires small { length part.now.occurring < 2 ^ 32 }
    ensures { IfOk result (λ flags. AreClasses (exprs_of pool.now part.now) flags.items) }
{
    let mut flags = Vec::new(alloc);
    for number in 0..part.occurring() {
        flags.push(class_of(part, pool, number as u32).is_some())?;
    }
    Ok(flags)
}

/// A flag for each number, set where it is that of a declared class.
pub fn declared_flags(
    alloc: Global,
    ontology: &Ontology,
    part: &ElPart,
    table: &Table,
) -> Result<Vec<bool>, NoMemory>
    requires { length part.now.occurring < 2 ^ 32 }
    ensures { IfOk result (λ flags. (trees : List ClassExpr) → IsGround trees part.now table.now → AreDeclared (exprs_of trees part.now) (axioms_of ontology.now.entries) flags.items) }
{
    let mut flags = fresh_flags(alloc, part.occurring() as u32)?;
    for at in 0..ontology.len() {
        flag_declared(part, table, &ontology.get(at).body, flags.as_mut_slice());
    }
    Ok(flags)
}

/// Sets the flag of the class that an axiom declares.
fn flag_declared(part: &ElPart, table: &Table, body: &Body, flags: &mut [bool])
    ensures { (trees : List ClassExpr) → IsGround trees part.now table.now → FlagsMore (exprs_of trees part.now) (declared_in body.now) flags.old flags.new }
{
    match declared_class(body) {
        None => {}
        Some(class) => flag_class(part, table, class, flags),
    }
}

/// Sets the flag of a class, if it occurs.
fn flag_class(part: &ElPart, table: &Table, class: &Iri, flags: &mut [bool])
    ensures { (trees : List ClassExpr) → IsGround trees part.now table.now → FlagsMore (exprs_of trees part.now) (Some class.now) flags.old flags.new }
{
    match number_of(part, table, class) {
        None => {}
        Some(number) => flag_at(flags, number),
    }
}

/// Sets the flag at a place, if there is one.
fn flag_at(flags: &mut [bool], at: u32)
    ensures within { at < length flags.old → flags.new ≡ slice_set flags.old at true }
    ensures past { length flags.old ≤ at → flags.new ≡ flags.old }
{
    if (at as usize) < flags.len() {
        flags[at as usize] = true;
    }
}

/// For each number the numbers of the classes of which an axiom says that they are above.
pub fn told_rows(
    alloc: Global,
    ontology: &Ontology,
    part: &ElPart,
    table: &Table,
) -> Result<Vec<Numbers>, NoMemory>
    requires { length part.now.occurring < 2 ^ 32 }
    ensures { IfOk result (λ told. (trees : List ClassExpr) → IsGround trees part.now table.now → AreTold (exprs_of trees part.now) (axioms_of ontology.now.entries) told.items) }
{
    let mut told = empty_numbers(alloc, part.occurring() as u32)?;
    for at in 0..ontology.len() {
        push_told(part, table, ontology.get(at), &mut told)?;
    }
    Ok(told)
}

/// Adds the numbers of the classes of which an axiom says that one is below the other.
fn push_told(
    part: &ElPart,
    table: &Table,
    one: &Axiom,
    told: &mut Vec<Numbers>,
) -> Result<(), NoMemory>
    ensures { OnOk result ((trees : List ClassExpr) → IsGround trees part.now table.now → TellsMore (exprs_of trees part.now) (told_in one.now.body) told.old.items told.new.items) }
{
    match told_classes(one) {
        None => Ok(()),
        Some((sub, sup)) => push_pair(part, table, sub, sup, told),
    }
}

/// Adds the numbers of two classes, if both occur.
fn push_pair(
    part: &ElPart,
    table: &Table,
    sub: &Iri,
    sup: &Iri,
    told: &mut Vec<Numbers>,
) -> Result<(), NoMemory>
    ensures { OnOk result ((trees : List ClassExpr) → IsGround trees part.now table.now → TellsMore (exprs_of trees part.now) (Some (sub.now, sup.now)) told.old.items told.new.items) }
{
    match number_of(part, table, sub) {
        None => Ok(()),
        Some(lower) => push_above(part, table, lower, sup, told),
    }
}

/// Adds the number of a class to a row, if it occurs.
fn push_above(
    part: &ElPart,
    table: &Table,
    lower: u32,
    sup: &Iri,
    told: &mut Vec<Numbers>,
) -> Result<(), NoMemory>
    ensures { OnOk result ((trees : List ClassExpr) → IsGround trees part.now table.now → (sub : List ℕ) → IsNumberOf (exprs_of trees part.now) sub lower → TellsMore (exprs_of trees part.now) (Some (sub, sup.now)) told.old.items told.new.items) }
{
    match number_of(part, table, sup) {
        None => Ok(()),
        Some(upper) => push_number(told, lower, upper),
    }
}

/// Adds a number to a row, if there is one.
fn push_number(told: &mut Vec<Numbers>, lower: u32, upper: u32) -> Result<(), NoMemory>
    ensures within { OnOk result (lower < length told.old.items → told.new.items ≡ push_at told.old.items lower upper) }
    ensures past { OnOk result (length told.old.items ≤ lower → told.new.items ≡ told.old.items) }
{
    if lower as usize >= told.len() {
        return Ok(());
    }
    push_number_at(told, lower, upper)?;
    Ok(())
}
