//! The first declared class that nothing can be in.
ghost use Rattle.std.specs.Prelude.{ℕ, ◌≡◌, ◌<◌, ◌+◌, ◌↔◌, IsTrue, List, MatchOption, None, if◌then◌else◌, length};
ghost use Rattle.el_part.specs.Part.{view_of};
ghost use Rattle.el_taxonomy.specs.Direct.{AreFactsOf};
ghost use Rattle.el_taxonomy.specs.Reason.{IsUnsatisfiable};
ghost use Rattle.el_taxonomy.specs.Taxonomy.{IsDeclaredClass, IsEmpty};
ghost use Rattle.el_taxonomy.specs.inner.Least.{Declared, DeclaresEmpty, IsDeclaredAt, IsEmptyAt, IsEmptyClass, IsEmptyNode, IsFound, is_lesser};
ghost use Rattle.el_taxonomy.specs.inner.Numbers.{declared_in};
ghost use Rattle.owl_ontology.specs.Ontology.{axioms_of};

use crate::numbering::declared_class;
use el_part::ElPart;
use el_saturate::Table;
use expr_pool::{Node, Pool};
use owl_axioms::Body;
use owl_ontology::{Ontology, Origin};
use rel_io::Iri;

/// The place of the first declaration of the least declared class, by the bytes of its IRI, of which it is derived that
/// nothing is in it; none where there is no such class. The part and the table are those of the ontology, over the pool.
pub fn first_unsatisfiable(
    ontology: &Ontology,
    part: &ElPart,
    pool: &Pool,
    table: &Table,
) -> Option<usize>
    requires { (limit : ℕ) × AreFactsOf (axioms_of ontology.now.entries) pool.now part.now limit table.now }
    ensures { MatchOption result ((class : List ℕ) → IsDeclaredClass (axioms_of ontology.now.entries) class → ¬ (IsEmpty (view_of pool.now part.now) class)) (IsUnsatisfiable ontology.now.entries (view_of pool.now part.now)) }
{
    let _nodes = pool.len();
    let mut found = None;
    for at in 0..ontology.len() {
        found = least(ontology, part, table, found, at);
    }
    found
}

/// The lesser of the declaration that is found, if there is one, and the axiom at a place, where that declares a class that
/// nothing can be in.
fn least(
    ontology: &Ontology,
    part: &ElPart,
    table: &Table,
    found: Option<usize>,
    at: usize,
) -> Option<usize>
    requires two { 1 < length part.now.occurring }
    requires within { at < length ontology.now.entries }
    requires before { IsFound ontology.now.entries part.now table.now at found }
    ensures { IsFound ontology.now.entries part.now table.now (at + 1) result }
{
    if !declares_empty(part, table, &ontology.get(at).body) {
        return found;
    }
    match found {
        None => Some(at),
        Some(before) => Some(lesser(ontology, before, at)),
    }
}

/// Whether an axiom declares a class that nothing can be in.
fn declares_empty(part: &ElPart, table: &Table, body: &Body) -> bool
    requires { 1 < length part.now.occurring }
    ensures { IsTrue result ↔ DeclaresEmpty part.now table.now (declared_in body.now) }
{
    match declared_class(body) {
        None => false,
        Some(class) => is_empty_class(part, table, class),
    }
}

/// Whether nothing can be in a class.
fn is_empty_class(part: &ElPart, table: &Table, class: &Iri) -> bool
    requires { 1 < length part.now.occurring }
    ensures { IsTrue result ↔ IsEmptyClass part.now table.now class.now }
{
    match part.class_node(class) {
        None => false,
        Some(node) => is_empty(part, table, node),
    }
}

/// Whether a node is below that of owl:Nothing, which is the second.
fn is_empty(part: &ElPart, table: &Table, node: Node) -> bool
    requires { 1 < length part.now.occurring }
    ensures { IsTrue result ↔ IsEmptyNode part.now table.now node }
{
    table.below(node, part.occurs(1))
}

/// The lesser of two declarations, by class and then by origin; of equal ones the first.
fn lesser(ontology: &Ontology, before: usize, at: usize) -> usize
    requires within { at < length ontology.now.entries }
    requires before { before < at }
    ensures { (one other : Declared) → IsDeclaredAt ontology.now.entries at one → IsDeclaredAt ontology.now.entries before other → result ≡ (if is_lesser one other then at else before) }
{
    if is_less(ontology, at, before) {
        at
    } else {
        before
    }
}

/// Whether the declaration at the first place is less than that at the second.
fn is_less(ontology: &Ontology, at: usize, before: usize) -> bool
    requires within { at < length ontology.now.entries }
    requires before { before < length ontology.now.entries }
    ensures { (one other : Declared) → IsDeclaredAt ontology.now.entries at one → IsDeclaredAt ontology.now.entries before other → result ≡ is_lesser one other }
{
    match declared_class(&ontology.get(at).body) {
        None => false,
        Some(one) => match declared_class(&ontology.get(before).body) {
            None => false,
            Some(other) => is_before(one, ontology.origin(at), other, ontology.origin(before)),
        },
    }
}

/// Whether a class with an origin is less than another with its own.
fn is_before(one: &Iri, here: Origin, other: &Iri, there: Origin) -> bool
    ensures { result ≡ is_lesser (record { class = one.now; origin = here }) (record { class = other.now; origin = there }) }
{
    one.cmp(other).then(here.cmp(&there)).is_lt()
}
