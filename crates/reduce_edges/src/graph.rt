//! The inclusions between classes as edges between numbers.
ghost use Rattle.std.specs.Prelude.{◌≡◌, List, ◌++◌, ◌∷◌, [], IfOk, MatchOption, None, OnOk, Some, length, slice_get};
ghost use Rattle.edge_detours.specs.Reach.{AreWithin};
ghost use Rattle.edge_detours.specs.Redundant.{AreRedundant};
ghost use Rattle.owl_ontology.specs.Ontology.{axioms_of};
ghost use Rattle.reduce_edges.specs.Edges.{Pair, edge_in, edge_list, edges_of};
ghost use Rattle.reduce_edges.specs.inner.Numbered.{AreApart, AreMore, StandFor};

use edge_detours::redundant_edges;
use hash_key::HashKey;
use indexmap::IndexSet;
use owl_axioms::{Body, ClassExpr};
use owl_ontology::Ontology;
use rel_io::{Dup, Iri, NoMemory};
use std::alloc::Global;

/// Edges between numbers, and the names that the numbers stand for.
#[derive(Drop)]
pub struct Graph {
    /// The names of the classes, by their numbers.
    pub names: IndexSet<Iri, HashKey>,
    /// The edges, in the order of their axioms.
    pub edges: Vec<(u32, u32)>,
}

/// The graph of an ontology's inclusions between classes.
pub fn graph_of(alloc: Global, ontology: &Ontology) -> Result<Graph, NoMemory>
    ensures { IfOk result (λ graph. StandFor graph.names.keys graph.edges.items (edges_of (axioms_of ontology.now.entries))) }
{
    let mut graph = Graph {
        names: IndexSet::with_hasher(alloc, ontology.hash_key()),
        edges: Vec::new(alloc),
    };
    for at in 0..ontology.len() {
        add_edge(alloc, &mut graph, &ontology.get(at).body)?;
    }
    Ok(graph)
}

/// Adds the edge that an axiom says, if it says one.
fn add_edge(alloc: Global, graph: &mut Graph, body: &Body) -> Result<(), NoMemory>
    ensures { OnOk result ((pairs : List Pair) → StandFor graph.old.names.keys graph.old.edges.items pairs → StandFor graph.new.names.keys graph.new.edges.items (pairs ++ edge_list (edge_in body.now))) }
{
    match edge_in(body) {
        None => Ok(()),
        Some((sub, sup)) => push_edge(alloc, graph, sub, sup),
    }
}

/// Adds an edge between two classes.
fn push_edge(alloc: Global, graph: &mut Graph, sub: &Iri, sup: &Iri) -> Result<(), NoMemory>
    ensures { OnOk result ((pairs : List Pair) → StandFor graph.old.names.keys graph.old.edges.items pairs → StandFor graph.new.names.keys graph.new.edges.items (pairs ++ (sub.now, sup.now) ∷ [])) }
{
    let from = number_of(alloc, &mut graph.names, sub)?;
    let to = number_of(alloc, &mut graph.names, sup)?;
    graph.edges.push((from, to))?;
    Ok(())
}

/// The number of a name, which it has or gets. More than 2 ^ 32 names are answered by want of memory.
fn number_of(alloc: Global, names: &mut IndexSet<Iri, HashKey>, name: &Iri) -> Result<u32, NoMemory>
    ensures more { OnOk result (AreMore names.old.keys names.new.keys) }
    ensures number { IfOk result (λ n. slice_get names.new.keys n ≡ Some name.now) }
{
    let (at, _) = names.insert_full(name.copy(alloc)?)?;
    if at > u32::MAX as usize {
        return Err(NoMemory);
    }
    Ok(at as u32)
}

/// The two classes of which an axiom says that the first is a subclass of the second.
#[tactic(auto, unfolding(crate::specs::Edges::class_name, crate::specs::Edges::edge_in))]
pub fn edge_in(body: &Body) -> Option<(&Iri, &Iri)>
    ensures { MatchOption result (edge_in body.now ≡ None) (λ found. edge_in body.now ≡ Some (found.0.now, found.1.now)) }
{
    match body {
        Body::Sub(ClassExpr::Class(sub), ClassExpr::Class(sup)) => Some((sub, sup)),
        _ => None,
    }
}

/// A flag for each edge, set where it is redundant.
pub fn redundant(alloc: Global, graph: &Graph) -> Result<Vec<bool>, NoMemory>
    requires { (pairs : List Pair) × StandFor graph.now.names.keys graph.now.edges.items pairs }
    ensures flags { IfOk result (λ flags. AreRedundant graph.now.edges.items flags.items) }
    ensures apart { IfOk result (λ flags. AreApart graph.now.names.keys) }
{
    let count = graph.names.len();
    if count > u32::MAX as usize {
        return Err(NoMemory);
    }
    Ok(redundant_edges(alloc, count as u32, graph.edges.as_slice())?)
}
