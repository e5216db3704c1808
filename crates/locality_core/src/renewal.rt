//! What is known of the nodes of a pool, renewed from the nodes that changed upwards.
ghost use Rattle.std.specs.Prelude.{◌≡◌, ◌+◌, ◌<◌, ◌≤◌, ℕ, List, [], ◌∷◌, get_or, length, map};
ghost use Rattle.std.specs.Vec.{vec_capacity};
ghost use Rattle.expr_pool.specs.Part.{AreBefore};
ghost use Rattle.expr_pool.specs.Pool.{IsBefore, tree_at};
ghost use Rattle.locality_core.specs.inner.Renewal.{AllBelow, IsRenewing, IsTurn, LeadUp, Reads, is_unknown, known_at, known_count, known_layer};
ghost use Rattle.locality_tables.specs.Verdict.{and_finding, or_finding, verdict_step};
ghost use Rattle.owl_axioms.specs.Signature.{scope_of};
ghost use Rattle.owl_axioms.specs.declared.expr.ClassExpr.{ClassExpr, out-ClassExpr};
ghost use Rattle.owl_axioms.specs.declared.expr.ClassExpr.TheFolds.{map-ClassExpr};
ghost use Rattle.locality_tables.specs.declared.finding.Finding.{Finding};

use crate::Locality;
use crate::rows::{all_of, class_of, exact_of, exchange, max_of, min_of, role_of, some_of};
use expr_pool::{Cell, Node, Pool, parts_have_nodes};
use locality_tables::Finding;
use name_lists::Lists;
use owl_axioms::{ClassExpr, Sig};

/// What is known of a node.
pub(crate) fn known(found: &[Finding], node: Node) -> Finding
    requires { node.place < length found.now }
    ensures { result ≡ known_at found.now node.place }
{
    found[node.place() as usize]
}

/// The intersection of nodes.
fn and_of(found: &[Finding], nodes: &[Node]) -> Finding
    requires { AreBefore (length found.now) nodes.now }
    ensures { result ≡ and_finding (map (λ n. known_at found.now n.place) nodes.now) }
{
    let mut any_empty = false;
    let mut all_full = true;
    'operands: for node in nodes {
        let one = known(found, *node);
        any_empty |= one.is_empty();
        all_full &= one.is_full();
    }
    if any_empty {
        Finding::Empty
    } else if all_full {
        Finding::Full
    } else {
        Finding::Unknown
    }
}

/// The union of nodes.
fn or_of(found: &[Finding], nodes: &[Node]) -> Finding
    requires { AreBefore (length found.now) nodes.now }
    ensures { result ≡ or_finding (map (λ n. known_at found.now n.place) nodes.now) }
{
    let mut any_full = false;
    let mut all_empty = true;
    'operands: for node in nodes {
        let one = known(found, *node);
        any_full |= one.is_full();
        all_empty &= one.is_empty();
    }
    if any_full {
        Finding::Full
    } else if all_empty {
        Finding::Empty
    } else {
        Finding::Unknown
    }
}

/// What the row of a cell gives, by what is known of its nodes.
#[tactic(auto, unfolding(crate::specs::inner::Renewal::known_layer, expr_pool::specs::Pool::nodes_of))]
fn of_cell<L: Locality>(sig: &Sig, found: &[Finding], cell: &Cell) -> Finding
    requires { IsBefore (length found.now) cell.now }
    ensures { result ≡ verdict_step L.CLASSES L.ROLES (scope_of sig.now) (known_layer found.now cell.now) }
{
    match cell {
        Cell::Thing => Finding::Full,
        Cell::Nothing => Finding::Empty,
        Cell::Class(name) => class_of::<L>(sig, name),
        Cell::And(nodes) => and_of(found, nodes.as_slice()),
        Cell::Or(nodes) => or_of(found, nodes.as_slice()),
        Cell::Not(node) => exchange(known(found, *node)),
        Cell::Some(role, node) => some_of(role_of::<L>(sig, role), known(found, *node)),
        Cell::All(role, node) => all_of(role_of::<L>(sig, role), known(found, *node)),
        Cell::Min(n, role, node) => min_of(*n, role_of::<L>(sig, role), known(found, *node)),
        Cell::Max(n, role, node) => max_of(*n, role_of::<L>(sig, role), known(found, *node)),
        Cell::Exact(n, role, node) => exact_of(*n, role_of::<L>(sig, role), known(found, *node)),
    }
}

/// What the row of a node gives, by what is known of its parts.
pub(crate) fn renewed<L: Locality>(pool: &Pool, sig: &Sig, found: &[Finding], node: Node) -> Finding
    requires inside { node.place < length pool.now }
    requires parts { node.place ≤ length found.now }
    ensures { (v : ClassExpr → Finding) → Reads pool.now found.now v → result ≡ verdict_step L.CLASSES L.ROLES (scope_of sig.now) (map-ClassExpr _ _ v (out-ClassExpr (tree_at pool.now node))) }
{
    of_cell::<L>(sig, found, pool.node(node))
}

/// Whether nothing is known.
fn is_unknown(found: Finding) -> bool
    ensures { result ≡ is_unknown found }
{
    found == Finding::Unknown
}

/// The turn of a node: whether it sank to Unknown, and then it waits.
fn turn<L: Locality>(
    pool: &Pool,
    sig: &Sig,
    at: u64,
    found: &mut Vec<Finding>,
    waiting: &mut Vec<u64>,
) -> bool
    requires inside { at < length pool.now }
    requires long { length found.old.items ≡ length pool.now }
    requires room { length waiting.old.items + known_count found.old.items ≤ vec_capacity waiting.old }
    ensures turn { IsTurn L.CLASSES L.ROLES (scope_of sig.now) pool.now at found.old.items waiting.old.items found.new.items waiting.new.items result }
    ensures capacity { vec_capacity waiting.new ≡ vec_capacity waiting.old }
{
    let _count = pool.len();
    let node = pool.at(at);
    let before = known(found.as_slice(), node);
    if is_unknown(before) {
        return false;
    }
    let row = renewed::<L>(pool, sig, found.as_slice(), node);
    if !is_unknown(row) {
        return false;
    }
    found[at as usize] = Finding::Unknown;
    waiting.push_reserved(at);
    true
}

/// The turns of nodes.
pub(crate) fn renew_each<L: Locality>(
    pool: &Pool,
    sig: &Sig,
    list: &[u64],
    found: &mut Vec<Finding>,
    waiting: &mut Vec<u64>,
)
    requires inside { AllBelow (length pool.now) list.now }
    requires long { length found.old.items ≡ length pool.now }
    requires room { length waiting.old.items + known_count found.old.items ≤ vec_capacity waiting.old }
    requires within { AllBelow (length pool.now) waiting.old.items }
    ensures renewing { (wholes : List (List ℕ)) → LeadUp pool.now wholes → IsRenewing L.CLASSES L.ROLES (scope_of sig.now) pool.now wholes list.now found.old.items waiting.old.items
        → IsRenewing L.CLASSES L.ROLES (scope_of sig.now) pool.now wholes [] found.new.items waiting.new.items }
    ensures long { length found.new.items ≡ length pool.now }
    ensures room { length waiting.new.items + known_count found.new.items ≡ length waiting.old.items + known_count found.old.items }
    ensures within { AllBelow (length pool.now) waiting.new.items }
    ensures capacity { vec_capacity waiting.new ≡ vec_capacity waiting.old }
{
    let _count = pool.len();
    parts_have_nodes(pool);
    'nodes: for at in list {
        let _sank = turn::<L>(pool, sig, *at, found, waiting);
    }
}

/// Renews what the nodes that wait are parts of, until no node waits.
pub(crate) fn renew_all<L: Locality>(
    pool: &Pool,
    sig: &Sig,
    wholes: &Lists,
    found: &mut Vec<Finding>,
    waiting: &mut Vec<u64>,
)
    requires many { length wholes.now ≡ length pool.now }
    requires above { (j : ℕ) → AllBelow (length pool.now) (get_or wholes.now j []) }
    requires up { LeadUp pool.now wholes.now }
    requires renewing { IsRenewing L.CLASSES L.ROLES (scope_of sig.now) pool.now wholes.now [] found.old.items waiting.old.items }
    requires room { length waiting.old.items + known_count found.old.items ≤ vec_capacity waiting.old }
    requires within { AllBelow (length pool.now) waiting.old.items }
    ensures renewing { IsRenewing L.CLASSES L.ROLES (scope_of sig.now) pool.now wholes.now [] found.new.items [] }
    ensures none { waiting.new.items ≡ [] }
    ensures capacity { vec_capacity waiting.new ≡ vec_capacity waiting.old }
{
    'waits: while let Some(at) = waiting.pop() {
        renew_each::<L>(pool, sig, wholes.get(at as usize), found, waiting);
    }
}
