//! `Verdicts`: what is known of each node of a pool, kept while a signature grows.
ghost use Rattle.std.specs.Prelude.{◌≡◌, ◌+◌, ◌<◌, ◌≤◌, ℕ, List, [], Some, IfOk, get_or, length, map, slice_get};
ghost use Rattle.std.specs.Vec.{vec_capacity};
ghost use Rattle.fact_rows.specs.Member.{In};
ghost use Rattle.locality_core.specs.Verdicts.{IsWithName, StandFor, StandWithout, top_name};
ghost use Rattle.locality_core.specs.inner.Renewal.{AllBelow, IsRenewing, LeadUp, known_count};
ghost use Rattle.locality_tables.specs.Verdict.{verdict};
ghost use Rattle.name_lists.specs.Lists.{HasNumber};
ghost use Rattle.owl_axioms.specs.Names.{Scope};
ghost use Rattle.owl_axioms.specs.Signature.{scope_of};
ghost use Rattle.owl_axioms.specs.declared.expr.ClassExpr.{ClassExpr};

use crate::Locality;
use crate::index::{Index, index_of};
use crate::renewal::{renew_all, renew_each, renewed};
use expr_pool::{Node, Pool, parts_have_nodes};
use locality_tables::Finding;
use name_lists::{Lists, NamedLists};
use owl_axioms::{ClassExpr, Name, Sig};
use rel_io::NoMemory;
use std::alloc::Global;
use std::marker::{Model, PhantomData};

/// What is known of each node of a pool for a signature: seen as these findings, with the index by which they are renewed
/// when a name enters.
#[derive(Drop)]
pub struct Verdicts<L: Locality> {
    found: Vec<Finding>,
    wholes: Lists,
    uses: NamedLists,
    waiting: Vec<u64>,
    kind: PhantomData<L>,
}

impl<L: Locality> Model for Verdicts<L> {
    ghost use Rattle.std.specs.Prelude.{◌≡◌, ◌≤◌, [], length};
    ghost use Rattle.std.specs.Vec.{vec_capacity};
    ghost use Rattle.locality_core.specs.Verdicts.{VerdictState};

    ghost Value = { VerdictState };

    ghost view = { λ v. record { findings = v.found.items; wholes = v.wholes; uses = v.uses } };

    ghost invariant = { λ v. (length v.found.items ≤ vec_capacity v.waiting) × (v.waiting.items ≡ []) };
}

impl<L: Locality> Verdicts<L> {
    /// The verdict of each node. It takes all memory that is needed when names enter.
    pub fn new(alloc: Global, pool: &Pool, sig: &Sig) -> Result<Verdicts<L>, NoMemory>
        ensures { IfOk result (λ v. StandFor L.CLASSES L.ROLES (scope_of sig.now) pool.now v) }
    {
        let found = verdicts_of::<L>(alloc, pool, sig)?;
        let Index { wholes, uses } = index_of(alloc, pool)?;
        let waiting = Vec::with_capacity(alloc, found.len())?;
        Ok(Verdicts {
            found,
            wholes,
            uses,
            waiting,
            kind: PhantomData,
        })
    }

    /// What is known of a node.
    pub fn get(&self, node: Node) -> Finding
        requires { node.place < length self.now.findings }
        ensures { slice_get self.now.findings node.place ≡ Some result }
    {
        self.found[node.place() as usize]
    }

    /// Renews what is known after a name entered the signature: from the nodes that have the name at the top to the
    /// nodes above those that changed. Each node changes once at most while a signature grows.
    pub fn grow(&mut self, pool: &Pool, sig: &Sig, name: &Name)
        requires { StandWithout L.CLASSES L.ROLES (scope_of sig.now) name.now pool.now self.old }
        ensures { StandFor L.CLASSES L.ROLES (scope_of sig.now) pool.now self.new }
    {
        let _count = pool.len();
        parts_have_nodes(pool);
        renew_users::<L>(
            pool,
            sig,
            &self.uses,
            name,
            &mut self.found,
            &mut self.waiting,
        );
        renew_all::<L>(pool, sig, &self.wholes, &mut self.found, &mut self.waiting);
    }
}

/// The verdict of each node, in order.
fn verdicts_of<L: Locality>(alloc: Global, pool: &Pool, sig: &Sig) -> Result<Vec<Finding>, NoMemory>
    ensures { IfOk result (λ found. found.items ≡ map (verdict L.CLASSES L.ROLES (scope_of sig.now)) pool.now) }
{
    let count = pool.len();
    let mut found = Vec::new(alloc);
    'nodes: for at in 0..count {
        let row = renewed::<L>(pool, sig, found.as_slice(), pool.at(at));
        found.push(row)?;
    }
    Ok(found)
}

/// Renews the nodes that have a name at the top.
fn renew_users<L: Locality>(
    pool: &Pool,
    sig: &Sig,
    uses: &NamedLists,
    name: &Name,
    found: &mut Vec<Finding>,
    waiting: &mut Vec<u64>,
)
    requires stands { (before : Scope) × IsWithName before (scope_of sig.now) name.now × (found.old.items ≡ map (verdict L.CLASSES L.ROLES before) pool.now) }
    requires names { (i : ℕ) (t : ClassExpr) → slice_get pool.now i ≡ Some t → top_name t ≡ Some name.now → HasNumber uses.now name.now i }
    requires using { (s i : ℕ) → In i (get_or uses.now.lists s []) → i < length pool.now }
    requires none { waiting.old.items ≡ [] }
    requires room { length found.old.items ≤ vec_capacity waiting.old }
    ensures renewing { (wholes : List (List ℕ)) → LeadUp pool.now wholes → IsRenewing L.CLASSES L.ROLES (scope_of sig.now) pool.now wholes [] found.new.items waiting.new.items }
    ensures room { length waiting.new.items + known_count found.new.items ≤ vec_capacity waiting.new }
    ensures within { AllBelow (length pool.now) waiting.new.items }
    ensures capacity { vec_capacity waiting.new ≡ vec_capacity waiting.old }
{
    let _count = pool.len();
    parts_have_nodes(pool);
    match uses.place(name) {
        None => {}
        Some(at) => renew_each::<L>(pool, sig, uses.get(at), found, waiting),
    }
}
