//! The test of an axiom by kept verdicts.
ghost use Rattle.std.specs.Prelude.{◌≡◌, ◌+◌, ◌<◌, true, length};
ghost use Rattle.expr_pool.specs.Pool.{tree_at};
ghost use Rattle.locality_core.specs.Plain.{IsPlainOf};
ghost use Rattle.locality_core.specs.Verdicts.{StandFor};
ghost use Rattle.locality_tables.specs.Laws.{SatisfiedInFills};
ghost use Rattle.locality_tables.specs.Local.{is_local};
ghost use Rattle.locality_tables.specs.Verdict.{verdict};
ghost use Rattle.owl_axioms.specs.Signature.{scope_of};

use crate::axioms::{disjoint_local, equiv_local, filled_local, is_local_body, sub_local};
use crate::rows::role_of;
use crate::{Locality, Plain, Verdicts};
use expr_pool::{Node, Pool};
use locality_tables::Finding;
use owl_axioms::{Axiom, Body, Sig};
use rel_io::Steps;
use std::sync::ledger::Ledger;

/// Whether an axiom is local, as `is_local` says, by what is kept of the nodes of its class expressions. Each call counts
/// once.
pub fn is_local_cached<L: Locality, G: Ledger>(
    pool: &Pool,
    sig: &Sig,
    verdicts: &Verdicts<L>,
    axiom: &Axiom,
    plain: &Plain,
    steps: &mut Steps<G>,
) -> bool
    requires stand { StandFor L.CLASSES L.ROLES (scope_of sig.now) pool.now verdicts.now }
    requires nodes { IsPlainOf pool.now «axiom».now.body plain.now }
    ensures table { result ≡ is_local L.CLASSES L.ROLES (scope_of sig.now) «axiom».now.body }
    ensures holds { result ≡ true → SatisfiedInFills L.CLASSES L.ROLES (scope_of sig.now) «axiom».now.body }
    ensures ticks { steps.new ≡ steps.old + 1 }
{
    steps.tick();
    is_local_plain::<L>(pool, sig, verdicts, &axiom.body, plain)
}

/// The kept verdict of a node.
fn kept<L: Locality>(pool: &Pool, sig: &Sig, verdicts: &Verdicts<L>, node: Node) -> Finding
    requires stand { StandFor L.CLASSES L.ROLES (scope_of sig.now) pool.now verdicts.now }
    requires inside { node.place < length pool.now }
    ensures { result ≡ verdict L.CLASSES L.ROLES (scope_of sig.now) (tree_at pool.now node) }
{
    verdicts.get(node)
}

/// Whether what an axiom says is local, by the table.
fn is_local_plain<L: Locality>(
    pool: &Pool,
    sig: &Sig,
    verdicts: &Verdicts<L>,
    body: &Body,
    plain: &Plain,
) -> bool
    requires stand { StandFor L.CLASSES L.ROLES (scope_of sig.now) pool.now verdicts.now }
    requires nodes { IsPlainOf pool.now body.now plain.now }
    ensures { result ≡ is_local L.CLASSES L.ROLES (scope_of sig.now) body.now }
{
    match plain {
        Plain::Sub(c, d) => sub_local(
            kept::<L>(pool, sig, verdicts, *c),
            kept::<L>(pool, sig, verdicts, *d),
        ),
        Plain::Equiv(c, d) => equiv_local(
            kept::<L>(pool, sig, verdicts, *c),
            kept::<L>(pool, sig, verdicts, *d),
        ),
        Plain::Disjoint(c, d) => disjoint_local(
            kept::<L>(pool, sig, verdicts, *c),
            kept::<L>(pool, sig, verdicts, *d),
        ),
        Plain::Domain(role, c) => filled_local(
            role_of::<L>(sig, role),
            kept::<L>(pool, sig, verdicts, *c),
        ),
        Plain::Range(role, c) => filled_local(
            role_of::<L>(sig, role),
            kept::<L>(pool, sig, verdicts, *c),
        ),
        Plain::ClassAssertion(c, _) => kept::<L>(pool, sig, verdicts, *c).is_full(),
        Plain::Other => is_local_body::<L>(sig, body),
    }
}
