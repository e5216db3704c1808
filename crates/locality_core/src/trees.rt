//! The verdict on a tree of any forest.
ghost use Rattle.std.specs.Prelude.{◌≡◌};
ghost use Rattle.locality_tables.specs.Laws.{EmptyInFills, FullInFills};
ghost use Rattle.locality_tables.specs.Verdict.{verdict};
ghost use Rattle.locality_tables.specs.declared.finding.Finding.TheVariants as finding;
ghost use Rattle.owl_axioms.specs.Signature.{scope_of};

use crate::rows::{all_of, class_of, exact_of, exchange, max_of, min_of, role_of, some_of};
use crate::{Forest, Locality, Look};
use locality_tables::Finding;
use owl_axioms::Sig;

/// What is known of the elements of an expression, whatever an ontology says of the names in the signature, where the
/// names outside are filled as the kind says.
pub fn verdict<L: Locality, F: Forest>(forest: &F, sig: &Sig, tree: F::Tree) -> Finding
    requires { F.has forest.now tree }
    ensures table { result ≡ verdict L.CLASSES L.ROLES (scope_of sig.now) (F.stands forest.now tree) }
    ensures empty { result ≡ finding.Empty → EmptyInFills L.CLASSES L.ROLES (scope_of sig.now) (F.stands forest.now tree) }
    ensures full { result ≡ finding.Full → FullInFills L.CLASSES L.ROLES (scope_of sig.now) (F.stands forest.now tree) }
{
    verdict_of::<L, F>(forest, sig, tree)
}

/// The verdict on a tree, by what is known of its parts.
fn verdict_of<L: Locality, F: Forest>(forest: &F, sig: &Sig, tree: F::Tree) -> Finding
    requires { F.has forest.now tree }
    ensures { result ≡ verdict L.CLASSES L.ROLES (scope_of sig.now) (F.stands forest.now tree) }
{
    match forest.look(tree) {
        Look::Thing => Finding::Full,
        Look::Nothing => Finding::Empty,
        Look::Class(name) => class_of::<L>(sig, name),
        Look::And(count) => {
            let mut any_empty = false;
            let mut all_full = true;
            'operands: for at in 0..count {
                let found = verdict_of::<L, F>(forest, sig, forest.operand(tree, at));
                any_empty |= found.is_empty();
                all_full &= found.is_full();
            }
            if any_empty {
                Finding::Empty
            } else if all_full {
                Finding::Full
            } else {
                Finding::Unknown
            }
        }
        Look::Or(count) => {
            let mut any_full = false;
            let mut all_empty = true;
            'choices: for at in 0..count {
                let found = verdict_of::<L, F>(forest, sig, forest.operand(tree, at));
                any_full |= found.is_full();
                all_empty &= found.is_empty();
            }
            if any_full {
                Finding::Full
            } else if all_empty {
                Finding::Empty
            } else {
                Finding::Unknown
            }
        }
        Look::Not(part) => exchange(verdict_of::<L, F>(forest, sig, part)),
        Look::Some(role, part) => some_of(
            role_of::<L>(sig, role),
            verdict_of::<L, F>(forest, sig, part),
        ),
        Look::All(role, part) => all_of(
            role_of::<L>(sig, role),
            verdict_of::<L, F>(forest, sig, part),
        ),
        Look::Min(n, role, part) => min_of(
            n,
            role_of::<L>(sig, role),
            verdict_of::<L, F>(forest, sig, part),
        ),
        Look::Max(n, role, part) => max_of(
            n,
            role_of::<L>(sig, role),
            verdict_of::<L, F>(forest, sig, part),
        ),
        Look::Exact(n, role, part) => exact_of(
            n,
            role_of::<L>(sig, role),
            verdict_of::<L, F>(forest, sig, part),
        ),
    }
}
