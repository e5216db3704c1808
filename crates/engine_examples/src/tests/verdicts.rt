//! What is known of the nodes of a pool, before and after the names of its trees entered a signature.
ghost use Rattle.std.specs.Prelude.{◌≡◌, true, OnOk};
ghost use Rattle.locality_core.specs.Verdicts.{StandFor};
ghost use Rattle.locality_tables.specs.declared.fills.ClassFill.TheVariants as class;
ghost use Rattle.locality_tables.specs.declared.fills.RoleFill.TheVariants as role;
ghost use Rattle.owl_axioms.specs.Names.{has_meaning};
ghost use Rattle.owl_axioms.specs.Signature.{scope_of};

use expr_pool::Pool;
use hash_key::HashKey;
use locality_bot::Bot;
use locality_core::{Finding, Verdicts};
use owl_axioms::{ClassExpr, Kind, Name, Sig};
use rel_io::{Boxed, Iri, NoMemory};
use std::alloc::Global;
use std::test::Fail;

/// What has some filler in the class a.
fn with_a(alloc: Global) -> Result<ClassExpr, NoMemory> {
    let a = Iri::from_slice(alloc, b"a").map(ClassExpr::Class)?;
    let r = Iri::from_slice(alloc, b"r")?;
    Boxed::new(alloc, a).map(|part| ClassExpr::Some(r, part))
}

/// Whether there are two nodes, of each of which this is known.
fn are_known(pool: &Pool, sig: &Sig, verdicts: &Verdicts<Bot>, wanted: Finding) -> bool
    requires { StandFor class.Empty role.Empty (scope_of sig.now) pool.now verdicts.now }
{
    let mut are = pool.len() == 2;
    for at in 0..pool.len() {
        are &= verdicts.get(pool.at(at)) == wanted;
    }
    are
}

/// A name enters the signature.
fn enter(
    pool: &Pool,
    sig: &mut Sig,
    verdicts: &mut Verdicts<Bot>,
    name: &Name,
) -> Result<(), NoMemory>
    requires stand { StandFor class.Empty role.Empty (scope_of sig.old) pool.now verdicts.old }
    requires meant { has_meaning name.now.kind ≡ true }
    ensures { OnOk result (StandFor class.Empty role.Empty (scope_of sig.new) pool.now verdicts.new) }
{
    sig.add(name)?;
    verdicts.grow(pool, sig, name);
    Ok(())
}

/// The property r enters the signature.
fn enter_property(
    alloc: Global,
    pool: &Pool,
    sig: &mut Sig,
    verdicts: &mut Verdicts<Bot>,
) -> Result<(), NoMemory>
    requires stand { StandFor class.Empty role.Empty (scope_of sig.old) pool.now verdicts.old }
    ensures { OnOk result (StandFor class.Empty role.Empty (scope_of sig.new) pool.now verdicts.new) }
{
    let iri = Iri::from_slice(alloc, b"r")?;
    let kind = Kind::Role;
    enter(pool, sig, verdicts, &Name { kind, iri })
}

/// The class a enters the signature.
fn enter_class(
    alloc: Global,
    pool: &Pool,
    sig: &mut Sig,
    verdicts: &mut Verdicts<Bot>,
) -> Result<(), NoMemory>
    requires stand { StandFor class.Empty role.Empty (scope_of sig.old) pool.now verdicts.old }
    ensures { OnOk result (StandFor class.Empty role.Empty (scope_of sig.new) pool.now verdicts.new) }
{
    let iri = Iri::from_slice(alloc, b"a")?;
    let kind = Kind::Class;
    enter(pool, sig, verdicts, &Name { kind, iri })
}

/// Whether two nodes are empty for bottom where the signature has no name, and when the property entered it, and nothing is
/// known of them when the class entered it too.
fn are_renewed(alloc: Global, pool: &Pool) -> Result<bool, NoMemory> {
    let mut sig = Sig::new(alloc, HashKey::new(7))?;
    let mut verdicts = Verdicts::<Bot>::new(alloc, pool, &sig)?;
    let first = are_known(pool, &sig, &verdicts, Finding::Empty);
    enter_property(alloc, pool, &mut sig, &mut verdicts)?;
    let second = are_known(pool, &sig, &verdicts, Finding::Empty);
    enter_class(alloc, pool, &mut sig, &mut verdicts)?;
    Ok(first && second && are_known(pool, &sig, &verdicts, Finding::Unknown))
}

/// What is known of the nodes of a pool with a restriction and its filler.
#[test]
fn verdicts_are_kept(rt: HostRuntime) -> Result<(), Fail> {
    let alloc = rt.alloc();
    let tree = with_a(alloc)?;
    let mut pool = Pool::new(alloc, HashKey::new(7))?;
    pool.intern(&tree)?;
    drop(tree);
    let renewed = are_renewed(alloc, &pool)?;
    assert!(rt; renewed);
    Ok(())
}
