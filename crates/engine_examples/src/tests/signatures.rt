//! Names, and what a signature has of them.
use hash_key::HashKey;
use owl_axioms::{Axiom, Body, ClassExpr, Kind, Name, Sig, sig_of};
use rel_io::{Boxed, Dup, Iri, Items, NoMemory};
use std::alloc::Global;
use std::test::Fail;

/// The IRI of one letter.
fn letter(alloc: Global, letter: u8) -> Result<Iri, NoMemory> {
    Iri::from_slice(alloc, &[letter])
}

/// Adds the name of this kind and letter, and says whether it is new.
fn added(alloc: Global, sig: &mut Sig, kind: Kind, text: u8) -> Result<bool, NoMemory> {
    let iri = letter(alloc, text)?;
    sig.add(&Name { kind, iri })
}

/// A name is new once, an annotation property never, and one IRI may name three things.
#[test]
fn names_are_added_once(rt: HostRuntime) -> Result<(), Fail> {
    let alloc = rt.alloc();
    let mut sig = Sig::new(alloc, HashKey::new(7))?;
    let mut as_wanted = true;
    for (kind, is_new) in [
        (Kind::Class, true),
        (Kind::Role, true),
        (Kind::Role, false),
        (Kind::Individual, true),
        (Kind::AnnotationProperty, false),
        (Kind::Class, false),
    ] {
        as_wanted &= added(alloc, &mut sig, kind, b'a')? == is_new;
    }
    assert!(rt; as_wanted);
    assert_eq!(rt; sig.len(), 3);
    let twin = sig.copy(alloc)?;
    assert_eq!(rt; twin.len(), 3);
    let other = letter(alloc, b'b')?;
    assert!(rt; !twin.has(Kind::Class, &other));
    Ok(())
}

/// The axiom that the class a is below what has some filler of r in the class b, or in the class a.
fn restricted(alloc: Global, text: u8) -> Result<Axiom, NoMemory> {
    let role = letter(alloc, b'r')?;
    let above = letter(alloc, text)?;
    let below = letter(alloc, b'a')?;
    let filler = Boxed::new(alloc, ClassExpr::Class(above))?;
    Ok(Axiom {
        body: Body::Sub(ClassExpr::Class(below), ClassExpr::Some(role, filler)),
        sides: Items::from_vec(Vec::new(alloc)),
    })
}

/// The names of an axiom are added to those that are there.
#[test]
fn names_of_axioms_are_added(rt: HostRuntime) -> Result<(), Fail> {
    let alloc = rt.alloc();
    let mut sig = Sig::new(alloc, HashKey::new(7))?;
    sig_of(&restricted(alloc, b'a')?, &mut sig)?;
    assert_eq!(rt; sig.len(), 2);
    sig_of(&restricted(alloc, b'b')?, &mut sig)?;
    assert_eq!(rt; sig.len(), 3);
    let role = letter(alloc, b'r')?;
    assert!(rt; sig.has(Kind::Role, &role) && !sig.has(Kind::Class, &role));
    Ok(())
}
