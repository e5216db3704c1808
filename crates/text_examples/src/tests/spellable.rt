//! Ontologies that can be written as OBO documents, and such that cannot.
use super::functional::ontology;
use document_examples::wrong_in;
use owl_to_obo::spellable;
use rel_io::NoMemory;
use std::alloc::Global;
use std::test::Fail;

/// The axioms of an ontology of the name `ex`, as `axioms` and `exprs` read them, and whether each has a form in OBO. Of those
/// that have none some part has no id, a text has a CR, an annotation has no key, a declaration is annotated, two groups are
/// equivalent, an expression has no form, or the entity in whose frame it would stand is not declared.
const SPELLABLE: &str = r#"Declaration C{ => yes
Declaration C{;Sub {} => yes
Declaration C{;Declaration C};Disjoint }{ => yes
Declaration C{;Equiv {[ => yes
Declaration C{;Equiv {] => yes
Declaration C{;Note C{}"x => yes
Declaration R{;Transitive {;SubRole {} => yes
Declaration Ca => no
Declaration C{;Sub {a => no
Declaration C{;Note C{}"@0D@ => no
Declaration C{;Sub {}%a"x => no
Declaration C{%}"x => no
Declaration C{;Equiv [] => no
Declaration C{;Sub {! => no
Declaration C};Sub {} => no
Declaration C};Disjoint {} => yes
Declaration C};Note C{}"x => no
Declaration C{;Transitive { => no"#;

#[test]
fn ontologies_have_forms(rt: HostRuntime) -> Result<(), Fail> {
    let wrong = wrong_in(rt.alloc(), SPELLABLE, has_forms)?;
    assert_eq!(rt; wrong.as_str(), "");
    Ok(())
}

/// Whether each axiom of an example has a form.
fn has_forms(alloc: Global, input: &str) -> Result<Vec<u8>, NoMemory> {
    let ontology = ontology(alloc, "ex", input)?;
    let word: &[u8] = if spellable(alloc, &ontology)? {
        b"yes"
    } else {
        b"no"
    };
    let mut text = Vec::new(alloc);
    text.extend_from_slice(word)?;
    Ok(text)
}
