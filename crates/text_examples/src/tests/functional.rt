//! Ontologies with their functional-style texts.
use super::axioms::axiom;
use document_examples::{bytes_of, wrong_in};
use hash_key::HashKey;
use ofn_writer::ofn_text;
use owl_ontology::{Ontology, Origin};
use rel_io::{Bytes, NoMemory};
use std::alloc::Global;
use std::test::Fail;

/// The name of an ontology, and behind a `;` each of its axioms, as `axioms` and `exprs` read them; and its text, with `|`
/// for LF.
const TEXTS: &str = r#" => Ontology(|)|
ex => Ontology(<http://purl.obolibrary.org/obo/ex.owl>|)|
a b => Ontology(<http://purl.obolibrary.org/obo/a%20b.owl>|)|
http://a.b/c d => Ontology(<http://a.b/c%20d>|)|
;OntologyNote p"x => Ontology(|Annotation(<p> "x")|)|
ex;Sub ab;Equiv ba;Disjoint cb;SubRole pq;Chain pqr;EquivRoles qp;DisjointRoles qr;Inverse rp;Transitive p;Reflexive q;Symmetric r;Asymmetric s;Functional t;InverseFunctional u;Domain pa;Range qb;ClassAssertion ia;RoleAssertion pij;Declaration Ca;Note Cap"x;OntologyNote p"y => Ontology(<http://purl.obolibrary.org/obo/ex.owl>|Annotation(<p> "y")|AnnotationAssertion(<p> <a> "x")|AsymmetricObjectProperty(<s>)|ClassAssertion(<a> <i>)|Declaration(Class(<a>))|DisjointClasses(<b> <c>)|DisjointObjectProperties(<q> <r>)|EquivalentClasses(<a> <b>)|EquivalentObjectProperties(<p> <q>)|FunctionalObjectProperty(<t>)|InverseFunctionalObjectProperty(<u>)|InverseObjectProperties(<p> <r>)|ObjectPropertyAssertion(<p> <i> <j>)|ObjectPropertyDomain(<p> <a>)|ObjectPropertyRange(<q> <b>)|ReflexiveObjectProperty(<q>)|SubClassOf(<a> <b>)|SubObjectPropertyOf(<p> <q>)|SubObjectPropertyOf(ObjectPropertyChain(<p> <q>) <r>)|SymmetricObjectProperty(<r>)|TransitiveObjectProperty(<p>)|)|
ex;Inverse pr;Note Cap"x;RoleAssertion pij;DisjointRoles rq;Sub ab;OntologyNote p"y;Chain pqr;Equiv ab;Range qb;Functional t;Sub ab;Symmetric r;Declaration Ca;EquivRoles pq;Disjoint bc;OntologyNote p"y;InverseFunctional u;Equiv ba;Asymmetric s;Reflexive q;ClassAssertion ia;Domain pa;SubRole pq;Transitive p;Note Cap"x => Ontology(<http://purl.obolibrary.org/obo/ex.owl>|Annotation(<p> "y")|AnnotationAssertion(<p> <a> "x")|AsymmetricObjectProperty(<s>)|ClassAssertion(<a> <i>)|Declaration(Class(<a>))|DisjointClasses(<b> <c>)|DisjointObjectProperties(<q> <r>)|EquivalentClasses(<a> <b>)|EquivalentObjectProperties(<p> <q>)|FunctionalObjectProperty(<t>)|InverseFunctionalObjectProperty(<u>)|InverseObjectProperties(<p> <r>)|ObjectPropertyAssertion(<p> <i> <j>)|ObjectPropertyDomain(<p> <a>)|ObjectPropertyRange(<q> <b>)|ReflexiveObjectProperty(<q>)|SubClassOf(<a> <b>)|SubObjectPropertyOf(<p> <q>)|SubObjectPropertyOf(ObjectPropertyChain(<p> <q>) <r>)|SymmetricObjectProperty(<r>)|TransitiveObjectProperty(<p>)|)|
ex;Sub ab%z"v;Equiv ba%z"v;Disjoint cb%z"v;SubRole pq%z"v;Chain pqr%z"v;EquivRoles qp%z"v;DisjointRoles qr%z"v;Inverse rp%z"v;Transitive p%z"v;Reflexive q%z"v;Symmetric r%z"v;Asymmetric s%z"v;Functional t%z"v;InverseFunctional u%z"v;Domain pa%z"v;Range qb%z"v;ClassAssertion ia%z"v;RoleAssertion pij%z"v;Declaration Ca%z"v;Note Cap"x%z"v;OntologyNote p"y%z"v => Ontology(<http://purl.obolibrary.org/obo/ex.owl>|Annotation(Annotation(<z> "v") <p> "y")|AnnotationAssertion(Annotation(<z> "v") <p> <a> "x")|AsymmetricObjectProperty(Annotation(<z> "v") <s>)|ClassAssertion(Annotation(<z> "v") <a> <i>)|Declaration(Annotation(<z> "v") Class(<a>))|DisjointClasses(Annotation(<z> "v") <b> <c>)|DisjointObjectProperties(Annotation(<z> "v") <q> <r>)|EquivalentClasses(Annotation(<z> "v") <a> <b>)|EquivalentObjectProperties(Annotation(<z> "v") <p> <q>)|FunctionalObjectProperty(Annotation(<z> "v") <t>)|InverseFunctionalObjectProperty(Annotation(<z> "v") <u>)|InverseObjectProperties(Annotation(<z> "v") <p> <r>)|ObjectPropertyAssertion(Annotation(<z> "v") <p> <i> <j>)|ObjectPropertyDomain(Annotation(<z> "v") <p> <a>)|ObjectPropertyRange(Annotation(<z> "v") <q> <b>)|ReflexiveObjectProperty(Annotation(<z> "v") <q>)|SubClassOf(Annotation(<z> "v") <a> <b>)|SubObjectPropertyOf(Annotation(<z> "v") <p> <q>)|SubObjectPropertyOf(Annotation(<z> "v") ObjectPropertyChain(<p> <q>) <r>)|SymmetricObjectProperty(Annotation(<z> "v") <r>)|TransitiveObjectProperty(Annotation(<z> "v") <p>)|)|
;Sub a1;Sub 0a;Sub a&;Sub a/;Sub a!;Sub aS;Sub aA;Sub aL;Sub aM;Sub aX;Sub aD => Ontology(|SubClassOf(<a> <http://www.w3.org/2002/07/owl#Thing>)|SubClassOf(<a> ObjectAllValuesFrom(<p> <a>))|SubClassOf(<a> ObjectAllValuesFrom(<q> ObjectIntersectionOf(<a> <b> ObjectComplementOf(ObjectSomeValuesFrom(<p> <http://www.w3.org/2002/07/owl#Thing>)))))|SubClassOf(<a> ObjectComplementOf(<a>))|SubClassOf(<a> ObjectExactCardinality(4294967295 <p> <a>))|SubClassOf(<a> ObjectIntersectionOf(<a> <b> <c>))|SubClassOf(<a> ObjectMaxCardinality(30 <p> <a>))|SubClassOf(<a> ObjectMinCardinality(2 <p> <a>))|SubClassOf(<a> ObjectSomeValuesFrom(<p> <a>))|SubClassOf(<a> ObjectUnionOf(<a> <b> <c>))|SubClassOf(<http://www.w3.org/2002/07/owl#Nothing> <a>)|)|
;Equiv aS;Equiv Sa;Disjoint &!;Disjoint aa;Domain p/;Range p0;ClassAssertion iX => Ontology(|ClassAssertion(ObjectExactCardinality(4294967295 <p> <a>) <i>)|DisjointClasses(<a> <a>)|DisjointClasses(ObjectComplementOf(<a>) ObjectIntersectionOf(<a> <b> <c>))|EquivalentClasses(<a> ObjectSomeValuesFrom(<p> <a>))|ObjectPropertyDomain(<p> ObjectUnionOf(<a> <b> <c>))|ObjectPropertyRange(<p> <http://www.w3.org/2002/07/owl#Nothing>)|)|
;Note Cap"a;OntologyNote q"b;OntologyNote px;Declaration Ca;OntologyNote p"c%q"n;OntologyNote p"c;OntologyNote p^d5 => Ontology(|Annotation(<p> "5"^^<d>)|Annotation(<p> "c")|Annotation(<p> <x>)|Annotation(<q> "b")|Annotation(Annotation(<q> "n") <p> "c")|AnnotationAssertion(<p> <a> "a")|Declaration(Class(<a>))|)|
;Sub ab%q"y%p"x~l%pz%p^dv%p"x;Sub ab;Sub ab%p"x%p"x;Sub ab%p"x;Sub ab%pz~m => Ontology(|SubClassOf(<a> <b>)|SubClassOf(Annotation(<p> "v"^^<d>) Annotation(<p> "x") Annotation(<p> <z>) Annotation(<q> "y") Annotation(Annotation(<http://www.w3.org/2000/01/rdf-schema#label> "l") <p> "x") <a> <b>)|SubClassOf(Annotation(<p> "x") <a> <b>)|SubClassOf(Annotation(Annotation(<http://www.w3.org/2000/01/rdf-schema#label> "m") <p> <z>) <a> <b>)|)|
;Note Cap"a"b\c|d;Note Cap^d\;Note Cap"@09@é@0D@ => Ontology(|AnnotationAssertion(<p> <a> "@09@é@0D@")|AnnotationAssertion(<p> <a> "\\"^^<d>)|AnnotationAssertion(<p> <a> "a\"b\\c|d")|)|
;Sub ab%q"\|~"|%q^d"|;OntologyNote p"| => Ontology(|Annotation(<p> "|")|SubClassOf(Annotation(<q> "\"|"^^<d>) Annotation(Annotation(<http://www.w3.org/2000/01/rdf-schema#label> "\"|") <q> "\\|") <a> <b>)|)|
;Note Cap"a b;Note Cap"a|z => Ontology(|AnnotationAssertion(<p> <a> "a|z")|AnnotationAssertion(<p> <a> "a b")|)|
;Note Cap"";Note Cap"[ => Ontology(|AnnotationAssertion(<p> <a> "[")|AnnotationAssertion(<p> <a> "\"")|)|
;Declaration Ca;Declaration Ra;Note Cap"x;Note Rap"x;Note Iap"x;Note Aap"x => Ontology(|AnnotationAssertion(Annotation(<http://www.geneontology.org/formats/oboInOwl#kind> "annotation-property") <p> <a> "x")|AnnotationAssertion(Annotation(<http://www.geneontology.org/formats/oboInOwl#kind> "class") <p> <a> "x")|AnnotationAssertion(Annotation(<http://www.geneontology.org/formats/oboInOwl#kind> "individual") <p> <a> "x")|AnnotationAssertion(Annotation(<http://www.geneontology.org/formats/oboInOwl#kind> "role") <p> <a> "x")|Declaration(Class(<a>))|Declaration(ObjectProperty(<a>))|)|
;Declaration Aa;Note Iap"x%c"y;Declaration Ia%z"v => Ontology(|AnnotationAssertion(Annotation(<http://www.geneontology.org/formats/oboInOwl#kind> "individual") Annotation(<c> "y") <p> <a> "x")|Declaration(Annotation(<z> "v") NamedIndividual(<a>))|Declaration(AnnotationProperty(<a>))|)|
;Declaration Ca;Declaration Ca%z"v;Declaration Rb;Note Cap"x;Note Rbp"x;Note Icp"x => Ontology(|AnnotationAssertion(<p> <a> "x")|AnnotationAssertion(<p> <b> "x")|AnnotationAssertion(<p> <c> "x")|Declaration(Annotation(<z> "v") Class(<a>))|Declaration(Class(<a>))|Declaration(ObjectProperty(<b>))|)|
;Declaration Ca;Declaration Ia;Note Cbaa;OntologyNote aa;Sub aS => Ontology(|Annotation(<a> <a>)|AnnotationAssertion(<a> <b> <a>)|Declaration(Class(<a>))|Declaration(NamedIndividual(<a>))|SubClassOf(<a> ObjectSomeValuesFrom(<p> <a>))|)|
;Declaration Ca;Note Cap"x;Note Rap"x => Ontology(|AnnotationAssertion(<p> <a> "x")|AnnotationAssertion(<p> <a> "x")|Declaration(Class(<a>))|)|
;Sub ab;Transitive a;Note Cap"x => Ontology(|AnnotationAssertion(<p> <a> "x")|SubClassOf(<a> <b>)|TransitiveObjectProperty(<a>)|)|"#;

#[test]
fn ontologies_have_their_texts(rt: HostRuntime) -> Result<(), Fail> {
    let wrong = wrong_in(rt.alloc(), TEXTS, text_of)?;
    assert_eq!(rt; wrong.as_str(), "");
    Ok(())
}

/// The text of the ontology of an example.
fn text_of(alloc: Global, input: &str) -> Result<Vec<u8>, NoMemory> {
    let (name, axioms) = input.split_once(';').unwrap_or((input, ""));
    let ontology = ontology(alloc, name, axioms)?;
    ofn_text(alloc, &ontology).map(Bytes::into_vec)
}

/// The ontology of this name with these axioms, or of none where the name is empty.
pub fn ontology(alloc: Global, name: &str, axioms: &str) -> Result<Ontology, NoMemory> {
    let mut ontology = Ontology::new(alloc, HashKey::new(7), name_of(alloc, name)?)?;
    if axioms.is_empty() {
        return Ok(ontology);
    }
    for text in axioms.split(';') {
        add(alloc, &mut ontology, text)?;
    }
    Ok(ontology)
}

/// The name, where it is not empty.
fn name_of(alloc: Global, name: &str) -> Result<Option<Bytes>, NoMemory> {
    if name.is_empty() {
        return Ok(None);
    }
    Ok(Some(Bytes::from_vec(bytes_of(alloc, name)?)))
}

/// Adds an axiom.
fn add(alloc: Global, ontology: &mut Ontology, text: &str) -> Result<bool, NoMemory> {
    let axiom = axiom(alloc, text)?;
    ontology.add(axiom, Origin { file: 0, line: 1 })
}
