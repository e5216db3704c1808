//! Tables of ids, IRIs and names, worked out by hand from the rules.
use crate::{bytes_of, push, wrong_in};
use iri_map::{id_of, iri_of, name_or_temp, ontology_iri, ontology_value};
use rel_io::{Bytes, Iri, NoMemory};
use std::alloc::Global;
use std::test::Fail;

/// An id in the ontology `ex`; its IRI, and the id that the IRI is written by.
const IDS: &str = r##"EX:0000001 => http://purl.obolibrary.org/obo/EX_0000001 EX:0000001
EX:a b => http://purl.obolibrary.org/obo/EX#_a%20b EX:a b
part_of => http://purl.obolibrary.org/obo/ex#part_of part_of
_x => http://purl.obolibrary.org/obo/ex#_x ex:x
http://a.b/c => http://a.b/c http://a.b/c
a:b:c => http://purl.obolibrary.org/obo/a#_b%3Ac a:b:c
:x => http://purl.obolibrary.org/obo/#_x :x
a: => http://purl.obolibrary.org/obo/a#_ a:
GO:000000A => http://purl.obolibrary.org/obo/GO#_000000A GO:000000A
GO_x:1 => http://purl.obolibrary.org/obo/GO_x_1 GO_x:1
1A:2 => http://purl.obolibrary.org/obo/1A#_2 1A:2
_A:2 => http://purl.obolibrary.org/obo/_A#_2 _A:2
a b => http://purl.obolibrary.org/obo/ex#a%20b a b
a@09@b => http://purl.obolibrary.org/obo/ex#a%09b a@09@b
a@0A@b => http://purl.obolibrary.org/obo/ex#a%0Ab a@0A@b
100% => http://purl.obolibrary.org/obo/ex#100%25 100%
%41 => http://purl.obolibrary.org/obo/ex#%2541 %41
a#b => http://purl.obolibrary.org/obo/ex#a%23b a#b
é => http://purl.obolibrary.org/obo/ex#%C3%A9 é
a/b => http://purl.obolibrary.org/obo/ex#a/b a/b
-._~ => http://purl.obolibrary.org/obo/ex#-._~ -._~
a@0D@b => http://purl.obolibrary.org/obo/ex#a%0Db http://purl.obolibrary.org/obo/ex#a%0Db
@FF@ => http://purl.obolibrary.org/obo/ex#%FF http://purl.obolibrary.org/obo/ex#%FF
 => http://purl.obolibrary.org/obo/ex# http://purl.obolibrary.org/obo/ex#
http://a.b/%41 c => http://a.b/%41%20c http://a.b/%41%20c
http://a.b/"<>\^`{@7C@} => http://a.b/%22%3C%3E%5C%5E%60%7B%7C%7D http://a.b/%22%3C%3E%5C%5E%60%7B%7C%7D
http:// => http:// http://
https://a:1 => https://a:1 https://a:1
http:/a => http://purl.obolibrary.org/obo/http#_/a http:/a"##;

#[test]
fn ids_have_iris(rt: HostRuntime) -> Result<(), Fail> {
    let wrong = wrong_in(rt.alloc(), IDS, iri_and_id)?;
    assert_eq!(rt; wrong.as_str(), "");
    Ok(())
}

/// The IRI of an id, and the id of that IRI.
fn iri_and_id(alloc: Global, id: &str) -> Result<Vec<u8>, NoMemory> {
    let id = Bytes::from_vec(bytes_of(alloc, id)?);
    let ontology = Bytes::from_slice(alloc, b"ex")?;
    shown(alloc, &id, &ontology)
}

/// An IRI; the id that it is written by in the ontology `ex`, if one can be.
const IRIS: &str = r##"http://purl.obolibrary.org/obo/a_b_1 => a_b:1
http://purl.obolibrary.org/obo/1_2 => http://purl.obolibrary.org/obo/1_2
http://purl.obolibrary.org/obo/x_ => http://purl.obolibrary.org/obo/x_
http://purl.obolibrary.org/obo/ex#a%3Ab => http://purl.obolibrary.org/obo/ex#a%3Ab
http://purl.obolibrary.org/obo/a%23b#_c => a#b:c
http://purl.obolibrary.org/obo/a#_b#c => http://purl.obolibrary.org/obo/a#_b#c
http://purl.obolibrary.org/obo/ex#a%0Db => http://purl.obolibrary.org/obo/ex#a%0Db
http://purl.obolibrary.org/obo/ex#%FF => http://purl.obolibrary.org/obo/ex#%FF
http://purl.obolibrary.org/obo/ex#%c3%a9 => http://purl.obolibrary.org/obo/ex#%c3%a9
http:// => http://
http://a b => none
urn:x => none
 => none"##;

#[test]
fn iris_have_ids(rt: HostRuntime) -> Result<(), Fail> {
    let wrong = wrong_in(rt.alloc(), IRIS, id_in_ex)?;
    assert_eq!(rt; wrong.as_str(), "");
    Ok(())
}

/// The id that an IRI is written by.
fn id_in_ex(alloc: Global, iri: &str) -> Result<Vec<u8>, NoMemory> {
    let iri = Iri::from_vec(bytes_of(alloc, iri)?);
    let ontology = Bytes::from_slice(alloc, b"ex")?;
    match id_of(alloc, &iri, &ontology)? {
        Some(id) => Ok(id.into_vec()),
        None => Ok(Vec::from_slice(alloc, b"none")?),
    }
}

/// A name of an ontology; the IRI of the id `x` there, and the id that this is written by.
const NAMES: &str = r##"go => http://purl.obolibrary.org/obo/go#x x
go/plus => http://purl.obolibrary.org/obo/go/plus#x x
my go => http://purl.obolibrary.org/obo/my%20go#x x
 => http://purl.obolibrary.org/obo/TEMP#x x
TEMP => http://purl.obolibrary.org/obo/TEMP#x x"##;

#[test]
fn names_lead_iris(rt: HostRuntime) -> Result<(), Fail> {
    let wrong = wrong_in(rt.alloc(), NAMES, iri_of_x)?;
    assert_eq!(rt; wrong.as_str(), "");
    Ok(())
}

/// The IRI of `x` in an ontology of this name, and the id of that IRI.
fn iri_of_x(alloc: Global, name: &str) -> Result<Vec<u8>, NoMemory> {
    let name = Bytes::from_vec(bytes_of(alloc, name)?);
    let given = if name.as_slice().is_empty() {
        None
    } else {
        Some(&name)
    };
    let ontology = name_or_temp(alloc, given)?;
    let id = Bytes::from_slice(alloc, b"x")?;
    shown(alloc, &id, &ontology)
}

/// A value of the tag `ontology`; the IRI of the ontology, and the normalised value of that IRI.
const ONTOLOGIES: &str = r##"go => http://purl.obolibrary.org/obo/go.owl go
http://purl.obolibrary.org/obo/go.owl => http://purl.obolibrary.org/obo/go.owl go
go.owl => http://purl.obolibrary.org/obo/go.owl.owl go.owl
go/plus => http://purl.obolibrary.org/obo/go/plus.owl go/plus
my go => http://purl.obolibrary.org/obo/my%20go.owl my go
http://purl.obolibrary.org/obo/my go.owl => http://purl.obolibrary.org/obo/my%20go.owl my go
http://purl.obolibrary.org/obo/%c3%a9.owl => http://purl.obolibrary.org/obo/%c3%a9.owl http://purl.obolibrary.org/obo/%c3%a9.owl
http://purl.obolibrary.org/obo/http%3A//x.owl => http://purl.obolibrary.org/obo/http%3A//x.owl http://purl.obolibrary.org/obo/http%3A//x.owl
https://a.b/c d => https://a.b/c%20d https://a.b/c%20d
é => http://purl.obolibrary.org/obo/%C3%A9.owl é
 => http://purl.obolibrary.org/obo/.owl http://purl.obolibrary.org/obo/.owl
a@0D@b => http://purl.obolibrary.org/obo/a%0Db.owl http://purl.obolibrary.org/obo/a%0Db.owl
@FF@ => http://purl.obolibrary.org/obo/%FF.owl http://purl.obolibrary.org/obo/%FF.owl"##;

#[test]
fn ontologies_have_iris(rt: HostRuntime) -> Result<(), Fail> {
    let wrong = wrong_in(rt.alloc(), ONTOLOGIES, iri_and_value)?;
    assert_eq!(rt; wrong.as_str(), "");
    Ok(())
}

/// The IRI of a value, and the value of that IRI.
fn iri_and_value(alloc: Global, value: &str) -> Result<Vec<u8>, NoMemory> {
    let value = Bytes::from_vec(bytes_of(alloc, value)?);
    let iri = ontology_iri(alloc, &value)?;
    let value = ontology_value(alloc, &iri)?;
    both(alloc, &iri, value.as_slice())
}

/// The IRI of an id in an ontology, and the id of that IRI.
fn shown(alloc: Global, id: &Bytes, ontology: &Bytes) -> Result<Vec<u8>, NoMemory> {
    let iri = iri_of(alloc, id, ontology)?;
    match id_of(alloc, &iri, ontology)? {
        Some(id) => both(alloc, &iri, id.as_slice()),
        None => Ok(iri.into_vec()),
    }
}

/// An IRI and a text.
fn both(alloc: Global, iri: &Iri, text: &[u8]) -> Result<Vec<u8>, NoMemory> {
    let mut shown = Vec::from_slice(alloc, iri.as_slice())?;
    push(&mut shown, b" ")?;
    push(&mut shown, text)?;
    Ok(shown)
}
