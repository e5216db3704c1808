//! Copies of the types of the ground and of small types, and the outside in memory, each once.
use crate::folder_of;
use chain_words::{Format, Method};
use document_examples::is_copied;
use owl_axioms::Kind;
use owl_ontology::Origin;
use rel_io::{
    Boxed, Bytes, Folder, Got, Iri, Items, MemSink, NoMemory, Opened, PutFault, Sink, SinkFailed,
};
use std::alloc::Global;
use std::test::Fail;

#[test]
fn copies_are_equal(rt: HostRuntime) -> Result<(), Fail> {
    assert!(rt; numbers_are_copied(rt.alloc())?);
    assert!(rt; texts_are_copied(rt.alloc())?);
    assert!(rt; small_values_are_copied(rt.alloc())?);
    Ok(())
}

/// Whether copies of numbers in pairs and triples are equal to them.
fn numbers_are_copied(alloc: Global) -> Result<bool, NoMemory> {
    Ok(
        is_copied(alloc, &((1u8, 2u16, 3u32), (4u64, 5u128, 6usize)))?
            && is_copied(alloc, &((-1i8, -2i16, -3i32), (-4i64, -5i128, -6isize)))?,
    )
}

/// Whether copies of texts are equal to them, also behind a pointer and in a list.
fn texts_are_copied(alloc: Global) -> Result<bool, NoMemory> {
    let iri = Iri::from_slice(alloc, b"http://a.b/c")?;
    let boxed = Boxed::new(alloc, Bytes::from_slice(alloc, b"a b")?)?;
    let mut items = Vec::new(alloc);
    items.push(Bytes::from_slice(alloc, b"x")?)?;
    items.push(Bytes::from_slice(alloc, b"")?)?;
    let items = Items::from_vec(items);
    Ok(is_copied(alloc, &iri)? && is_copied(alloc, &boxed)? && is_copied(alloc, &items)?)
}

/// Whether copies of values of a few bytes are equal to them.
fn small_values_are_copied(alloc: Global) -> Result<bool, NoMemory> {
    let origin = Origin { file: 1, line: 2 };
    Ok(
        is_copied(alloc, &(true, Some(9u64)))?
            && is_copied(alloc, &Method::Top)?
            && is_copied(alloc, &Format::Ofn)?
            && is_copied(alloc, &chain_words::WordKind::NoValue)?
            && is_copied(alloc, &Kind::Class)?
            && is_copied(alloc, &origin)?,
    )
}

#[test]
fn a_folder_in_memory_reads_until_it_fails(rt: HostRuntime) -> Result<(), Fail> {
    let file = Bytes::from_slice(rt.alloc(), b"12345")?;
    let mut folder = folder_of(rt.alloc(), file, 2, &[3])?;
    let mut buffer = [0u8; 3];
    let is_right = folder.open_file(b"b") == Opened::Missing
        && folder.open_file(b"a.obo") == Opened::Ready
        && folder.read(&mut buffer) == Got::Bytes(2)
        && folder.read(&mut buffer) == Got::Failed;
    assert!(rt; is_right);
    Ok(())
}

#[test]
fn a_folder_in_memory_keeps_what_is_put(rt: HostRuntime) -> Result<(), Fail> {
    let file = Bytes::from_slice(rt.alloc(), b"12345")?;
    let mut folder = folder_of(rt.alloc(), file, 2, &[1])?;
    let is_right = folder.put(b"b", b"new") == Ok(())
        && folder.put(b"a.obo", b"lost") == Err(PutFault::Failed)
        && folder.put(b"b", b"newer") == Ok(())
        && folder.held(b"a.obo") == Some(b"12345".as_slice())
        && folder.held(b"b") == Some(b"newer".as_slice());
    assert!(rt; is_right);
    Ok(())
}

#[test]
fn a_sink_in_memory_fails_where_it_is_told(rt: HostRuntime) -> Result<(), Fail> {
    let alloc = rt.alloc();
    let mut sink = MemSink::new(alloc, 4, Vec::from_slice(alloc, &[1])?)?;
    let is_right = sink.write_all(b"ab") == Ok(())
        && sink.write_all(b"") == Err(SinkFailed)
        && sink.write_all(b"cde") == Err(SinkFailed)
        && sink.write_all(b"cd") == Ok(())
        && sink.bytes() == b"abcd".as_slice();
    assert!(rt; is_right);
    Ok(())
}
