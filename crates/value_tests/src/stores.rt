//! Both stores in memory, call after call.
use scope_outside::{MemStore, NoFailStore, ReadAnswer, Store, WriteAnswer};
use std::alloc::{AllocError, Global};
use std::test::Fail;

#[test]
fn listed_calls_fail(rt: HostRuntime) -> Result<(), Fail> {
    let alloc = rt.alloc();
    let mut store = MemStore::new(alloc);
    store.put(b"in", b"1,2\n")?;
    store.fail_read(2)?;
    store.fail_read(3)?;
    store.fail_write(1)?;
    let mut out = Vec::from_slice(alloc, b"x")?;
    for (name, want) in [
        ("in", ReadAnswer::Done),
        ("in", ReadAnswer::Failed),
        ("out", ReadAnswer::Missing),
        ("in", ReadAnswer::Done),
    ] {
        let got = store.read(name.as_bytes(), &mut out);
        assert_eq!(rt; got, want, "reading {name}");
    }
    assert!(rt; out.as_slice() == b"x1,2\n1,2\n".as_slice());
    for (text, want, held) in [
        ("one", WriteAnswer::Failed, None),
        ("two", WriteAnswer::Done, Some("two")),
        ("", WriteAnswer::Done, Some("")),
    ] {
        let got = store.write(b"out", text.as_bytes());
        assert_eq!(rt; got, want, "writing {text}");
        assert!(rt;
            store.get(b"out")? == held.map(|h: &str| h.as_bytes()),
            "after {text}"
        );
    }
    Ok(())
}

// A name that is missing, one that holds something, and what it holds once it was written.
fn reads_and_writes(store: &mut NoFailStore, out: &mut Vec<u8>) -> bool {
    store.read(b"out", out) == ReadAnswer::Missing
        && store.read(b"in", out) == ReadAnswer::Done
        && store.write(b"in", b"new") == WriteAnswer::Done
        && store.read(b"in", out) == ReadAnswer::Done
        && out.as_slice() == b"oldnew".as_slice()
}

fn holds_new(store: &NoFailStore) -> Result<bool, AllocError> {
    let there = store
        .get(b"in")?
        .is_some_and(|held: &[u8]| held == b"new".as_slice());
    Ok(there && store.get(b"out")?.is_none())
}

fn never_fails(alloc: Global) -> Result<bool, AllocError> {
    let mut store = NoFailStore::new(alloc);
    store.put(b"in", b"old")?;
    let mut out = Vec::new(alloc);
    let is_so = reads_and_writes(&mut store, &mut out);
    drop(out);
    Ok(holds_new(&store)? && is_so)
}

#[test]
fn nothing_fails(rt: HostRuntime) -> Result<(), Fail> {
    assert!(rt; never_fails(rt.alloc())?);
    Ok(())
}
