// A set of operators: each kind has its names, and a caller knows an operator by its place alone.
ghost use Rattle.std.specs.Prelude.{◌≡◌, ◌<◌, IfOk, length};
ghost use Rattle.user_ops.specs.Told.{processes_at};

use crate::silent::Silent;
use scope_value::{Cell, Row, Schema};
use std::alloc::{AllocError, Global};
use std::test::Fail;
use user_ops::{AddFault, Combiner, Extractor, OpSet, Processor, Reducer, Tells};

// The rows that the processor at a place gives for a row: the clause names what the set tells, and no object.
fn process_at(
    alloc: Global,
    ops: &OpSet,
    place: usize,
    args: &[Cell],
    row: &Row,
) -> Result<Vec<Row>, AllocError>
    requires { place < length (⟦<OpSet as Tells>⟧.tells ops.now).processors }
    ensures { IfOk result (λ given.
        given.items ≡ processes_at (⟦<OpSet as Tells>⟧.tells ops.now) place args.now row.now) }
{
    process_boxed(alloc, ops.processor_at(place), args, row)
}

// The rows that a processor gives for a row.
fn process_boxed(
    alloc: Global,
    op: &Box<dyn Processor>,
    args: &[Cell],
    row: &Row,
) -> Result<Vec<Row>, AllocError>
    ensures { IfOk result (λ given. given.items ≡ (told_processor op.now).processes args.now row.now) }
{
    let mut given = Vec::new(alloc);
    op.process(alloc, args, row, &mut given)?;
    Ok(given)
}

fn delimiter_of(op: &Box<dyn Extractor>) -> u8 {
    op.delimiter(&[])
}

fn delimiter_named(ops: &OpSet, name: &[u8]) -> Option<u8> {
    let place = ops.find_extractor(name)?;
    Some(delimiter_of(ops.extractor_at(place)))
}

fn row_count(alloc: Global, ops: &OpSet, name: &[u8]) -> Result<Option<usize>, AllocError> {
    match ops.find_processor(name) {
        None => Ok(None),
        Some(place) => Ok(Some(process_at(alloc, ops, place, &[], &Row::new(alloc))?.len())),
    }
}

fn is_reducer(alloc: Global, ops: &OpSet, name: &[u8]) -> bool {
    let schema = Schema::new(alloc);
    match ops.find_reducer(name) {
        None => false,
        Some(place) => ops.reducer_at(place).accepts(&schema, &schema, &[]),
    }
}

fn is_combiner(alloc: Global, ops: &OpSet, name: &[u8]) -> bool {
    let schema = Schema::new(alloc);
    match ops.find_combiner(name) {
        None => false,
        Some(place) => ops
            .combiner_at(place)
            .accepts(&schema, &schema, &schema, &[]),
    }
}

fn boxed_silent(alloc: Global, delimiter: u8) -> Result<Box<Silent>, AllocError> {
    Ok(Box::new(alloc, Silent { delimiter })?)
}

// None where the extractor went in; else why it did not, and with which delimiter it came back.
fn refused(
    alloc: Global,
    ops: &mut OpSet,
    name: &[u8],
    op: Box<dyn Extractor>,
) -> Result<Option<(AddFault, u8)>, AllocError> {
    match ops.add_extractor(Cell::from_slice(alloc, name)?, op) {
        Ok(()) => Ok(None),
        Err((op, fault)) => Ok(Some((fault, delimiter_of(&op)))),
    }
}

fn takes_processor(
    alloc: Global,
    ops: &mut OpSet,
    op: Box<dyn Processor>,
) -> Result<bool, AllocError> {
    Ok(
        ops.add_processor(Cell::from_slice(alloc, b"Silent")?, op)
            .is_ok(),
    )
}

fn takes_reducer(alloc: Global, ops: &mut OpSet, op: Box<dyn Reducer>) -> Result<bool, AllocError> {
    Ok(
        ops.add_reducer(Cell::from_slice(alloc, b"Silent")?, op)
            .is_ok(),
    )
}

fn takes_combiner(
    alloc: Global,
    ops: &mut OpSet,
    op: Box<dyn Combiner>,
) -> Result<bool, AllocError> {
    Ok(
        ops.add_combiner(Cell::from_slice(alloc, b"Silent")?, op)
            .is_ok(),
    )
}

#[test]
fn a_name_is_taken_once(rt: HostRuntime) -> Result<(), Fail> {
    let alloc = rt.alloc();
    let mut ops = OpSet::new(alloc);
    let op = boxed_silent(alloc, b';')?;
    assert!(rt; refused(alloc, &mut ops, b"Semicolons", op)?.is_none());
    let op = boxed_silent(alloc, b'|')?;
    assert!(rt; refused(alloc, &mut ops, b"Bars", op)?.is_none());
    let op = boxed_silent(alloc, b'!')?;
    assert!(rt; refused(alloc, &mut ops, b"Semicolons", op)? == Some((AddFault::Duplicate, b'!')));
    assert!(rt;
        ops.find_extractor(b"Bars") == Some(1) && delimiter_named(&ops, b"Semicolons") == Some(b';')
    );
    Ok(())
}

#[test]
fn a_processor_is_no_reducer(rt: HostRuntime) -> Result<(), Fail> {
    let alloc = rt.alloc();
    let mut ops = OpSet::new(alloc);
    let op = boxed_silent(alloc, b',')?;
    assert!(rt; takes_processor(alloc, &mut ops, op)?);
    assert!(rt;
        row_count(alloc, &ops, b"Silent")? == Some(0) && !is_reducer(alloc, &ops, b"Silent")
    );
    let op = boxed_silent(alloc, b',')?;
    assert!(rt; takes_reducer(alloc, &mut ops, op)?);
    assert!(rt; is_reducer(alloc, &ops, b"Silent") && !is_combiner(alloc, &ops, b"Silent"));
    Ok(())
}

#[test]
fn a_combiner_has_a_name_of_its_own(rt: HostRuntime) -> Result<(), Fail> {
    let alloc = rt.alloc();
    let mut ops = OpSet::new(alloc);
    let op = boxed_silent(alloc, b',')?;
    assert!(rt; takes_combiner(alloc, &mut ops, op)?);
    assert!(rt; is_combiner(alloc, &ops, b"Silent"));
    Ok(())
}
