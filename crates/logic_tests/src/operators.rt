// Operators of the tests, which show the rows that they are given.
ghost use Rattle.std.specs.Prelude.{◌≡◌, ◌<◌, ◌++◌, length, OnOk, OnErr, IfOk};
ghost use Rattle.user_ops.specs.Appends.{AddsSome};
ghost use Rattle.logic_tests.specs.ShowingFits.{row_shown-lawful, group_shown-lawful, side_shown-lawful};
ghost use Rattle.logic_tests.specs.Calling.{HasEach};
ghost use Rattle.logic_tests.specs.Showing.{row_shown, group_shown, side_shown};

use scope_value::{Cell, Row, Schema};
use std::alloc::{AllocError, Global};
use std::process::Abort;
use user_ops::{Combiner, OpSet, Processor, Reducer, Tells};

// Adds a copy of each row.
fn push_copies(rows: &[Row], out: &mut Vec<Row>) -> Result<(), AllocError>
    ensures ok { OnOk result (out.new.items ≡ out.old.items ++ rows.now) }
    ensures err { OnErr result (AddsSome out.old.items out.new.items rows.now) }
{
    for row in rows {
        out.push(row.copy()?)?;
    }
    Ok(())
}

/// Gives the row itself.
#[derive(Drop)]
pub struct RowShown;

impl Processor for RowShown {
    ghost told_processor = { λ _. row_shown };

    ghost processor_law = { λ _. row_shown-lawful };

    fn accepts(&self, _input: &Schema, _output: &Schema, _args: &[Cell]) -> bool {
        false
    }

    #[tactic(auto, using(crate::specs::ShowingFits::showing_rules))]
    fn process(
        &self,
        _alloc: Global,
        _args: &[Cell],
        row: &Row,
        out: &mut Vec<Row>,
    ) -> Result<(), AllocError> {
        out.push(row.copy()?)?;
        Ok(())
    }
}

/// Gives the rows in the order in which they come.
#[derive(Drop)]
pub struct GroupShown;

impl Reducer for GroupShown {
    ghost told_reducer = { λ _. group_shown };

    ghost reducer_law = { λ _. group_shown-lawful };

    fn accepts(&self, _input: &Schema, _output: &Schema, _args: &[Cell]) -> bool {
        false
    }

    #[tactic(auto, using(crate::specs::ShowingFits::showing_rules))]
    fn reduce(
        &self,
        _alloc: Global,
        _args: &[Cell],
        group: &[Row],
        out: &mut Vec<Row>,
    ) -> Result<(), AllocError> {
        push_copies(group, out)
    }
}

/// Gives the left rows, or the right ones where there are no left ones.
#[derive(Drop)]
pub struct SideShown;

impl Combiner for SideShown {
    ghost told_combiner = { λ _. side_shown };

    ghost combiner_law = { λ _. side_shown-lawful };

    fn accepts(&self, _left: &Schema, _right: &Schema, _output: &Schema, _args: &[Cell]) -> bool {
        false
    }

    #[tactic(auto, using(crate::specs::ShowingFits::showing_rules))]
    fn combine(
        &self,
        _alloc: Global,
        _args: &[Cell],
        left: &[Row],
        right: &[Row],
        out: &mut Vec<Row>,
    ) -> Result<(), AllocError> {
        match left {
            [] => push_copies(right, out),
            _ => push_copies(left, out),
        }
    }
}

fn add_processor(rt: &impl Abort, alloc: Global, ops: &mut OpSet) -> Result<(), AllocError>
    ensures { OnOk result (0 < length (⟦<OpSet as Tells>⟧.tells ops.new).processors) }
{
    let name = Cell::from_slice(alloc, b"RowShown")?;
    let added = ops.add_processor(name, Box::new(alloc, RowShown)?);
    assert!(rt; added.is_ok());
    Ok(())
}

fn add_reducer(rt: &impl Abort, alloc: Global, ops: &mut OpSet) -> Result<(), AllocError>
    ensures there { OnOk result (0 < length (⟦<OpSet as Tells>⟧.tells ops.new).reducers) }
    ensures kept { OnOk result ((⟦<OpSet as Tells>⟧.tells ops.new).processors ≡ (⟦<OpSet as Tells>⟧.tells ops.old).processors) }
{
    let name = Cell::from_slice(alloc, b"GroupShown")?;
    let added = ops.add_reducer(name, Box::new(alloc, GroupShown)?);
    assert!(rt; added.is_ok());
    Ok(())
}

fn add_combiner(rt: &impl Abort, alloc: Global, ops: &mut OpSet) -> Result<(), AllocError>
    ensures there { OnOk result (0 < length (⟦<OpSet as Tells>⟧.tells ops.new).combiners) }
    ensures processors { OnOk result ((⟦<OpSet as Tells>⟧.tells ops.new).processors ≡ (⟦<OpSet as Tells>⟧.tells ops.old).processors) }
    ensures reducers { OnOk result ((⟦<OpSet as Tells>⟧.tells ops.new).reducers ≡ (⟦<OpSet as Tells>⟧.tells ops.old).reducers) }
{
    let name = Cell::from_slice(alloc, b"SideShown")?;
    let added = ops.add_combiner(name, Box::new(alloc, SideShown)?);
    assert!(rt; added.is_ok());
    Ok(())
}

/// A set with one of each.
pub fn each_shown(rt: &impl Abort, alloc: Global) -> Result<OpSet, AllocError>
    ensures { IfOk result (λ ops. HasEach (⟦<OpSet as Tells>⟧.tells ops)) }
{
    let mut ops = OpSet::new(alloc);
    add_processor(rt, alloc, &mut ops)?;
    add_reducer(rt, alloc, &mut ops)?;
    add_combiner(rt, alloc, &mut ops)?;
    Ok(ops)
}
