// What the nodes of expressions do.
ghost use Rattle.std.specs.Prelude.{◌≡◌, ◌++◌, OnOk, codes};
ghost use Rattle.dag_text.specs.Lines as spec;
ghost use Rattle.dag_text.specs.Pieces.{columns_text, written_text, aggregates_text, pairs_text};

use crate::expression::write_expression;
use crate::list::{
    write_called, write_columns, write_joined, write_listed, write_order, write_presort,
};
use crate::piece::write_number;
use arrayvec::ArrayVec;
use col_sets::{ColId, ColSet, KeyCols, KeyOrders};
use logical_dag::{Agg, CallArgs, GroupArgs, LogicOp, TopArgs};
use scope_expr::Expr;
use std::alloc::AllocError;

// Writes the columns that a node gives.
fn write_given(cols: ColSet, out: &mut Vec<u8>) -> Result<(), AllocError>
    ensures { OnOk result (out.new.items ≡ out.old.items ++ spec.given_text cols) }
{
    write_columns(b" -> ", cols, out)
}

// Writes a node without children: its word, the number of what it reads, and its columns.
fn write_leaf(word: &[u8], number: u32, cols: ColSet, out: &mut Vec<u8>) -> Result<(), AllocError>
    ensures { OnOk result (out.new.items ≡ out.old.items ++ spec.leaf_text word.now number cols) }
{
    out.extend_from_slice(word)?;
    write_number(u64::from(number), out)?;
    write_given(cols, out)
}

fn write_filter(e: &Expr, out: &mut Vec<u8>) -> Result<(), AllocError>
    ensures { OnOk result (out.new.items ≡ out.old.items ++ spec.filter_text e.now) }
{
    out.extend_from_slice(b"filter ")?;
    write_expression(e, out)
}

fn write_project(items: &[Expr], cols: ColSet, out: &mut Vec<u8>) -> Result<(), AllocError>
    ensures { OnOk result (out.new.items ≡ out.old.items ++ spec.project_text items.now cols) }
{
    out.extend_from_slice(b"project ")?;
    write_joined(items, b',', out)?;
    write_given(cols, out)
}

// Writes the pairs of columns that are set equal, behind a word.
fn write_pairs(
    word: &[u8],
    on: &ArrayVec<(ColId, ColId), 4>,
    out: &mut Vec<u8>,
) -> Result<(), AllocError>
    ensures { OnOk result (out.new.items ≡ out.old.items ++ (word.now ++ pairs_text on.now.items)) }
{
    out.extend_from_slice(word)?;
    write_joined(on.as_slice(), b',', out)
}

// Writes a key, in its order, behind a word.
pub(crate) fn write_key(word: &[u8], key: KeyCols, out: &mut Vec<u8>) -> Result<(), AllocError>
    ensures { OnOk result (out.new.items ≡ out.old.items ++ (word.now ++ columns_text key)) }
{
    out.extend_from_slice(word)?;
    write_listed(key.columns().as_slice(), b'.', out)
}

// Writes the list of a GROUP BY, where there is one.
fn write_written(written: Option<KeyCols>, out: &mut Vec<u8>) -> Result<(), AllocError>
    ensures { OnOk result (out.new.items ≡ out.old.items ++ (codes "written " ++ written_text written)) }
{
    match written {
        Some(key) => write_key(b"written ", key, out),
        None => out.extend_from_slice(b"written none"),
    }
}

// Writes the aggregates of a Group.
fn write_aggregates(aggs: &[Agg], out: &mut Vec<u8>) -> Result<(), AllocError>
    ensures { OnOk result (out.new.items ≡ out.old.items ++ (codes " aggs " ++ aggregates_text aggs.now)) }
{
    out.extend_from_slice(b" aggs ")?;
    write_listed(aggs, b',', out)
}

// Writes what a Group, or a step of one, is handed, behind its word.
fn write_group(word: &[u8], args: &GroupArgs, out: &mut Vec<u8>) -> Result<(), AllocError>
    ensures { OnOk result (out.new.items ≡ out.old.items ++ (word.now ++ spec.group_text args.now)) }
{
    out.extend_from_slice(word)?;
    write_written(args.written, out)?;
    write_columns(b" keys ", args.keys, out)?;
    write_aggregates(args.aggs.as_slice(), out)
}

// Writes the place and the args of a user operator, behind its word.
fn write_call(word: &[u8], call: &CallArgs, out: &mut Vec<u8>) -> Result<(), AllocError>
    ensures { OnOk result (out.new.items ≡ out.old.items ++ (word.now ++ spec.call_text call.now)) }
{
    write_called(word, call.op, call.args.as_slice(), out)
}

fn write_process(call: &CallArgs, out: &mut Vec<u8>) -> Result<(), AllocError>
    ensures { OnOk result (out.new.items ≡ out.old.items ++ spec.process_text call.now) }
{
    write_call(b"process ", call, out)?;
    write_given(call.cols, out)
}

fn write_reduce(
    call: &CallArgs,
    on: KeyCols,
    presort: Option<KeyOrders>,
    out: &mut Vec<u8>,
) -> Result<(), AllocError>
    ensures { OnOk result (out.new.items ≡ out.old.items ++ spec.reduce_text call.now on presort) }
{
    write_call(b"reduce ", call, out)?;
    write_key(b" on ", on, out)?;
    write_presort(b" presort ", presort, out)?;
    write_given(call.cols, out)
}

fn write_combine(
    call: &CallArgs,
    on: &ArrayVec<(ColId, ColId), 4>,
    left: Option<KeyOrders>,
    right: Option<KeyOrders>,
    out: &mut Vec<u8>,
) -> Result<(), AllocError>
    ensures { OnOk result (out.new.items ≡ out.old.items ++ spec.combine_text call.now on.now.items left right) }
{
    write_call(b"combine ", call, out)?;
    write_pairs(b" on ", on, out)?;
    write_presort(b" left ", left, out)?;
    write_presort(b" right ", right, out)?;
    write_given(call.cols, out)
}

// Writes what a Top, or a step of one, is handed, behind its word.
fn write_top(word: &[u8], args: &TopArgs, out: &mut Vec<u8>) -> Result<(), AllocError>
    ensures { OnOk result (out.new.items ≡ out.old.items ++ (word.now ++ spec.top_text args.now)) }
{
    out.extend_from_slice(word)?;
    write_number(args.n, out)?;
    out.extend_from_slice(b" by ")?;
    write_order(&args.order, out)
}

/// Writes what a node does.
pub(crate) fn write_operator_line(op: &LogicOp, out: &mut Vec<u8>) -> Result<(), AllocError>
    ensures { OnOk result (out.new.items ≡ out.old.items ++ spec.operator_line op.now) }
{
    match op {
        LogicOp::Scan { scan, cols } => write_leaf(b"scan ", *scan, *cols, out),
        LogicOp::Ref { shared, cols } => write_leaf(b"ref ", *shared, *cols, out),
        LogicOp::Filter(e) => write_filter(e, out),
        LogicOp::Project { items, cols } => write_project(items.as_slice(), *cols, out),
        LogicOp::Join { on } => write_pairs(b"join ", on, out),
        LogicOp::Group(args) => write_group(b"group ", args, out),
        LogicOp::Process(call) => write_process(call, out),
        LogicOp::Reduce { call, on, presort } => write_reduce(call, *on, *presort, out),
        LogicOp::Combine {
            call,
            on,
            left,
            right,
        } => write_combine(call, on, *left, *right, out),
        LogicOp::Top(args) => write_top(b"top ", args, out),
        LogicOp::Partial(args) => write_group(b"partial ", args, out),
        LogicOp::Finish(args) => write_group(b"finish ", args, out),
        LogicOp::LocalTop(args) => write_top(b"localtop ", args, out),
        LogicOp::LastTop(args) => write_top(b"lasttop ", args, out),
    }
}
