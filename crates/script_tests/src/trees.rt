// A script's tree as text, with a bracket around each operator, so that a test can say which tree it wants.
use itoa::Buffer;
use scope_syntax::{
    Call, Command, Item, Items, JoinSide, Joined, Origin, RawAgg, RawKey, RawStored, RefPair,
    Script, Select, Source, Statement,
};
use scope_value::{Cell, ColType, Column, Value};
use script_trees::{AggKind, PairOp, RawExpr, RawRef};
use std::alloc::AllocError;

type Put = Result<(), AllocError>;

fn put(out: &mut Vec<u8>, text: &str) -> Put {
    out.extend_from_slice(text.as_bytes())
}

fn put_cell(out: &mut Vec<u8>, cell: &Cell) -> Put {
    out.extend_from_slice(cell.as_slice())
}

fn put_quoted(out: &mut Vec<u8>, cell: &Cell) -> Put {
    put(out, "\"")?;
    put_cell(out, cell)?;
    put(out, "\"")
}

fn put_number(out: &mut Vec<u8>, number: i64) -> Put {
    put(out, Buffer::new().format(number))
}

fn put_value(out: &mut Vec<u8>, value: &Value) -> Put {
    match value {
        Value::Null => put(out, "null"),
        Value::Bool(false) => put(out, "false"),
        Value::Bool(true) => put(out, "true"),
        Value::Int(number) => put_number(out, *number),
        Value::Bytes(cell) => put_quoted(out, cell),
        Value::Wide(_) => put(out, "wide"),
    }
}

fn put_ref(out: &mut Vec<u8>, column: &RawRef) -> Put {
    if let Some(alias) = &column.alias {
        put_cell(out, alias)?;
        put(out, ".")?;
    }
    put_cell(out, &column.name)
}

fn word_of(op: PairOp) -> &'static str {
    match op {
        PairOp::Or => " or ",
        PairOp::And => " and ",
        PairOp::Eq => " == ",
        PairOp::Ne => " != ",
        PairOp::Lt => " < ",
        PairOp::Le => " <= ",
        PairOp::Gt => " > ",
        PairOp::Ge => " >= ",
        PairOp::Add => " + ",
        PairOp::Sub => " - ",
        PairOp::Mul => " * ",
        PairOp::Div => " / ",
        PairOp::Rem => " % ",
    }
}

fn put_expr(out: &mut Vec<u8>, e: &RawExpr) -> Put {
    match e {
        RawExpr::Literal(value) => put_value(out, value),
        RawExpr::Ref(column) => put_ref(out, column),
        RawExpr::Agg(number) => {
            put(out, "#")?;
            put_number(out, i64::from(*number))
        }
        RawExpr::Neg(a) => {
            put(out, "(-")?;
            put_expr(out, a.get())?;
            put(out, ")")
        }
        RawExpr::Not(a) => {
            put(out, "(!")?;
            put_expr(out, a.get())?;
            put(out, ")")
        }
        RawExpr::Pair(op, a, b) => {
            put(out, "(")?;
            put_expr(out, a.get())?;
            put(out, word_of(*op))?;
            put_expr(out, b.get())?;
            put(out, ")")
        }
    }
}

fn put_columns(out: &mut Vec<u8>, columns: &[Column]) -> Put {
    put(out, " [")?;
    for column in columns.iter() {
        put_cell(out, &column.name)?;
        put(
            out,
            match column.kind {
                ColType::Int => ":int ",
                ColType::Long => ":long ",
                ColType::Text => ":string ",
                ColType::Bool => ":bool ",
            },
        )?;
    }
    put(out, "]")
}

fn put_call(out: &mut Vec<u8>, call: &Call) -> Put {
    put(out, " ")?;
    put_cell(out, &call.op)?;
    put(out, "(")?;
    for arg in call.args.as_slice().iter() {
        put_quoted(out, arg)?;
    }
    put(out, ")")
}

fn put_origin(out: &mut Vec<u8>, origin: &Origin) -> Put {
    put(out, " ")?;
    match origin {
        Origin::Named(name) => put_cell(out, name),
        Origin::Stream(stream, call) => {
            put_quoted(out, stream)?;
            put_call(out, call)
        }
    }
}

fn put_source(out: &mut Vec<u8>, source: &Source) -> Put {
    put_origin(out, &source.origin)?;
    match &source.alias {
        Some(alias) => {
            put(out, " as ")?;
            put_cell(out, alias)
        }
        None => Ok(()),
    }
}

fn put_source_if_any(out: &mut Vec<u8>, source: &Option<Source>) -> Put {
    match source {
        Some(source) => put_source(out, source),
        None => put(out, " last"),
    }
}

fn put_refs(out: &mut Vec<u8>, word: &str, columns: &[RawRef]) -> Put {
    put(out, word)?;
    for column in columns.iter() {
        put(out, " ")?;
        put_ref(out, column)?;
    }
    Ok(())
}

fn put_pairs(out: &mut Vec<u8>, pairs: &[RefPair]) -> Put {
    put(out, " on")?;
    for pair in pairs.iter() {
        put(out, " ")?;
        put_ref(out, &pair.0)?;
        put(out, "=")?;
        put_ref(out, &pair.1)?;
    }
    Ok(())
}

fn put_keys(out: &mut Vec<u8>, word: &str, keys: &[RawKey]) -> Put {
    put(out, word)?;
    for key in keys.iter() {
        put(out, if key.down { " -" } else { " " })?;
        put_ref(out, &key.column)?;
    }
    Ok(())
}

fn put_item(out: &mut Vec<u8>, item: &Item) -> Put {
    put(out, " ")?;
    put_expr(out, &item.expr)?;
    put(out, " as ")?;
    put_cell(out, &item.name)
}

fn put_items(out: &mut Vec<u8>, items: &Items) -> Put {
    match items {
        Items::All => put(out, " *"),
        Items::Listed(items) => {
            for item in items.as_slice().iter() {
                put_item(out, item)?;
            }
            Ok(())
        }
    }
}

fn put_agg(out: &mut Vec<u8>, agg: &RawAgg) -> Put {
    put(
        out,
        match agg.kind {
            AggKind::Count => " count(",
            AggKind::CountIf => " countif(",
            AggKind::Sum => " sum(",
            AggKind::Min => " min(",
            AggKind::Max => " max(",
        },
    )?;
    match &agg.arg {
        Some(e) => put_expr(out, e)?,
        None => put(out, "*")?,
    }
    put(out, ")")
}

fn put_joined(out: &mut Vec<u8>, joined: &Joined) -> Put {
    put(
        out,
        match joined.side {
            JoinSide::Inner => "",
            JoinSide::Left => " left",
            JoinSide::Right => " right",
            JoinSide::Full => " full",
        },
    )?;
    put_source(out, &joined.source)?;
    if joined.on.len() > 0 {
        put_pairs(out, joined.on.as_slice())?;
    }
    Ok(())
}

fn put_test(out: &mut Vec<u8>, word: &str, e: &Option<RawExpr>) -> Put {
    match e {
        Some(e) => {
            put(out, word)?;
            put_expr(out, e)
        }
        None => Ok(()),
    }
}

fn put_sources(out: &mut Vec<u8>, select: &Select) -> Put {
    if select.sources.len() == 0 {
        return put(out, " from last");
    }
    put(out, " from")?;
    for joined in select.sources.as_slice().iter() {
        put_joined(out, joined)?;
    }
    Ok(())
}

fn put_head(out: &mut Vec<u8>, select: &Select) -> Put {
    put(
        out,
        if select.distinct {
            "select distinct"
        } else {
            "select"
        },
    )?;
    match select.top {
        Some(count) => {
            put(out, " top ")?;
            put(out, Buffer::new().format(count))?;
        }
        None => {}
    }
    put_items(out, &select.items)?;
    for agg in select.aggs.as_slice().iter() {
        put_agg(out, agg)?;
    }
    Ok(())
}

fn put_select(out: &mut Vec<u8>, select: &Select) -> Put {
    put_head(out, select)?;
    put_sources(out, select)?;
    put_test(out, " where ", &select.filter)?;
    if let Some(group) = &select.group {
        put_refs(out, " group", group.as_slice())?;
    }
    put_test(out, " having ", &select.having)?;
    if let Some(order) = &select.order {
        put_keys(out, " order", order.as_slice())?;
    }
    Ok(())
}

fn put_presort(out: &mut Vec<u8>, keys: Option<&[RawKey]>) -> Put {
    match keys {
        Some(keys) => put_keys(out, " presort", keys),
        None => Ok(()),
    }
}

fn put_stored(out: &mut Vec<u8>, stored: &Option<RawStored>) -> Put {
    match stored {
        Some(stored) => {
            put_refs(out, " hash", stored.hash.as_slice())?;
            match &stored.sorted {
                Some(keys) => put_keys(out, " sorted", keys.as_slice()),
                None => Ok(()),
            }
        }
        None => Ok(()),
    }
}

fn put_command(out: &mut Vec<u8>, command: &Command) -> Put {
    match command {
        Command::Extract {
            cols,
            stream,
            call,
            stored,
        } => {
            put(out, "extract ")?;
            put_quoted(out, stream)?;
            put_call(out, call)?;
            put_columns(out, cols.as_slice())?;
            put_stored(out, stored)
        }
        Command::Select(select) => put_select(out, select),
        Command::Process { source, call, cols } => {
            put(out, "process")?;
            put_source_if_any(out, source)?;
            put_call(out, call)?;
            put_columns(out, cols.as_slice())
        }
        Command::Reduce {
            source,
            presort,
            on,
            call,
            cols,
        } => {
            put(out, "reduce")?;
            put_source_if_any(out, source)?;
            put_presort(out, presort.as_ref().map(|keys| keys.as_slice()))?;
            put_refs(out, " on", on.as_slice())?;
            put_call(out, call)?;
            put_columns(out, cols.as_slice())
        }
        Command::Combine {
            left,
            left_presort,
            right,
            right_presort,
            on,
            call,
            cols,
        } => {
            put(out, "combine")?;
            put_source(out, left)?;
            put_presort(out, left_presort.as_ref().map(|keys| keys.as_slice()))?;
            put(out, " with")?;
            put_source(out, right)?;
            put_presort(out, right_presort.as_ref().map(|keys| keys.as_slice()))?;
            put_pairs(out, on.as_slice())?;
            put_call(out, call)?;
            put_columns(out, cols.as_slice())
        }
        Command::Output {
            source,
            stream,
            outputter,
            stored,
        } => {
            put(out, "output ")?;
            match source {
                Some(name) => put_cell(out, name)?,
                None => put(out, "last")?,
            }
            put(out, " to ")?;
            put_quoted(out, stream)?;
            match outputter {
                Some(name) => {
                    put(out, " using ")?;
                    put_cell(out, name)?;
                }
                None => {}
            }
            put_stored(out, stored)
        }
    }
}

fn put_statement(out: &mut Vec<u8>, statement: &Statement) -> Put {
    if let Some(name) = &statement.name {
        put_cell(out, name)?;
        put(out, " = ")?;
    }
    put_command(out, &statement.command)?;
    put(out, ";")
}

/// Appends the script's tree as text, statement by statement.
pub fn put_script(out: &mut Vec<u8>, script: &Script) -> Put {
    for statement in script.statements.as_slice().iter() {
        put_statement(out, statement)?;
    }
    Ok(())
}
