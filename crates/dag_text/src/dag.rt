// A whole Dag.
ghost use Rattle.std.specs.Prelude.{◌≡◌, ◌++◌, OnOk, OnErr, IfOk, codes, decimal};
ghost use Rattle.dag_text.specs.Lines as spec;
ghost use Rattle.dag_text.specs.Lines.{lines};
ghost use Rattle.dag_text.specs.Pieces.{schema_text, stored_text};

use crate::list::{write_called, write_joined, write_presort};
use crate::operator::write_key;
use crate::piece::{write_number, write_quoted};
use crate::tree::write_tree;
use logical_dag::{Dag, Logical, Output, ScanDecl, Stored};
use scope_value::Column;
use std::alloc::{AllocError, Global};

// Writes the number and the name of a stream behind a word.
fn write_stream(word: &[u8], number: u64, name: &[u8], out: &mut Vec<u8>) -> Result<(), AllocError>
    ensures { OnOk result (out.new.items ≡ out.old.items ++ spec.stream_text word.now number name.now) }
{
    out.extend_from_slice(word)?;
    write_number(number, out)?;
    out.extend_from_slice(b" ")?;
    write_quoted(name, out)
}

// Writes the columns of a stream.
fn write_schema(schema: &[Column], out: &mut Vec<u8>) -> Result<(), AllocError>
    ensures { OnOk result (out.new.items ≡ out.old.items ++ (codes " cols " ++ schema_text schema.now)) }
{
    out.extend_from_slice(b" cols ")?;
    write_joined(schema, b',', out)
}

// Writes how a stream is stored.
fn write_stored(stored: &Stored, out: &mut Vec<u8>) -> Result<(), AllocError>
    ensures { OnOk result (out.new.items ≡ out.old.items ++ stored_text stored.now.hash stored.now.sorted) }
{
    write_key(b" stored hash ", stored.hash, out)?;
    write_presort(b" sorted ", stored.sorted, out)
}

// Writes how a stream is stored, where it is declared.
fn write_declared(stored: &Option<Stored>, out: &mut Vec<u8>) -> Result<(), AllocError>
    ensures { OnOk result (out.new.items ≡ out.old.items ++ spec.declared_text stored.now) }
{
    match stored {
        Some(stored) => write_stored(stored, out),
        None => Ok(()),
    }
}

// Ends a line with how a stream is stored.
fn write_line_end(stored: &Option<Stored>, out: &mut Vec<u8>) -> Result<(), AllocError>
    ensures { OnOk result (out.new.items ≡ out.old.items ++ spec.line_end stored.now) }
{
    write_declared(stored, out)?;
    out.extend_from_slice(b"\n")
}

// Writes the line of a scan.
fn write_scan(number: u64, scan: &ScanDecl, out: &mut Vec<u8>) -> Result<(), AllocError>
    ensures { OnOk result (out.new.items ≡ out.old.items ++ spec.scan_line number scan.now) }
{
    write_stream(b"scan ", number, scan.stream.as_slice(), out)?;
    write_called(b" op ", scan.op, scan.args.as_slice(), out)?;
    write_schema(scan.schema.as_slice(), out)?;
    write_line_end(&scan.stored, out)
}

// Writes a shared tree behind its line.
fn write_shared(number: u64, tree: &Logical, out: &mut Vec<u8>) -> Result<(), AllocError>
    ensures { OnOk result (out.new.items ≡ out.old.items ++ spec.shared_lines number tree.now) }
{
    out.extend_from_slice(b"shared ")?;
    write_number(number, out)?;
    out.extend_from_slice(b"\n")?;
    write_tree(tree, out)
}

// Writes the byte between the fields of a stream.
fn write_delimiter(delimiter: u8, out: &mut Vec<u8>) -> Result<(), AllocError>
    ensures { OnOk result (out.new.items ≡ out.old.items ++ (codes " delimiter " ++ decimal delimiter)) }
{
    out.extend_from_slice(b" delimiter ")?;
    write_number(u64::from(delimiter), out)
}

// Writes the line of an output.
fn write_output_line(number: u64, output: &Output, out: &mut Vec<u8>) -> Result<(), AllocError>
    ensures { OnOk result (out.new.items ≡ out.old.items ++ spec.output_line number output.now) }
{
    write_stream(b"output ", number, output.name.as_slice(), out)?;
    write_delimiter(output.delimiter, out)?;
    write_presort(b" order ", output.order, out)?;
    write_line_end(&output.stored, out)
}

// Writes an output's tree behind its line.
fn write_output(number: u64, output: &Output, out: &mut Vec<u8>) -> Result<(), AllocError>
    ensures { OnOk result (out.new.items ≡ out.old.items ++ spec.output_lines number output.now) }
{
    write_output_line(number, output, out)?;
    write_tree(&output.tree, out)
}

fn write_scans(scans: &[ScanDecl], out: &mut Vec<u8>) -> Result<(), AllocError>
    ensures { OnOk result (out.new.items ≡ out.old.items ++ lines spec.scan_line 0 scans.now) }
{
    for (i, scan) in scans.iter().enumerate() {
        write_scan(i as u64, scan, out)?;
    }
    Ok(())
}

fn write_all_shared(shared: &[Logical], out: &mut Vec<u8>) -> Result<(), AllocError>
    ensures { OnOk result (out.new.items ≡ out.old.items ++ lines spec.shared_lines 0 shared.now) }
{
    for (i, tree) in shared.iter().enumerate() {
        write_shared(i as u64, tree, out)?;
    }
    Ok(())
}

fn write_outputs(outputs: &[Output], out: &mut Vec<u8>) -> Result<(), AllocError>
    ensures { OnOk result (out.new.items ≡ out.old.items ++ lines spec.output_lines 0 outputs.now) }
{
    for (i, output) in outputs.iter().enumerate() {
        write_output(i as u64, output, out)?;
    }
    Ok(())
}

// The text of a Dag.
fn text_of(alloc: Global, dag: &Dag) -> Result<Vec<u8>, AllocError>
    ensures { IfOk result (λ text. text.items ≡ spec.dag_text dag.now) }
{
    let mut text = Vec::new(alloc);
    write_scans(dag.scans.as_slice(), &mut text)?;
    write_all_shared(dag.shared.as_slice(), &mut text)?;
    write_outputs(dag.outputs.as_slice(), &mut text)?;
    Ok(text)
}

/// Appends the text of a Dag: a line for each scan, then each shared tree and each output behind its line, a line for each node in
/// post-order. All lines end with LF. An error is want of memory, and appends nothing.
pub fn write_dag(alloc: Global, dag: &Dag, out: &mut Vec<u8>) -> Result<(), AllocError>
    ensures ok { OnOk result (out.new.items ≡ out.old.items ++ spec.dag_text dag.now) }
    ensures err { OnErr result (out.new.items ≡ out.old.items) }
{
    let text = text_of(alloc, dag)?;
    out.extend_from_slice(text.as_slice())
}
