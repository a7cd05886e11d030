// The tree of a statement's result, over those of the sources of the statement.
ghost use Rattle.std.specs.Prelude.{ℕ, ◌+◌, ◌<◌, ◌≤◌, map, flat_map, sum_by, length, All, IfOk};
ghost use Rattle.script_meaning.specs.Bound.{parts_of};
ghost use Rattle.script_meaning.specs.Dag.{part_at, place_in};
ghost use Rattle.result_sharing.specs.Origins.{source_now};
ghost use Rattle.result_sharing.specs.Sharing.{IsSharing};
ghost use Rattle.result_trees.specs.Results.{IsStanding, IsPartMade, IsResultMade};
ghost use Rattle.result_trees.specs.Steps.{IsThere, part_in, read_in, stand_for, AreSourcesMade};

use crate::leaves::{shared_tree, stream_tree};
use logical_dag::ScanDecl;
use placed_trees::Statement;
use result_sharing::{Origin, Sharing, is_shared, origins_of};
use script_nodes::{Made, over_sources};
use source_laws::laws::{over_law, stands_law, takes_law};
use std::alloc::{AllocError, Global};

// A result where it is read.
#[cycle(result_tree)]
fn read_tree(
    alloc: Global,
    script: &[Statement],
    sharing: &Sharing,
    k: usize,
    next: u32,
    scans: &mut Vec<ScanDecl>,
) -> Result<Made, AllocError>
    requires standing { IsStanding script.now }
    requires sharing { IsSharing script.now sharing.now }
    requires there { k < length script.now }
    requires room { length scans.old.items + length (read_in script.now k).scans ≤ 320 }
    requires columns { next + (read_in script.now k).count ≤ 128 }
    ensures { IfOk result (IsPartMade (place_in sharing.now.kept.items) next (read_in script.now k) scans.old.items scans.new.items) }
{
    if is_shared(sharing.mentions.as_slice(), k) {
        shared_tree(alloc, sharing, k, next)
    } else {
        statement_tree(alloc, script, sharing, k, next, scans)
    }
}

// A source of a statement.
#[cycle(result_tree)]
fn source_tree(
    alloc: Global,
    script: &[Statement],
    sharing: &Sharing,
    at: usize,
    origin: &Origin,
    next: u32,
    scans: &mut Vec<ScanDecl>,
) -> Result<Made, AllocError>
    requires standing { IsStanding script.now }
    requires sharing { IsSharing script.now sharing.now }
    requires within { at < length script.now }
    requires there { IsThere at (source_now origin.now) }
    requires room { length scans.old.items + length (part_in script.now (source_now origin.now)).scans ≤ 320 }
    requires columns { next + (part_in script.now (source_now origin.now)).count ≤ 128 }
    ensures { IfOk result (IsPartMade (place_in sharing.now.kept.items) next (part_in script.now (source_now origin.now)) scans.old.items scans.new.items) }
{
    match *origin {
        Origin::Stream(stream) => stream_tree(alloc, stream, next, scans),
        Origin::Result(Some(k)) => read_tree(alloc, script, sharing, k, next, scans),
        Origin::Result(None) => unreachable!(),
    }
}

// The sources of a statement, each behind the one before it.
#[cycle(result_tree)]
fn source_trees(
    alloc: Global,
    script: &[Statement],
    sharing: &Sharing,
    at: usize,
    origins: &[Origin],
    next: u32,
    scans: &mut Vec<ScanDecl>,
) -> Result<Vec<Made>, AllocError>
    requires standing { IsStanding script.now }
    requires sharing { IsSharing script.now sharing.now }
    requires within { at < length script.now }
    requires there { All (λ o. IsThere at (source_now o)) origins.now }
    requires room { length scans.old.items + length (flat_map (λ p. p.scans) (stand_for script.now origins.now)) ≤ 320 }
    requires columns { next + sum_by (λ p. p.count) (stand_for script.now origins.now) ≤ 128 }
    ensures { IfOk result (λ v. AreSourcesMade (place_in sharing.now.kept.items) next (stand_for script.now origins.now) scans.old.items scans.new.items v.items) }
{
    let mut sources = Vec::new(alloc);
    let mut behind = next;
    for origin in origins {
        let made = source_tree(alloc, script, sharing, at, origin, behind, scans)?;
        behind = made.next;
        sources.push(made)?;
    }
    Ok(sources)
}

// The tree of a statement's result, its columns numbered from `next`.
#[cycle(result_tree)]
fn statement_tree(
    alloc: Global,
    script: &[Statement],
    sharing: &Sharing,
    at: usize,
    next: u32,
    scans: &mut Vec<ScanDecl>,
) -> Result<Made, AllocError>
    requires standing { IsStanding script.now }
    requires sharing { IsSharing script.now sharing.now }
    requires there { at < length script.now }
    requires room { length scans.old.items + length (part_at (parts_of script.now) at).scans ≤ 320 }
    requires columns { next + (part_at (parts_of script.now) at).count ≤ 128 }
    ensures { IfOk result (IsPartMade (place_in sharing.now.kept.items) next (part_at (parts_of script.now) at) scans.old.items scans.new.items) }
{
    stands_law();
    over_law();
    takes_law();
    let command = &script[at].command;
    let origins = origins_of(alloc, &script[..at], command)?;
    let sources = source_trees(alloc, script, sharing, at, origins.as_slice(), next, scans)?;
    over_sources(alloc, command, sources)
}

/// The tree of a statement's result, its columns numbered from 0: a result that it reads is referred to where it is shared, and else
/// stands in it. The declarations of its scans come behind those that are there. An error is want of memory.
pub fn result_tree(
    alloc: Global,
    script: &[Statement],
    sharing: &Sharing,
    at: usize,
    scans: &mut Vec<ScanDecl>,
) -> Result<Made, AllocError>
    requires standing { IsStanding script.now }
    requires sharing { IsSharing script.now sharing.now }
    requires there { at < length script.now }
    requires room { length scans.old.items + length (part_at (parts_of script.now) at).scans ≤ 320 }
    ensures { IfOk result (IsResultMade script.now (place_in sharing.now.kept.items) at scans.old.items scans.new.items) }
{
    statement_tree(alloc, script, sharing, at, 0, scans)
}
