// A SELECT with its names resolved.
ghost use Rattle.std.specs.Prelude.{◌≡◌, map, option_map, IfOk};
ghost use Rattle.scope_expr.specs.Names.{bound};
ghost use Rattle.names_in_sight.specs.Sight as sight_spec;
ghost use Rattle.name_resolution.specs.Queries as spec;
ghost use Rattle.names_in_sight.specs.Inputs.{before_of};

use crate::from::beside_of;
use crate::sources::first_source;
use col_sets::Dir;
use names_in_sight::View;
use names_in_sight::carrying::beside;
use names_in_sight::finding::Finds;
use names_in_sight::groups::bound_opt;
use names_in_sight::seen::exprs_of;
use names_in_sight::sight::keys_of_opt;
use placed_trees::{Beside, Grouping, Query, Source};
use scope_expr::Expr;
use scope_value::Schema;
use script_trees::{Joined, Select, Statement};
use sqlite_items::Items;
use std::alloc::{AllocError, Global};

// The predicates of a SELECT.
#[derive(Drop)]
struct Predicates {
    test: Option<Expr>,
    having: Option<Expr>,
}

// What a SELECT gives, and how it is sorted.
#[derive(Drop)]
struct Given {
    items: Items<Expr>,
    order: Option<Items<(u32, Dir)>>,
}

fn predicates_of(alloc: Global, select: &Select, view: &View) -> Result<Predicates, AllocError>
    ensures test { IfOk result (λ p. p.test ≡ option_map (bound view.now.names) select.now.filter) }
    ensures having { IfOk result (λ p. p.having ≡ option_map (bound view.now.result) select.now.having) }
{
    let test = bound_opt(alloc, &view.names, &select.filter)?;
    let (test, having) = beside(test, bound_opt(alloc, &view.result, &select.having))?;
    Ok(Predicates { test, having })
}

fn given_of(alloc: Global, select: &Select, view: &View) -> Result<Given, AllocError>
    ensures items { IfOk result (λ g. g.items ≡ map (λ o. o.1) view.now.outputs) }
    ensures order { IfOk result (λ g. g.order ≡ option_map (sight_spec.keys_of view.now.result) select.now.order) }
{
    let items = exprs_of(alloc, view.outputs.as_slice())?;
    let (items, order) = beside(items, keys_of_opt(alloc, &view.result, &select.order))?;
    Ok(Given { items, order })
}

// What a SELECT has of expressions and keys.
fn clauses_of(
    alloc: Global,
    select: &Select,
    view: &View,
) -> Result<(Predicates, Given), AllocError>
    ensures test { IfOk result (λ c. c.0.test ≡ option_map (bound view.now.names) select.now.filter) }
    ensures having { IfOk result (λ c. c.0.having ≡ option_map (bound view.now.result) select.now.having) }
    ensures items { IfOk result (λ c. c.1.items ≡ map (λ o. o.1) view.now.outputs) }
    ensures order { IfOk result (λ c. c.1.order ≡ option_map (sight_spec.keys_of view.now.result) select.now.order) }
{
    let predicates = predicates_of(alloc, select, view)?;
    beside(predicates, given_of(alloc, select, view))
}

// The first source of a FROM, and those after it.
fn from_of<O: Finds>(
    alloc: Global,
    ops: &O,
    statements: &[Statement],
    headings: &[Schema],
    sources: &[Joined],
) -> Result<(Source, Beside), AllocError>
    ensures source { IfOk result (λ f. f.0 ≡ spec.first_source (O.tells ops.now) sources.now) }
    ensures rest { IfOk result (λ f. f.1 ≡ spec.beside_of (O.tells ops.now) (before_of statements.now headings.now) sources.now) }
{
    let source = first_source(alloc, ops, sources)?;
    beside(source, beside_of(alloc, ops, statements, headings, sources))
}

fn grouping_in(view: View) -> Option<Grouping>
    ensures { result ≡ view.grouping }
{
    let View { grouping, .. } = view;
    grouping
}

// The SELECT of these sources and clauses.
fn query_with(
    select: &Select,
    from: (Source, Beside),
    group: Option<Grouping>,
    clauses: (Predicates, Given),
) -> Query
    ensures { result ≡ record {
      source = from.0;
      beside = from.1;
      test = clauses.0.test;
      group = group;
      items = clauses.1.items;
      having = clauses.0.having;
      distinct = select.now.distinct;
      order = clauses.1.order;
      top = select.now.top;
    } }
{
    let (Predicates { test, having }, Given { items, order }) = clauses;
    let (source, beside) = from;
    Query {
        source,
        beside,
        test,
        group,
        items,
        having,
        distinct: select.distinct,
        order,
        top: select.top,
    }
}

// The SELECT of this grouping and these clauses, with its sources.
fn query_from<O: Finds>(
    alloc: Global,
    ops: &O,
    statements: &[Statement],
    headings: &[Schema],
    select: &Select,
    group: Option<Grouping>,
    clauses: (Predicates, Given),
) -> Result<Query, AllocError>
    ensures { IfOk result (λ q. q ≡ record {
      source = spec.first_source (O.tells ops.now) select.now.sources;
      beside = spec.beside_of (O.tells ops.now) (before_of statements.now headings.now) select.now.sources;
      test = clauses.0.test;
      group = group;
      items = clauses.1.items;
      having = clauses.0.having;
      distinct = select.now.distinct;
      order = clauses.1.order;
      top = select.now.top;
    }) }
{
    let sources = from_of(alloc, ops, statements, headings, select.sources.as_slice());
    let ((clauses, group), from) = beside((clauses, group), sources)?;
    Ok(query_with(select, from, group, clauses))
}

/// A SELECT with its names resolved, where `view` is what it is from inside. An error is want of memory.
pub(crate) fn query_of<O: Finds>(
    alloc: Global,
    ops: &O,
    statements: &[Statement],
    headings: &[Schema],
    select: &Select,
    view: View,
) -> Result<Query, AllocError>
    ensures { IfOk result (λ q. q ≡ spec.query_of (O.tells ops.now) (before_of statements.now headings.now) select.now view) }
{
    let clauses = clauses_of(alloc, select, &view);
    let (group, clauses) = beside(grouping_in(view), clauses)?;
    query_from(alloc, ops, statements, headings, select, group, clauses)
}
