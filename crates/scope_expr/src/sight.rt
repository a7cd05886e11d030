// Whether columns in sight have a name.
ghost use Rattle.std.specs.Prelude.{◌≡◌};
ghost use Rattle.std.specs.List.{list_any};
ghost use Rattle.scope_expr.specs.Sight as spec;

use crate::scope::Entry;
use scope_value::Cell;
use script_trees::RawRef;

fn is_of(alias: &Option<Cell>, source: &Option<Cell>) -> bool
    ensures { result ≡ spec.is_of alias.now source.now }
{
    match (alias, source) {
        (None, _) => true,
        (Some(_), None) => false,
        (Some(alias), Some(source)) => alias == source,
    }
}

/// Whether the entry is a column of that name.
pub fn is_named(r: &RawRef, entry: &Entry) -> bool
    ensures { result ≡ spec.is_named r.now entry.now }
{
    r.name == entry.name && is_of(&r.alias, &entry.alias)
}

// Whether both columns are known by one alias and one name.
fn clash(a: &Entry, b: &Entry) -> bool
    ensures { result ≡ spec.clash a.now b.now }
{
    a.name == b.name && a.alias.is_some() && is_of(&a.alias, &b.alias)
}

/// Whether one of the columns is known by the alias and the name of another.
pub(crate) fn clashes(entries: &[Entry], entry: &Entry) -> bool
    ensures { result ≡ list_any (λ e. spec.clash e entry.now) entries.now }
{
    for e in entries {
        if clash(e, entry) {
            return true;
        }
    }
    false
}
