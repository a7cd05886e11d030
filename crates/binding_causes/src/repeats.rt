// Whether something stands twice in a list.
ghost use Rattle.std.specs.Prelude.{◌≡◌, ◌≤◌, ◌==◌, ℕ, List, map, length, drop};
ghost use Rattle.std.specs.List.{list_any};
ghost use Rattle.std.specs.Str.{bytes_eq};
ghost use Rattle.binding_causes.specs.Columns.{repeats};

use scope_expr::Entry;
use scope_value::{Cell, Column};
use script_trees::Item;

/// What has a name.
pub(crate) trait Named {
    ghost named: { Self → List ℕ };

    fn name(&self) -> &[u8]
        ensures { result.now ≡ named self.now };
}

impl Named for Column {
    ghost named = { λ c. c.name };

    fn name(&self) -> &[u8] {
        self.name.as_slice()
    }
}

impl Named for Item {
    ghost named = { λ x. x.name };

    fn name(&self) -> &[u8] {
        self.name.as_slice()
    }
}

impl Named for Entry {
    ghost named = { λ e. e.name };

    fn name(&self) -> &[u8] {
        self.name.as_slice()
    }
}

impl Named for Cell {
    ghost named = { λ c. c };

    fn name(&self) -> &[u8] {
        self.as_slice()
    }
}

fn has_name<T: Named>(items: &[T], name: &[u8]) -> bool
    ensures { result ≡ list_any (λ item. bytes_eq name.now (T.named item)) items.now }
{
    items.iter().any(|item| name == item.name())
}

// One from this place on.
fn has_name_from<T: Named>(items: &[T], at: usize, name: &[u8]) -> bool
    requires { at ≤ length items.now }
    ensures { result ≡ list_any (λ item. bytes_eq name.now (T.named item)) (drop at items.now) }
{
    has_name(&items[at..], name)
}

/// Whether two of these have one name. Each is compared with those behind it.
pub(crate) fn has_double_name<T: Named>(items: &[T]) -> bool
    ensures { result ≡ repeats bytes_eq (map T.named items.now) }
{
    for (at, item) in items.iter().enumerate() {
        if has_name_from(items, at + 1, item.name()) {
            return true;
        }
    }
    false
}

fn has_number(numbers: &[u32], number: u32) -> bool
    ensures { result ≡ list_any (λ n. number == n) numbers.now }
{
    numbers.iter().any(|n| number == *n)
}

/// Whether two of these are equal. Each is compared with those behind it.
pub(crate) fn has_double_number(numbers: &[u32]) -> bool
    ensures { result ≡ repeats (λ m n. m == n) numbers.now }
{
    for (at, number) in numbers.iter().enumerate() {
        if has_number(&numbers[at + 1..], *number) {
            return true;
        }
    }
    false
}
