// Which results are shared, and where they stand among those that are kept.
ghost use Rattle.std.specs.Prelude.{◌≡◌, ◌≤◌, length};
ghost use Rattle.col_sets.specs.Sets.{has};
ghost use Rattle.script_meaning.specs.Bound as bound;
ghost use Rattle.script_meaning.specs.Dag.{place_in};

/// Whether the result of that statement is mentioned at least twice.
pub fn is_shared(mentions: &[usize], k: usize) -> bool
    ensures { result ≡ bound.is_shared mentions.now k }
{
    mentions.iter().filter(|m| **m == k).count() >= 2
}

/// Whether that number is among these.
pub(crate) fn is_among(numbers: &[usize], k: usize) -> bool
    ensures { result ≡ has numbers.now k }
{
    numbers.contains(&k)
}

/// The place of a shared result among those that are kept, and their number where it isn't among them.
pub fn place_of(kept: &[usize], k: usize) -> u32
    requires { length kept.now ≤ 64 }
    ensures { result ≡ place_in kept.now k }
{
    kept.iter().position(|x| *x == k).unwrap_or(kept.len()) as u32
}
