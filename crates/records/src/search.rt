//! The search for a name: a walk over what has names, which need not ascend here.
ghost use Rattle.std.specs.Prelude.{◌≡◌};
ghost use Rattle.records.specs.Named.{index_of, named};

use crate::named::Named;

/// At which index the first one of a name stands.
pub fn index_of<R: Named>(held: &[R], name: u16) -> Option<usize>
    ensures { result ≡ index_of R.label name held.now }
{
    held.iter().position(|x| x.name() == name)
}

/// The first one of a name.
pub fn named<R: Named + Copy>(held: &[R], name: u16) -> Option<R>
    ensures { result ≡ named R.label name held.now }
{
    held.iter().find(|x| x.name() == name).copied()
}
