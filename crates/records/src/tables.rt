//! Tables of what has names, in ascending names: the first so many entries are held, and the rest are free.
ghost use Rattle.std.specs.Prelude.{◌≡◌, ◌+◌, ◌-◌, ◌<◌, ◌≤◌, cond, ◌++◌, [], ◌∷◌, length, take, drop, nat_le, nat_lt, is_ok, None, IfSome, MatchResult};
ghost use Rattle.std.specs.List.{insert, prefix_len, remove};
ghost use Rattle.records.specs.Named.{named, add, without};

use crate::named::Named;
use crate::search::index_of;
use thiserror::Error;

/// A table of N entries, of which the first `count` are held.
// toolchain: the contracts of `ArrayVec` do not tell what stands behind the entries held, as `spare` and `rest` do here
#[derive(Drop)]
pub struct Table<R, const N: usize> {
    places: [R; N],
    count: usize,
    ghost fit: { count ≤ N },
}

/// No entry of a table is free.
#[derive(Clone, Copy, PartialEq, Eq, Debug, Error)]
#[error("no place of the table is free")]
pub struct Full;

impl<R, const N: usize> Table<R, N> {
    ghost use Rattle.records.specs.Tables.{held};

    /// A table that holds nothing yet, over entries that are free.
    pub fn new(places: [R; N]) -> Self
        ensures empty { held result ≡ [] }
        ensures spare { result.places ≡ places }
    {
        Table { places, count: 0 }
    }

    /// What is held, in the order of the names where it was so inserted.
    pub fn held(&self) -> &[R]
        ensures { result.now ≡ held self.now }
    {
        &self.places[..self.count]
    }

    /// Whether no entry is free.
    pub fn is_full(&self) -> bool
        ensures { result ≡ nat_le N (length (held self.now)) }
    {
        self.held().len() >= N
    }
}

impl<R: Named + Copy, const N: usize> Table<R, N> {
    ghost use Rattle.records.specs.Tables.{held};

    /// Puts `x` before the first that is held whose name is not below its own; where no entry is free it is refused, and the
    /// table stays.
    pub fn insert(&mut self, x: R) -> Result<(), Full>
        ensures answer { is_ok result ≡ nat_lt (length (held self.old)) N }
        ensures after { MatchResult result (λ _. held self.new ≡ add R.label x (held self.old)) (λ _. self.new ≡ self.old) }
        ensures rest { drop (self.old.count + 1) self.new.places ≡ drop (self.old.count + 1) self.old.places }
    {
        insert(&mut self.places, self.count, x)?;
        self.count += 1;
        Ok(())
    }

    /// Takes the first of a name out, where one has it; it then stands behind those still held.
    pub fn remove(&mut self, name: u16) -> Option<R>
        ensures answer { result ≡ named R.label name (held self.old) }
        ensures after { held self.new ≡ without R.label name (held self.old) }
        ensures unknown { result ≡ None → self.new ≡ self.old }
        ensures spare { IfSome result (λ x. take self.old.count self.new.places ≡ held self.new ++ x ∷ []) }
        ensures rest { drop self.old.count self.new.places ≡ drop self.old.count self.old.places }
    {
        let gone = remove(&mut self.places, self.count, name)?;
        self.count -= 1;
        Some(gone)
    }
}

/// Puts `x` into its place among the first `count`, where one is free behind them: the method of [`Table`] over any slice and
/// count.
pub fn insert<R: Named + Copy>(rows: &mut [R], count: usize, x: R) -> Result<(), Full>
    ensures answer { is_ok result ≡ nat_lt count (length rows.old) }
    ensures after { MatchResult result (λ _. take (count + 1) rows.new ≡ add R.label x (take count rows.old)) (λ _. rows.new ≡ rows.old) }
    ensures rest { drop (count + 1) rows.new ≡ drop (count + 1) rows.old }
{
    if count >= rows.len() {
        return Err(Full);
    }
    let at = rank_of(&rows[..count], x.name());
    put_at(&mut rows[..=count], at, x);
    Ok(())
}

/// Takes the first of a name out of the first `count`, where one has it; it then stands behind those still held. Over any slice
/// and count too: a count beyond the slice finds nothing.
pub fn remove<R: Named + Copy>(rows: &mut [R], count: usize, name: u16) -> Option<R>
    ensures answer { result ≡ cond (nat_le count (length rows.old)) (named R.label name (take count rows.old)) None }
    ensures after { IfSome result (λ _. take (count - 1) rows.new ≡ without R.label name (take count rows.old)) }
    ensures unknown { result ≡ None → rows.new ≡ rows.old }
    ensures spare { IfSome result (λ x. take count rows.new ≡ without R.label name (take count rows.old) ++ x ∷ []) }
    ensures rest { drop count rows.new ≡ drop count rows.old }
{
    if count > rows.len() {
        return None;
    }
    let held = &rows[..count];
    let at = index_of(held, name)?;
    let gone = held[at];
    take_at(&mut rows[..count], at);
    Some(gone)
}

// How many stand before the first whose name is not below this one: a walk as in `index_of`, with no premise that names ascend.
fn rank_of<R: Named>(held: &[R], name: u16) -> usize
    ensures { result ≡ prefix_len (λ x. nat_lt (R.label x) name) held.now }
{
    held.iter().take_while(|x| x.name() < name).count()
}

// x goes in at a place of a part whose last place is free; what stands from there on moves up by one.
fn put_at<R: Copy>(part: &mut [R], at: usize, x: R)
    requires { at < length part.old }
    ensures { part.new ≡ insert (take (length part.old - 1) part.old) at x }
{
    let last = part.len() - 1;
    part[last] = x;
    part[at..].rotate_right(1);
}

// What stands at a place goes to the end of a part; those above it move down by one.
fn take_at<R: Copy>(part: &mut [R], at: usize)
    requires { at < length part.old }
    ensures { part.new ≡ remove part.old at ++ take 1 (drop at part.old) }
{
    part[at..].rotate_left(1);
}
