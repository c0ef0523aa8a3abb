//! What a record kind is, and the four kinds of a plan file.
ghost use Rattle.std.specs.Prelude.{◌≡◌, ℕ, ◌<◌, List, length, Some, Option};
ghost use Rattle.records.specs.Bytes.{Bytes};

/// A kind of record that has a fixed number of bytes.
pub trait Record: Sized {
    /// The number of bytes of each record.
    const SIZE: usize;

    ghost SIZE: { ℕ };

    // The bytes of a record.
    ghost form: { Self → List ℕ };

    // The record that bytes stand for, if any.
    ghost parsed: { List ℕ → Option Self };

    // Which values have a byte form.
    ghost sound: { Self → Type 0 };

    /// The record that bytes stand for, or none.
    fn read(bytes: &[u8]) -> Option<Self>
        requires { length bytes.now ≡ SIZE }
        ensures { result ≡ parsed bytes.now };

    /// Writes its bytes.
    fn write(&self, out: &mut [u8])
        requires { length out.old ≡ SIZE }
        ensures { out.new ≡ form self.now };

    ghost long: { (x : Self) → length (form x) ≡ SIZE };

    ghost some: { 0 < SIZE };

    // The bytes of a record read as the record.
    ghost back: { (x : Self) → sound x → parsed (form x) ≡ Some x };
}

/// A kind whose records have no bytes but their form.
pub trait Canonical: Record {
    ghost only: { (bs : List ℕ) (x : Self) → length bs ≡ Self.SIZE → Bytes bs → Self.parsed bs ≡ Some x → Self.form x ≡ bs };
}

/// A link of a listed fabric, from a node to a node.
#[derive(Clone, Copy, PartialEq, Eq, Debug)]
pub struct Link {
    pub from: u8,
    pub to: u8,
}

/// A route of a listed fabric: the first `length` of `links` are its link numbers. The length stands beside them, since the file's
/// record has twelve bytes of links whatever the length, and all of them come back.
#[derive(Clone, Copy, PartialEq, Eq, Debug)]
pub struct Route {
    pub from: u8,
    pub to: u8,
    pub length: u8,
    pub links: [u8; 12],
}

/// A task: its name, the node whose core it has, and period, phase and width in instants.
#[derive(Clone, Copy, PartialEq, Eq, Debug)]
pub struct Task {
    pub name: u16,
    pub core: u8,
    pub period: u32,
    pub phase: u32,
    pub width: u32,
}

impl Task {
    /// What fills a table's free places; it is never read.
    pub const EMPTY: Task = Task {
        name: 0,
        core: 0,
        period: 0,
        phase: 0,
        width: 0,
    };
}

/// A message: its name, the names of the tasks that send and read it, its kind, and delay and width in instants.
#[derive(Clone, Copy, PartialEq, Eq, Debug)]
pub struct Message {
    pub name: u16,
    pub source: u16,
    pub destination: u16,
    /// A number and not a `Kind`: an offer takes any, and refuses what names no kind.
    pub kind: u8,
    pub delay: u32,
    pub width: u32,
}

impl Message {
    /// What fills a table's free places; it is never read.
    pub const EMPTY: Message = Message {
        name: 0,
        source: 0,
        destination: 0,
        kind: 0,
        delay: 0,
        width: 0,
    };
}
