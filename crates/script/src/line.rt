//! What a line of a script says.
use replay::calls::Call;

/// What a line says.
#[derive(Drop)]
pub enum Line {
    /// Empty, or a remark.
    Blank,
    /// No line of the language.
    Unread,
    /// A mesh by its columns, rows and hop delay.
    Mesh { x: u8, y: u8, delay: u8 },
    /// A listed fabric by its file bytes.
    Listed(Vec<u8>),
    /// A load by its job part.
    Load(Vec<u8>),
    /// Any other call; it lends no bytes.
    Plain(Call<&'static [u8]>),
}
