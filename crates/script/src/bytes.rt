//! Bytes written in hexadecimal.
ghost use Rattle.script.specs.Fields.{unhexed};
ghost use Rattle.std.specs.Option.{option_map};
ghost use Rattle.std.specs.Prelude.{◌≡◌, vec_items, IfOk};

use std::alloc::{AllocError, Global};

// The bytes that pairs of hexadecimal digits write.
pub(crate) fn unhexed(heap: Global, text: &[u8]) -> Result<Option<Vec<u8>>, AllocError>
    ensures { IfOk result (λ bytes. option_map vec_items bytes ≡ unhexed text.now) }
{
    let (pairs, rest) = text.as_chunks::<2>();
    if !rest.is_empty() {
        return Ok(None);
    }
    let mut bytes = Vec::new(heap);
    for [high, low] in pairs {
        let (Some(high), Some(low)) = (
            char::from(*high).to_digit(16),
            char::from(*low).to_digit(16),
        ) else {
            return Ok(None);
        };
        bytes.push((high * 16 + low) as u8)?;
    }
    Ok(Some(bytes))
}
