ghost use Rattle.std.specs.Prelude.{◌≡◌, ℕ, ◌-◌, ◌<◌, ◌≤◌, ◌↔◌, [], ◌++◌, length, replicate, Some, IsOk, IfOk, IsErrOf};
ghost use Rattle.rb_delayed.specs.Payload.{IsPayload, is_visible, first_bad};

use crate::payload_fault::PayloadFault;
use std::marker::Model;
use std::{fmt, str};

/// The greatest length of a payload, in bytes.
pub const MOST_PAYLOAD_BYTES: usize = 64;

/// The least byte of a payload, `!`.
pub const LEAST_PAYLOAD_BYTE: u8 = 0x21;

/// The greatest byte of a payload, `~`.
pub const GREATEST_PAYLOAD_BYTE: u8 = 0x7E;

/// What a job carries: 1 to 64 bytes, each a visible ASCII character.
///
/// The bytes are stored in place, so a payload is `Copy` and takes no memory.
#[derive(Clone, Copy, PartialEq, Eq)]
pub struct Payload {
    // The payload's own bytes are followed by zeros, so equal payloads have equal buffers.
    buffer: [u8; MOST_PAYLOAD_BYTES],
    len: usize,
}

impl Model for Payload {
    ghost use Rattle.std.specs.Prelude.{ℕ, List, length, take, replicate, ◌++◌, ◌-◌};
    ghost use Rattle.rb_delayed.specs.Padding.{IsPadded, unpadded};
    ghost use Rattle.rb_delayed.specs.declared.payload.TheConstants.{MOST_PAYLOAD_BYTES};

    ghost Value = { List ℕ };

    ghost view = { λ p. take p.len p.buffer };

    ghost invariant = { λ p. IsPadded p.buffer p.len };

    ghost inverse = { λ bytes. record {
      buffer = bytes ++ replicate (MOST_PAYLOAD_BYTES - length bytes) 0;
      len = length bytes;
    } };

    ghost inverse_ok = { λ p h i. let same = unpadded p.buffer p.len h in record {
      buffer = same.padded i;
      len = same.counted i;
    } };
}

impl Payload {
    /// The payload of these bytes.
    ///
    /// Returns the first fault that holds: `Empty` if there is no byte, `TooLong` if there are more
    /// than 64, `BadByte` if a byte is not a visible ASCII character, with the place of the first
    /// such byte, counted from 0.
    pub fn new(bytes: &[u8]) -> Result<Payload, PayloadFault>
        ensures ok { IsOk result ↔ IsPayload bytes.now }
        ensures value { IfOk result (λ payload. payload ≡ bytes.now) }

        ensures empty { IsErrOf result PayloadFault.Empty ↔ (bytes.now ≡ []) }
        ensures too_long { IsErrOf result PayloadFault.TooLong ↔ (MOST_PAYLOAD_BYTES < length bytes.now) }
        ensures bad_byte { (place : ℕ) → IsErrOf result (PayloadFault.BadByte place)
            ↔ ((length bytes.now ≤ MOST_PAYLOAD_BYTES) × (first_bad bytes.now ≡ Some place)) }
    {
        if bytes.is_empty() {
            return Err(PayloadFault::Empty);
        }
        if bytes.len() > MOST_PAYLOAD_BYTES {
            return Err(PayloadFault::TooLong);
        }
        if let Some(place) = first_bad(bytes) {
            return Err(PayloadFault::BadByte(place));
        }
        Ok(Payload {
            buffer: padded(bytes),
            len: bytes.len(),
        })
    }

    /// The payload's bytes.
    pub fn as_bytes(&self) -> &[u8]
        ensures bytes { result.now ≡ self.now }
        ensures payload { IsPayload self.now }
    {
        &self.buffer[..self.len]
    }
}

/// Shows the payload as text.
impl fmt::Debug for Payload {
    fn fmt<W: fmt::Write>(&self, f: &mut fmt::Formatter<W>) -> fmt::Result {
        let text = str::from_utf8(self.as_bytes()).unwrap_or_default();
        f.debug_tuple("Payload").field(&text).finish()
    }
}

// The place of the first byte that a payload may not have.
fn first_bad(bytes: &[u8]) -> Option<usize>
    ensures { result ≡ first_bad bytes.now }
{
    bytes.iter().position(|&byte| !is_visible(byte))
}

// The bytes, followed by zeros.
fn padded(bytes: &[u8]) -> [u8; MOST_PAYLOAD_BYTES]
    requires { length bytes.now ≤ MOST_PAYLOAD_BYTES }
    ensures { result ≡ bytes.now ++ replicate (MOST_PAYLOAD_BYTES - length bytes.now) 0 }
{
    let mut buffer = [0; MOST_PAYLOAD_BYTES];
    buffer[..bytes.len()].copy_from_slice(bytes);
    buffer
}

// Whether a payload may have this byte.
fn is_visible(byte: u8) -> bool
    ensures { result ≡ is_visible byte }
{
    (LEAST_PAYLOAD_BYTE..=GREATEST_PAYLOAD_BYTE).contains(&byte)
}
