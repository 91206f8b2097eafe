// What stands in a record of 12 bytes. Two-byte numbers have the low byte first.
ghost use Rattle.std.specs.Prelude.{◌≡◌, ◌+◌, ◌<◌, ◌≤◌, if◌then◌else◌, Ok, Err};
ghost use Rattle.calls.specs.Fields.{signed_word, blank, spare_set};

use super::rejection::Rejection;
use layout::word_at;

// The length of a record.
pub const RECORD: usize = 12;

pub(crate) fn signed_at(bytes: &[u8; RECORD], at: usize) -> i16
    requires { at + 1 < RECORD }
    ensures { result ≡ signed_word bytes.now at }
{
    word_at(bytes, at).cast_signed()
}

fn is_blank(bytes: &[u8]) -> bool
    ensures { result ≡ blank bytes.now }
{
    bytes.iter().all(|byte| *byte == 0)
}

// Refuses what is set without a meaning: in byte 1 a bit above `flags`, or a byte from the place `spare` on.
// The flags of byte 1 are its lowest bits, so that byte 1 with any other bit is more than all flags.
pub(crate) fn refuse_spare(bytes: &[u8; RECORD], flags: u8, spare: usize) -> Result<(), Rejection>
    requires { spare ≤ RECORD }
    ensures { result ≡ (if spare_set bytes.now flags spare then Err Rejection.Spare else Ok tt) }
{
    if bytes[1] > flags || !is_blank(&bytes[spare..]) {
        Err(Rejection::Spare)
    } else {
        Ok(())
    }
}
