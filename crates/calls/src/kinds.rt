// The kinds of record, one function each, and one for the two that carry nothing. What is spare is checked before what
// is out of range.
ghost use Rattle.std.specs.Prelude.{◌≡◌, if◌then◌else◌, Ok, Err};
ghost use Rattle.calls.specs.Fields.{spare_set};
ghost use Rattle.calls.specs.Kinds.{R, L, S, in_range, parsed_as};

use super::call::{Call, Offs};
use super::fields::{RECORD, refuse_spare, signed_at};
use super::rejection::Rejection;
use layout::word_at;
use reading::Reading;

fn is_in_range(elapsed: u16, voltage: u16) -> bool
    ensures { result ≡ in_range elapsed voltage }
{
    (1..=60_000).contains(&elapsed) && voltage <= 6_000
}

pub(crate) fn parse_reading(bytes: &[u8; RECORD]) -> Result<Call, Rejection>
    ensures { result ≡ parsed_as R bytes.now }
{
    refuse_spare(bytes, 0b01, RECORD)?;
    let elapsed = word_at(bytes, 2);
    let voltage = word_at(bytes, 4);
    if !is_in_range(elapsed, voltage) {
        return Err(Rejection::Range);
    }
    Ok(Call::Read(Reading {
        elapsed,
        voltage,
        current: signed_at(bytes, 6),
        cell: signed_at(bytes, 8),
        die: signed_at(bytes, 10),
        charger: bytes[1] % 2 == 1,
    }))
}

pub(crate) fn parse_limit(bytes: &[u8; RECORD]) -> Result<Call, Rejection>
    ensures { result ≡ parsed_as L bytes.now }
{
    refuse_spare(bytes, 0b00, 4)?;
    let current = word_at(bytes, 2);
    if current > 20_000 {
        return Err(Rejection::Range);
    }
    Ok(Call::Limit(current))
}

pub(crate) fn parse_switch(bytes: &[u8; RECORD]) -> Result<Call, Rejection>
    ensures { result ≡ parsed_as S bytes.now }
{
    refuse_spare(bytes, 0b11, 2)?;
    Ok(Call::Switch(Offs {
        charge: bytes[1] % 2 == 1,
        discharge: bytes[1] / 2 % 2 == 1,
    }))
}

// A record whose letter says it all, as a word from the host and a clear: the call, if nothing else is set.
pub(crate) fn parse_bare(bytes: &[u8; RECORD], call: Call) -> Result<Call, Rejection>
    ensures { result ≡ (if spare_set bytes.now 0 2 then Err Rejection.Spare else Ok call) }
{
    refuse_spare(bytes, 0b00, 2)?;
    Ok(call)
}
