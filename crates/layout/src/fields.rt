// Where each field stands in an image. Two-byte numbers have the low byte first.
ghost use Rattle.std.specs.Prelude.{◌≡◌, ◌+◌, ◌*◌, ◌<◌, length};
ghost use Rattle.layout.specs.Fields.{word, signed, levels_of, degrees_of, row_of, steps_of, timing_of, limits_of};

use super::limits::{Degrees, Levels, Limits, Row, Steps, Timing};
use std::array;

// How many bytes an image has.
pub const IMAGE: usize = 116;

pub fn word_at(image: &[u8], at: usize) -> u16
    requires { at + 1 < length image.now }
    ensures { result ≡ word image.now at }
{
    u16::from_le_bytes([image[at], image[at + 1]])
}

fn signed_at(image: &[u8; IMAGE], at: usize) -> i8
    requires { at < IMAGE }
    ensures { result ≡ signed image.now at }
{
    image[at].cast_signed()
}

// Field by field, as the image has them: a loop over the places would hide which field stands where.
fn read_levels(image: &[u8; IMAGE]) -> Levels
    ensures { result ≡ levels_of image.now }
{
    Levels {
        trip: word_at(image, 22),
        release: word_at(image, 24),
        shutdown: word_at(image, 26),
        overdrop: word_at(image, 28),
        permanent: word_at(image, 30),
        charging: word_at(image, 32),
        discharging: word_at(image, 34),
        full: word_at(image, 36),
        fulldrop: word_at(image, 38),
        fullcurrent: word_at(image, 40),
        chargecfg: word_at(image, 42),
    }
}

fn read_degrees(image: &[u8; IMAGE]) -> Degrees
    ensures { result ≡ degrees_of image.now }
{
    Degrees {
        edges: array::from_fn(|i| signed_at(image, 44 + i)),
        hot: signed_at(image, 52),
        die: signed_at(image, 53),
        permanent: signed_at(image, 54),
        hysteresis: image[55],
    }
}

fn read_row(image: &[u8; IMAGE], at: usize) -> Row
    requires { at + 5 < IMAGE }
    ensures { result ≡ row_of image.now at }
{
    Row {
        current: word_at(image, at),
        voltage: word_at(image, at + 2),
        level: word_at(image, at + 4),
    }
}

// The rows stand six bytes apart.
fn row_place(i: usize) -> usize
    requires { i < 7 }
    ensures { result ≡ 56 + 6 * i }
{
    56 + 6 * i
}

fn read_steps(image: &[u8; IMAGE]) -> Steps
    ensures { result ≡ steps_of image.now }
{
    Steps {
        voltages: array::from_fn(|i| word_at(image, 98 + 2 * i)),
        ratios: array::from_fn(|i| image[106 + i]),
    }
}

fn read_timing(image: &[u8; IMAGE]) -> Timing
    ensures { result ≡ timing_of image.now }
{
    Timing {
        delaycfg: word_at(image, 110),
        enabled: word_at(image, 112),
    }
}

fn read_fields(image: &[u8; IMAGE]) -> Limits
    ensures { result ≡ limits_of image.now }
{
    Limits {
        levels: read_levels(image),
        degrees: read_degrees(image),
        rows: array::from_fn(|i| read_row(image, row_place(i))),
        steps: read_steps(image),
        timing: read_timing(image),
    }
}

// All fields, from an image whose length is known by proof and not by type.
pub fn read_limits(image: &[u8]) -> Limits
    requires { length image.now ≡ IMAGE }
    ensures { result ≡ limits_of image.now }
{
    let Ok(image) = <&[u8; IMAGE]>::try_from(image) else {
        unreachable!()
    };
    read_fields(image)
}
