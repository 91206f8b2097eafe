// A sheet written as its image.
#![tactic(auto)]

ghost use Rattle.std.specs.Prelude.{◌≡◌, ◌+◌, ◌*◌, ◌≤◌, true, ◌++◌, length, take, Ok};
ghost use Rattle.std.specs.List.{flat_map};
ghost use Rattle.layout.specs.Accepted.{sound, fits};
ghost use Rattle.layout.specs.Decoded.{decoded};
ghost use Rattle.layout.specs.Encoded.{pair, level_bytes, degree_bytes, row_bytes, step_bytes, body_of, image_of};

use layout::{Degrees, IMAGE, Levels, Limits, Row, Steps, body_sum};

// The edition, the count, and the five entries.
const CONTENTS: [u8; 22] = [
    1, 5, 1, 22, 22, 0, 2, 12, 44, 0, 3, 42, 56, 0, 4, 12, 98, 0, 5, 4, 110, 0,
];

// Field by field, in the order of the image: a loop would need the fields as a list, which is what this makes.
fn level_words(l: &Levels) -> [u16; 11]
    ensures { flat_map pair result ≡ level_bytes l.now }
{
    [
        l.trip,
        l.release,
        l.shutdown,
        l.overdrop,
        l.permanent,
        l.charging,
        l.discharging,
        l.full,
        l.fulldrop,
        l.fullcurrent,
        l.chargecfg,
    ]
}

// Writes a part at its place; what stands before it stays.
fn put(out: &mut [u8], at: usize, part: &[u8])
    requires { at + length part.now ≤ length out.old }
    ensures { take (at + length part.now) out.new ≡ take at out.old ++ part.now }
{
    let end = at + part.len();
    out[at..end].copy_from_slice(part);
}

// Writes words at a place, one after the other; by the place, since after `chunks_mut` a proof knows the length alone.
fn put_words(out: &mut [u8], at: usize, words: &[u16])
    requires { at + 2 * length words.now ≤ length out.old }
    ensures { take (at + 2 * length words.now) out.new ≡ take at out.old ++ flat_map pair words.now }
{
    for (i, word) in words.iter().enumerate() {
        put(out, at + 2 * i, &word.to_le_bytes());
    }
}

fn put_degrees(out: &mut [u8; IMAGE], d: &Degrees)
    ensures { take 56 out.new ≡ take 44 out.old ++ degree_bytes d.now }
{
    put(out, 44, &d.edges.map(i8::cast_unsigned));
    let others = [
        d.hot.cast_unsigned(),
        d.die.cast_unsigned(),
        d.permanent.cast_unsigned(),
        d.hysteresis,
    ];
    put(out, 52, &others);
}

// The seven rows stand six bytes apart.
fn put_rows(out: &mut [u8; IMAGE], rows: &[Row; 7])
    ensures { take 98 out.new ≡ take 56 out.old ++ flat_map row_bytes rows.now }
{
    for (i, row) in rows.iter().enumerate() {
        put_words(out, 56 + 6 * i, &[row.current, row.voltage, row.level]);
    }
}

fn put_steps(out: &mut [u8; IMAGE], s: &Steps)
    ensures { take 110 out.new ≡ take 98 out.old ++ step_bytes s.now }
{
    put_words(out, 98, &s.voltages);
    put(out, 106, &s.ratios);
}

fn fill_body(out: &mut [u8; IMAGE], l: &Limits)
    ensures { take 114 out.new ≡ body_of l.now }
{
    put(out, 0, &CONTENTS);
    put_words(out, 22, &level_words(&l.levels));
    put_degrees(out, &l.degrees);
    put_rows(out, &l.rows);
    put_steps(out, &l.steps);
    put_words(out, 110, &[l.timing.delaycfg, l.timing.enabled]);
}

fn fill(out: &mut [u8; IMAGE], l: &Limits)
    ensures { out.new ≡ image_of l.now }
{
    fill_body(out, l);
    let sum = body_sum(out);
    put(out, 114, &sum.to_le_bytes());
}

// The image of the limits of a sheet, which is read as these limits again.
pub fn write_image(l: &Limits) -> [u8; IMAGE]
    requires { (sound l.now ≡ true) × (fits l.now ≡ true) }
    ensures value { result ≡ image_of l.now }
    ensures read { decoded result ≡ Ok l.now }
{
    let mut out = [0; IMAGE];
    fill(&mut out, l);
    out
}
