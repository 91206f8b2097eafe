// Compares two sheets for the workshop: a pack on each is given the same records, and both answers are printed side by side.
#![tactic(auto)]

use feed::{each_record, fill};
use order::at_least_as_generous;
use pack::Pack;
use prescribers::usual;
use sheet::{IMAGE, Refusal, Sheet, Verdict};
use std::io;
use std::io::{BufWriter, Read, Write};
use tighter::call_both;

// Reads an image, and prints how it was judged after the name that it goes by. Input and output are two parameters of two functions: a
// struct of both would have more lines than it saves.
fn read_sheet<R: Read, W: Write>(
    name: &str,
    input: &mut R,
    out: &mut W,
) -> io::Result<Result<Sheet, Refusal>> {
    let mut image = [0u8; IMAGE];
    let judged = Sheet::decode(fill(input, &mut image)?);
    let verdict = Verdict::from(&judged);
    let number = verdict.number();
    let place = verdict.place();
    writeln!(out, "{name} {number} {place}")?;
    Ok(judged)
}

// Judges both images, and minds a new pack on each until the input ends if both make a sheet. A record that was cut short goes to
// the packs too, which refuse it.
fn run<R: Read, W: Write>(input: &mut R, out: &mut W) -> io::Result<()> {
    let tight = read_sheet("tight", input, out)?;
    let loose = read_sheet("loose", input, out)?;
    let (Ok(tight), Ok(loose)) = (tight, loose) else {
        return Ok(());
    };
    let generous = if at_least_as_generous(&loose, &tight) {
        "yes"
    } else {
        "no"
    };
    writeln!(out, "generous {generous}")?;
    let mut tight = Pack::new(tight, usual(&tight));
    let mut loose = Pack::new(loose, usual(&loose));
    each_record(input, |record| {
        let (a, b) = call_both(&mut tight, &mut loose, record);
        writeln!(out, "{a} | {b}")
    })
}

fn main(rt: HostRuntime) -> io::Result<()> {
    let mut out = BufWriter::new(rt.alloc(), rt.stdout())?;
    run(&mut rt.stdin(), &mut out)?;
    out.flush()
}
