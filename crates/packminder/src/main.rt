// Minds a pack: a sheet image and then records come in on standard input, and a line for each of them goes out.
#![tactic(auto)]

use feed::{each_record, fill};
use pack::Pack;
use prescribers::usual;
use sheet::{IMAGE, Sheet, Verdict};
use std::io;
use std::io::{BufWriter, Read, Write};

// Judges the image, and minds a new pack until the input ends if it makes a sheet. A record that was cut short goes to the pack too,
// which refuses it. tally begins alike: what the two share is what they read and print, of which no contract of a function could speak.
fn run<R: Read, W: Write>(input: &mut R, out: &mut W) -> io::Result<()> {
    let mut image = [0u8; IMAGE];
    let judged = Sheet::decode(fill(input, &mut image)?);
    let verdict = Verdict::from(&judged);
    writeln!(out, "{verdict}")?;
    let Ok(sheet) = judged else {
        return Ok(());
    };
    let mut pack = Pack::new(sheet, usual(&sheet));
    each_record(input, |record| {
        let answer = pack.call(record);
        writeln!(out, "{answer}")
    })
}

// The same three lines in each program: a function of them would take the program as a closure and the streams as parameters.
fn main(rt: HostRuntime) -> io::Result<()> {
    let mut out = BufWriter::new(rt.alloc(), rt.stdout())?;
    run(&mut rt.stdin(), &mut out)?;
    out.flush()
}
