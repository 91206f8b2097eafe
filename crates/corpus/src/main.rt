// Answers many cases, for the tests: each is a sheet image and the records for a new pack on it. Every image and every record comes with
// its length, so that those of a wrong length can be tried too.
#![tactic(auto)]

use pack::Pack;
use prescribers::usual;
use sheet::{Sheet, Verdict};
use std::io;
use std::io::{BufReader, BufWriter, ErrorKind, Read, Write};

// Reads a byte with a length, and so many bytes.
fn read_frame<'a, R: Read>(input: &mut R, buffer: &'a mut [u8; 255]) -> io::Result<&'a [u8]> {
    let mut length = [0u8; 1];
    input.read_exact(&mut length)?;
    let frame = &mut buffer[0..usize::from(length[0])];
    input.read_exact(frame)?;
    Ok(frame)
}

// Reads how many records a case has.
fn read_count<R: Read>(input: &mut R) -> io::Result<u16> {
    let mut count = [0u8; 2];
    input.read_exact(&mut count)?;
    Ok(u16::from_le_bytes(count))
}

// Judges the image of one case, and answers its records by a new pack. Those that come after a refused image are read over. Input and
// output stay two parameters: a struct of both that lends the frame was tried, and gets no proof.
fn run_case<R: Read, W: Write>(input: &mut R, out: &mut W) -> io::Result<()> {
    // room for the longest frame
    let mut buffer = [0u8; 255];
    let judged = Sheet::decode(read_frame(input, &mut buffer)?);
    let verdict = Verdict::from(&judged);
    writeln!(out, "{verdict}")?;
    let count = read_count(input)?;
    let Ok(sheet) = judged else {
        for _ in 0..count {
            read_frame(input, &mut buffer)?;
        }
        return Ok(());
    };
    // Not an Option of a pack, with one loop for both kinds of image: to move a pack into it takes a case 150 instructions more.
    let mut pack = Pack::new(sheet, usual(&sheet));
    for _ in 0..count {
        let answer = pack.call(read_frame(input, &mut buffer)?);
        writeln!(out, "{answer}")?;
    }
    Ok(())
}

// Runs case after case until the input ends, which it may do anywhere: a frame that is cut short has no line.
fn run<R: Read, W: Write>(input: &mut R, out: &mut W) -> io::Result<()> {
    // no input reaches this bound: every function has to end
    for _ in 0..u64::MAX {
        match run_case(input, out) {
            Err(e) if e.kind() == ErrorKind::UnexpectedEof => break,
            ended => ended?,
        }
    }
    Ok(())
}

fn main(rt: HostRuntime) -> io::Result<()> {
    let mut input = BufReader::new(rt.alloc(), rt.stdin())?;
    let mut out = BufWriter::new(rt.alloc(), rt.stdout())?;
    run(&mut input, &mut out)?;
    out.flush()
}
