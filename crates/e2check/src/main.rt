//! e2check: judges e2 messages, one to a line in hexadecimal, and sums up.
#![tactic(auto)]

mod line;
mod reading;
mod tally;

use crate::line::{Judged, judge};
use crate::reading::Told;
use crate::tally::Tally;
use anyhow::anyhow;
use request::reading::read_request;
use std::io::{BufRead, BufReader, BufWriter, Write};
use std::{env, io};

/// Whose requests are read, and when.
#[derive(Drop)]
struct Asker {
    name: String,
    time: u32,
}

const USAGE: &str = "usage: e2check [NAME TIME] < MESSAGES

Reads lines from standard input, each a Diameter message in hexadecimal digits of either case. Spaces may stand
anywhere; `#` begins a comment, and lines without a message are skipped. For each message it prints its line's number and

    N: sound UDR, 272 bytes           a request that is read further
    N: refused 5, version not 1       the first reason not to read it
    N: not hexadecimal at column C    the line is no message

and at the end how many there were of each. With the name of an application function and the time now, in seconds
since 1900, it reads each request of that function to its end, and adds what is asked or which AVP is at fault.
It ends with status 1 where a line was not hexadecimal.";

/// Prints what is said of the message of one line, and of its request where it is to be read to its end.
fn judge_line<W: Write>(
    out: &mut W,
    number: u64,
    judged: Judged,
    message: &[u8],
    asker: Option<&Asker>,
) -> io::Result<Judged> {
    if judged == Judged::Nothing {
        return Ok(judged);
    }
    match asker {
        Some(asker) if judged.has_message() => {
            let reading = read_request(message, asker.name.as_bytes(), asker.time);
            let judged = judged.read_further(&reading);
            writeln!(out, "{number}: {judged}{}", Told(&reading))?;
            Ok(judged)
        }
        _ => {
            writeln!(out, "{number}: {judged}")?;
            Ok(judged)
        }
    }
}

/// Judges every line of the input, and gives the counts.
fn judge_all<W: Write>(
    rt: &HostRuntime,
    out: &mut W,
    asker: Option<&Asker>,
) -> anyhow::Result<Tally> {
    let mut input = BufReader::new(rt.alloc(), rt.stdin())?;
    let mut text = Vec::new(rt.alloc());
    let mut message = Vec::new(rt.alloc());
    let mut tally = Tally::new();
    // Not `lines()`, which asks for memory for each line; the range bounds a loop that ends with the input.
    for number in 1..u64::MAX {
        text.clear();
        if input.read_until(b'\n', &mut text)? == 0 {
            break;
        }
        let judged = judge(text.as_slice(), &mut message)?;
        tally.count(judge_line(out, number, judged, message.as_slice(), asker)?);
    }
    Ok(tally)
}

/// What the arguments ask for.
#[derive(Drop)]
enum Arguments {
    Help,
    /// To judge messages alone, or to read them as requests of this application function too.
    Judge(Option<Asker>),
}

fn read_arguments(rt: &HostRuntime) -> anyhow::Result<Arguments> {
    let mut args = env::args(rt)?;
    let _program = args.next();
    let Some(name) = args.next() else {
        return Ok(Arguments::Judge(None));
    };
    if name.as_str() == "--help" {
        return Ok(Arguments::Help);
    }
    let time = args.next().ok_or_else(|| {
        anyhow!("a name and a time are wanted; without arguments e2check judges messages alone")
    })?;
    let time = time.as_str().parse::<u32>().map_err(|_| anyhow!(
        "the time has to be a number of seconds below 4294967296"
    ))?;
    Ok(Arguments::Judge(Some(Asker { name, time })))
}

/// Judges the input and prints the counts.
fn judge_input<W: Write>(
    rt: &HostRuntime,
    out: &mut W,
    asker: Option<&Asker>,
) -> anyhow::Result<()> {
    let tally = judge_all(rt, out, asker)?;
    write!(out, "{tally}")?;
    out.flush()?;
    if tally.unreadable > 0 {
        return Err(anyhow!("some lines are not hexadecimal"));
    }
    Ok(())
}

fn run(rt: &HostRuntime) -> anyhow::Result<()> {
    let mut out = BufWriter::new(rt.alloc(), rt.stdout())?;
    match read_arguments(rt)? {
        Arguments::Help => {
            writeln!(out, "{USAGE}")?;
            out.flush()?;
            Ok(())
        }
        Arguments::Judge(asker) => judge_input(rt, &mut out, asker.as_ref()),
    }
}

fn main(rt: HostRuntime) -> anyhow::Result<()> {
    run(&rt)
}
