//! `chute`: reads hall scripts, from standard input or from the files named as arguments, and prints the answer to each line.
#![tactic(auto)]

use desk::{Answer, Desk, Lines, Tally};
use script::word;
use std::alloc::Global;
use std::io::Read;
use std::{env, fs};

/// Prints what a line is answered; a line that lists something prints nothing.
fn print(rt: &HostRuntime, line: &[u8], number: u64, answer: &Answer) -> anyhow::Result<()> {
    match answer {
        Answer::Silent => {}
        Answer::Hall => {
            let name = String::from_utf8_lossy(rt.alloc(), word(line, 1))?;
            println!(rt; "{answer} {name}")?;
        }
        Answer::Unread(_) => println!(rt; "line {number}: {answer}")?,
        Answer::Cast(_, _) => println!(rt; "{answer}")?,
    }
    Ok(())
}

/// Answers each line of a text.
fn answer_lines(
    rt: &HostRuntime,
    desk: &mut Desk,
    tally: &mut Tally,
    text: &[u8],
) -> anyhow::Result<()> {
    for (number, line) in (1u64..).zip(Lines::of(text)) {
        // no `?`: the check cannot build the proof of one on a value that is copied and holds a `ShortList` in an enum
        let answer = match desk.answer(line) {
            Ok(answer) => answer,
            Err(error) => return Err(error.into()),
        };
        tally.count(&answer);
        print(rt, line, number, &answer)?;
    }
    Ok(())
}

/// Answers standard input, or each file that is named.
fn run(rt: &HostRuntime) -> anyhow::Result<()> {
    let heap: Global = rt.alloc();
    let mut desk = Desk::new(heap);
    let mut tally = Tally::new();
    let mut paths = env::args(rt)?.skip(1).peekable();
    if paths.peek().is_none() {
        let mut text: Vec<u8> = Vec::new(heap);
        rt.stdin().read_to_end(&mut text)?;
        answer_lines(rt, &mut desk, &mut tally, text.as_slice())?;
    }
    for path in paths {
        let text = fs::read(rt, path.as_str())?;
        answer_lines(rt, &mut desk, &mut tally, text.as_slice())?;
    }
    println!(rt; "{tally}")?;
    Ok(())
}

fn main(rt: HostRuntime) -> anyhow::Result<()> {
    run(&rt)
}
