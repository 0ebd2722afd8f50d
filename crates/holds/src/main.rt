// Which ranges hold which values: a line of standard input asks, a line of standard output answers.
#![tactic(auto)]

use query::answer::{Answer, Part};
use query::line::without_line_feed;
use query::tally::Tally;
use std::io;
use std::io::{BufRead, BufReader, Write};

fn main(rt: HostRuntime) -> io::Result<()> {
    let mut input = BufReader::new(rt.alloc(), rt.stdin())?;
    let mut line = Vec::new(rt.alloc());
    let mut tally = Tally::new();
    for number in 1..=u64::MAX {
        line.clear();
        if input.read_until(b'\n', &mut line)? == 0 {
            break;
        }
        let answer = Answer::to(without_line_feed(line.as_slice()));
        tally.count(&answer);
        print_answer(&rt, number, &answer)?;
    }
    let Tally {
        held,
        left_out,
        unread,
    } = tally;
    let lines = tally.lines();
    println!(rt; "{lines} lines: {held} held, {left_out} left out, {unread} not read")
}

// A line that has no answer is told by its number.
fn print_answer(
    rt: &HostRuntime,
    number: u64,
    answer: &Result<Answer<'_>, Part>,
) -> io::Result<()> {
    match answer {
        Ok(answer) => print_pieces(rt, answer),
        Err(part) => println!(rt; "line {number}: {part}"),
    }
}

fn print_pieces(rt: &HostRuntime, answer: &Answer<'_>) -> io::Result<()> {
    let mut out = rt.stdout();
    for piece in answer.pieces() {
        out.write_all(piece)?;
    }
    out.write_all(b"\n")
}
