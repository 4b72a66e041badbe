// Answers as records of comma-separated values, each with CRLF.
use plan::pick::Progress;
use plan::script::{Answer, Ending, SheetText};
use plan::sheet::{LINE_BYTES, refusal_line};
use plant::refusal::Refusal;
use plant::selection::Selection;
use std::io;
use std::io::Write;

// The refusal's line on the standard output, and its meaning on the standard error. The libraries print nothing, so each program has this.
fn tell_refusal(rt: &HostRuntime, line: usize, refusal: Refusal) -> io::Result<()> {
    let mut out = [0u8; LINE_BYTES];
    if let Ok(length) = refusal_line(&refusal, &mut out) {
        rt.stdout().write_all(&out[..length])?;
    }
    eprintln!(rt; "line {line}: {refusal}")
}

fn tell_sheet(rt: &HostRuntime, sheet: &SheetText) -> io::Result<()> {
    let length = sheet.length.min(sheet.bytes.len());
    rt.stdout().write_all(&sheet.bytes[..length])
}

fn tell_end(rt: &HostRuntime, ending: &Ending) -> io::Result<()> {
    let Ending { done, hours } = ending;
    let Progress { ticked, open } = done.hours;
    print!(rt; "ended,{ticked},{open}\r\n")?;
    let states = done.ticked.open.iter().zip(&done.open.open);
    for (k, (hours, (ticked, open))) in hours.iter().zip(states).enumerate() {
        if *ticked {
            print!(rt; "{k},{hours},ticked\r\n")?;
        } else if *open {
            print!(rt; "{k},{hours},open\r\n")?;
        }
    }
    Ok(())
}

fn tell_picked(rt: &HostRuntime, selection: &Selection, hours: u32, gain: i64) -> io::Result<()> {
    let stations = selection.open.iter().filter(|open| **open).count();
    print!(rt; "picked,{stations},{hours},{gain}\r\n")
}

pub fn tell(rt: &HostRuntime, line: usize, answer: &Answer) -> io::Result<()> {
    match *answer {
        Answer::Unasked => Ok(()),
        Answer::OutOfTurn => print!(rt; "out of turn,{line}\r\n"),
        Answer::Filled { stations, lines } => print!(rt; "filled,{stations},{lines}\r\n"),
        Answer::Accepted => print!(rt; "set\r\n"),
        Answer::Picked {
            selection,
            hours,
            gain,
        } => tell_picked(rt, &selection, hours, gain),
        Answer::Sheet(sheet) => tell_sheet(rt, &sheet),
        Answer::Issued => print!(rt; "issued\r\n"),
        Answer::Dropped => print!(rt; "dropped\r\n"),
        Answer::Ticked(Progress { ticked, open }) => print!(rt; "ticked,{ticked},{open}\r\n"),
        Answer::Ended(ending) => tell_end(rt, &ending),
        Answer::Refused(refusal) => tell_refusal(rt, line, refusal),
    }
}

pub fn tell_unread(rt: &HostRuntime, line: usize) -> io::Result<()> {
    print!(rt; "unread,{line}\r\n")
}
