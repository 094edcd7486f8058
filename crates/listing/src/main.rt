// The listing program (01, 'Listing program and its sheets'): reads a sheet from standard input and prints a line for each packet, then the count;
// or a line such as `refused -1`. A refused sheet is an answer like any other, with status 0. An input that cannot be read or a listing that cannot be
// written is told on standard error, with status 1.
#![tactic(auto)]

mod read;
mod text;

use crate::text::Text;
use arrayvec::ArrayString;
use std::fmt::Write;
use std::io;
use std::process::ExitCode;

// Prints the listing of a sheet.
fn print(rt: &impl Print, sheet: &[u8]) -> io::Result<()> {
    let mut text = Text::new();
    text::listing(sheet, &mut text);
    rt.write_all(text.as_str().as_bytes())
}

// Tells on standard error where reading or writing failed, and why: the system's words, without its number for them.
fn tell(rt: &impl Eprint, place: &str, error: io::Error) -> io::Result<()> {
    let mut said = ArrayString::<256>::new();
    write!(said, "{error}")?;
    match said.as_str().split_once(" (os error ") {
        Some((words, _)) => eprintln!(rt; "listing: {place}: {words}"),
        None => eprintln!(rt; "listing: {place}: {said}"),
    }
}

fn fail(rt: &impl Eprint, place: &str, error: io::Error) -> ExitCode {
    let _ = tell(rt, place, error);
    ExitCode::FAILURE
}

fn main(rt: HostRuntime) -> ExitCode {
    // one byte more than 577 records, so that a longer input is refused and not cut
    let mut sheet = [0u8; 18465];
    match read::fill(&mut rt.stdin(), &mut sheet) {
        Ok(n) => match print(&rt, &sheet[..n]) {
            Ok(()) => ExitCode::SUCCESS,
            Err(e) => fail(&rt, "standard output", e),
        },
        Err(e) => fail(&rt, "standard input", e),
    }
}
