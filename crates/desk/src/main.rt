// The desk program: reads a policy file from standard input, starts with an empty journal, runs to the end and prints one line
// per query, or only the refusal. Where the input cannot be read, or the text cannot be written, it says so on standard error.
#![tactic(auto)]

ghost use Rattle.std.specs.Prelude.{◌≤◌, length};
ghost use Rattle.writing.specs.Placed.{Prints};
ghost use Rattle.settling.specs.Settled.{text_bytes};
ghost use Rattle.desk.specs.Desk.{desk_text};

use settling::{EVERY_RECORD, JOURNAL_BYTES, TEXT_BYTES};
use std::io;
use std::process::ExitCode;

// Runs a policy file from an empty journal to the end, puts what is to be printed into text, and returns its length.
fn answer(file: &[u8], text: &mut [u8]) -> usize
    requires { text_bytes ≤ length text.old }
    ensures { Prints (desk_text file.now) text.old result text.new }
{
    let mut journal = [0u8; JOURNAL_BYTES];
    let settled = settling::settle(file, &mut journal, 0, EVERY_RECORD, false, text);
    settled.length
}

// Says on standard error what failed, and why.
fn fails(rt: &impl Eprint, what: &str, why: io::Error) -> ExitCode {
    let _ = eprintln!(rt; "{what}: {why}");
    ExitCode::FAILURE
}

// One byte more than a policy file may have is read, so that a longer one is seen to be too long.
fn main(rt: HostRuntime) -> ExitCode {
    let mut file = [0u8; 32769];
    let n = match input::read_all(&mut rt.stdin(), &mut file) {
        Ok(n) => n,
        Err(why) => return fails(&rt, "standard input", why),
    };
    let mut text = [0u8; TEXT_BYTES];
    let length = answer(&file[..n], &mut text);
    match rt.write_all(&text[..length]) {
        Ok(()) => ExitCode::SUCCESS,
        Err(why) => fails(&rt, "standard output", why),
    }
}
