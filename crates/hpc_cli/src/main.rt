//! The program `hpc`: it hands its words, the current folder's files and its streams to the top call.
//!
//! It promises the exit status for what the top call answers. What it prints and stores is what the top call's contract
//! says, as far as folders and streams do what they say. The key that it hands over with them changes no answer. Below
//! lie `hpc_top`, `command_line`, `prof_devices` and `hash_key`.
#![tactic(auto)]

ghost use Rattle.std.specs.Prelude.{◌≡◌, ◌≤◌, IfOk, length};
ghost use Rattle.std.specs.Process.{exit_status};
ghost use Rattle.hpc_cli.specs.Exit.{exit_number};

use hash_key::HashKey;
use hpc_top::{Status, hpc_main, out_of_memory};
use prof_bytes::{Memory, Text};
use prof_devices::{ErrSink, FolderShelf, OpenGate, OutSink, SystemErr, SystemFolder, SystemOut};
use std::env::FillError;
use std::process::ExitCode;
use std::random::RandomSource;
use std::rt::{Env, Files};
use std::thread::Threads;

/// The most bytes that Linux takes as one word of a command.
const MOST_BYTES: usize = 131_072;

/// The bytes into which a word is read first: more than most words have.
const USUAL_BYTES: usize = 4_096;

/// Reads a word of the command into these bytes, of which there are more where it has more than most words; how many
/// it has.
fn read_word<R: Env>(
    rt: &R,
    number: usize,
    word: &mut Vec<u8>,
) -> Result<Result<usize, FillError>, Memory>
    ensures { IfOk result (λ read. IfOk read (λ count. count ≤ length word.new.items)) }
{
    match rt.arg(number, word.as_mut_slice()) {
        Err(FillError::TooLong) => {}
        read => return Ok(read),
    }
    // room: `MOST_BYTES`, the most bytes of one word
    word.resize(MOST_BYTES, 0u8)?;
    Ok(rt.arg(number, word.as_mut_slice()))
}

/// The words after the program's name, byte for byte: a file's name need not be text. Where one is longer than a
/// word of a command can be there are none, which is an invalid command line.
fn words_of<R: Env + AllocGlobal>(rt: &R) -> Result<Vec<Text>, Memory> {
    let mut word = Vec::new(rt.alloc());
    // room: `USUAL_BYTES`, those of most words
    word.resize(USUAL_BYTES, 0u8)?;
    let mut words = Vec::new(rt.alloc());
    for number in 1..usize::MAX {
        match read_word(rt, number, &mut word)? {
            Ok(count) => words.push(Text::of(rt.alloc(), &word[..count])?)?,
            Err(FillError::NotPresent) => break,
            Err(FillError::TooLong) => return Ok(Vec::new(rt.alloc())),
        }
    }
    Ok(words)
}

fn run<R: Threads + Sync + AllocGlobal + Files + Print + Eprint + Env + RandomSource>(
    rt: &R,
) -> Status {
    let mut err = ErrSink::of(SystemErr::of(rt));
    let words = match words_of(rt) {
        Ok(words) => words,
        Err(memory) => return out_of_memory(memory, &mut err),
    };
    let mut shelf = FolderShelf::of(rt.alloc(), SystemFolder::of(rt));
    let mut out = OutSink::of(SystemOut::of(rt));
    hpc_main(
        rt,
        HashKey::random(rt),
        words.as_slice(),
        &mut shelf,
        &mut out,
        &mut err,
        &OpenGate,
    )
}

/// The exit status for what the top call answers.
fn exit_code(status: Status) -> ExitCode
    ensures { exit_status result ≡ exit_number status }
{
    ExitCode::from(match status {
        Status::Done => 0,
        Status::Usage => 2,
        Status::Input(_) => 3,
        Status::Device(_) => 4,
        Status::Memory(_) => 5,
    })
}

fn main(rt: HostRuntime) -> ExitCode {
    exit_code(run(&rt))
}
