//! The program `scenario`: reads scenarios from the files that its arguments name, or from standard input, and plays each.
#![tactic(auto)]

use anyhow::ensure;
use notices::{BUFFER, Notices};
use player::{build_pile, carry_out};
use script::{Script, read_script};
use std::io::Read;
use std::{env, fs, io};

// Plays one scenario from a new start, one answer a line; false if its text cannot be read.
// A bool, since false goes on to the next file and an error ends the program.
fn play(rt: &HostRuntime, name: &str, text: &[u8]) -> io::Result<bool> {
    let heap = rt.alloc();
    let Script { devices, lines } = match read_script(heap, text) {
        Ok(script) => script,
        Err(fault) => {
            eprintln!(rt; "{name}:{fault}")?;
            return Ok(false);
        }
    };
    let pile = build_pile(heap, devices)?;
    let mut buffer = vec![in heap; 0u8; BUFFER]?;
    let mut notices = match Notices::new(buffer.as_mut_slice()) {
        Ok(notices) => notices,
        Err(refusal) => {
            eprintln!(rt; "{name}: {refusal}")?;
            return Ok(false);
        }
    };
    for line in lines {
        let answer = carry_out(heap, &mut notices, &pile, line)?;
        println!(rt; "{answer}")?;
    }
    Ok(true)
}

// Plays standard input.
fn play_input(rt: &HostRuntime) -> io::Result<bool> {
    let mut text = Vec::new(rt.alloc());
    rt.stdin().read_to_end(&mut text)?;
    play(rt, "-", text.as_slice())
}

// Plays a file; false if it cannot be opened or read.
fn play_file(rt: &HostRuntime, path: &str) -> io::Result<bool> {
    match fs::read(rt, path) {
        Ok(text) => play(rt, path, text.as_slice()),
        Err(error) => {
            eprintln!(rt; "{path}: {error}")?;
            Ok(false)
        }
    }
}

fn main(rt: HostRuntime) -> anyhow::Result<()> {
    let mut paths = env::args(&rt)?.skip(1).peekable();
    let good = match paths.peek() {
        Some(_) => paths.try_fold(true, |good, path| {
            play_file(&rt, path.as_str()).map(|played| played && good)
        })?,
        None => play_input(&rt)?,
    };
    ensure!(good, "a scenario could not be read");
    Ok(())
}
