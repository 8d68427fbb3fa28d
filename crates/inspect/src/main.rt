//! Shows what is in an archive, and where it is broken: `inspect 'Vec<u32>' numbers.bin`.
#![tactic(auto)]

use anyhow::{Context, Result, anyhow};
use archive_inspect::form::Form;
use archive_inspect::text::parse;
use inspect_commands::options::{Options, command, options_of};
use inspect_commands::report::report;
use std::io::{BufWriter, Read};
use std::process::ExitCode;
use std::{env, fs, io};

// The bytes of a file, or of standard input.
fn bytes_of(rt: &HostRuntime, file: &str) -> Result<Vec<u8>> {
    if file != "-" {
        return Ok(fs::read(rt, file).context(format_args!("reading {file}"))?);
    }
    let mut bytes = Vec::new(rt.alloc());
    rt.reader()
        .read_to_end(&mut bytes)
        .context("reading standard input")?;
    Ok(bytes)
}

// The bytes that a text writes in hexadecimal, whose white space doesn't count.
fn decoded(rt: &HostRuntime, text: &[u8]) -> Result<Vec<u8>> {
    let mut digits = Vec::new(rt.alloc());
    for byte in text {
        if !byte.is_ascii_whitespace() {
            digits.push(*byte)?;
        }
    }
    Ok(hex::decode(rt.alloc(), digits.as_slice()).context("reading hexadecimal text")?)
}

// The form of the schema, whose text lies in a file where its name stands behind an `@`.
fn form_of(rt: &HostRuntime, schema: &str) -> Result<Form> {
    match schema.strip_prefix('@') {
        None => Ok(parse(rt.alloc(), schema).context("SCHEMA")?),
        Some(file) => {
            let text = fs::read_to_string(rt, file).context(format_args!("reading {file}"))?;
            Ok(parse(rt.alloc(), text.as_str()).context(format_args!("{file}"))?)
        }
    }
}

// Prints what the options ask for. The status: 0 for an archive, 1 for bytes that are none.
fn inspect(rt: &HostRuntime, options: &Options<'_>) -> Result<u8> {
    let form = form_of(rt, options.schema)?;
    let mut bytes = bytes_of(rt, options.file)?;
    if options.hex {
        bytes = decoded(rt, &bytes)?;
    }
    let mut out = BufWriter::new(rt.alloc(), io::writer(rt))?;
    let status = report(rt.alloc(), &mut out, options, &form, &bytes)?;
    io::Write::flush(&mut out)?;
    Ok(status)
}

// The same for the words of the command line; `--help` is printed with the status 0.
fn run(rt: &HostRuntime) -> Result<u8> {
    let words: Vec<String> = env::args(rt)
        .context("reading the arguments")?
        .collect(rt.alloc())?;
    match command(rt.alloc())?.try_get_matches_from(words.as_slice()) {
        Ok(matches) => inspect(rt, &options_of(&matches)),
        Err(error) => {
            error.print(rt)?;
            if error.exit_code() == 0 { Ok(0) } else { Ok(2) }
        }
    }
}

fn main(rt: HostRuntime) -> ExitCode {
    match run(&rt) {
        Ok(status) => ExitCode::from(status),
        Err(error) => {
            let _ = eprintln!(rt; "inspect: {error:#}");
            ExitCode::from(2)
        }
    }
}
