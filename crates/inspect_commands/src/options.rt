//! The program's command line.

use clap::{Arg, ArgAction, ArgMatches, Command, Error, value_parser};
use std::alloc::Global;

/// What is printed of an archive.
#[derive(Clone, Copy)]
pub enum Shown {
    /// The value as an indented tree.
    Tree,
    /// The value as JSON.
    Json,
    /// What lies where.
    Map,
    /// Numbers and sizes.
    Summary,
}

/// What to do.
#[derive(Clone, Copy)]
pub struct Options<'a> {
    /// The schema, or the name of its file behind an `@`.
    pub schema: &'a str,
    /// The name of the archive's file; `-` for standard input.
    pub file: &'a str,
    /// Whether the file is hexadecimal text.
    pub hex: bool,
    /// What is printed.
    pub shown: Shown,
    /// How deep the tree goes.
    pub depth: usize,
    /// How many elements of each list are printed.
    pub elements: usize,
}

const ABOUT: &str = "Shows what is in an archive, and where it is broken.

SCHEMA is written as Rust writes types, the root last:
  struct Point { x: i32, y: i32 }  enum Event { Quit, Key(char), Move(Point) }  Vec<Event>
or it is in a file: @types.txt. The status is 0 for an archive of these types, 1 for other bytes,
and 2 if something can't be read.";

// An argument that is on or off.
fn flag<'a>(alloc: Global, name: &'a str, help: &'a str) -> Arg<'a> {
    Arg::new(alloc, name)
        .long(name)
        .action(ArgAction::SetTrue)
        .help(help)
}

// A number.
fn number<'a>(alloc: Global, name: &'a str, help: &'a str, default: &'a str) -> Arg<'a> {
    Arg::new(alloc, name)
        .long(name)
        .value_name("N")
        .value_parser(value_parser!(usize))
        .default_value(default)
        .help(help)
}

/// The command line.
pub fn command<'a>(alloc: Global) -> Result<Command<'a>, Error> {
    let schema = Arg::new(alloc, "SCHEMA")
        .required(true)
        .help("The types, or @ and the name of a file that has them");
    let file = Arg::new(alloc, "FILE")
        .required(true)
        .help("The archive's file, or - for standard input");
    let json = flag(alloc, "json", "Print the value as JSON").conflicts_with("map")?;
    let map = flag(alloc, "map", "Print what lies where").conflicts_with("summary")?;
    let summary = flag(alloc, "summary", "Print numbers and sizes").conflicts_with("json")?;
    Ok(
        Command::new(alloc, "inspect")
            .about(ABOUT)
            .arg(schema)?
            .arg(file)?
            .arg(flag(alloc, "hex", "Read the file as hexadecimal text"))?
            .arg(json)?
            .arg(map)?
            .arg(summary)?
            .arg(number(alloc, "depth", "Print N levels of the tree", "100"))?
            .arg(number(alloc, "elements", "Print N elements of each list", "100"))?,
    )
}

// What is to be printed.
fn asked_for(matches: &ArgMatches<'_>) -> Shown {
    if matches.get_flag("json") {
        Shown::Json
    } else if matches.get_flag("map") {
        Shown::Map
    } else if matches.get_flag("summary") {
        Shown::Summary
    } else {
        Shown::Tree
    }
}

/// The options that the matches of the command line give.
pub fn options_of<'a>(matches: &ArgMatches<'a>) -> Options<'a> {
    Options {
        schema: matches.get_str("SCHEMA").unwrap_or(""),
        file: matches.get_str("FILE").unwrap_or(""),
        hex: matches.get_flag("hex"),
        shown: asked_for(matches),
        depth: matches.get_one::<usize>("depth").unwrap_or(100),
        elements: matches.get_one::<usize>("elements").unwrap_or(100),
    }
}
