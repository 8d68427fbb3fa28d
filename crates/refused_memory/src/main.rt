//! Whole calls while memory is refused. `refused_memory` carries out each call with ample memory. `refused_memory CALL REQUESTS` makes so many requests for
//! memory first, then carries out the call, and makes more requests behind it: so whoever has the one request with a certain number refused can say which
//! request of the call that is (`tools/refused-memory`), and the last requests tell whether it was the call's. Prints how each call ended.
#![tactic(auto)]

mod calls;

use calls::{CALLS, End, end_of, request};
use std::process::ExitCode;
use std::{env, io};

// How many requests are made behind a call.
const BEHIND: usize = 400;

// The words after the program's name.
fn arguments(rt: &HostRuntime) -> io::Result<Vec<String>> {
    let mut words = env::args(rt)?;
    let _ = words.next();
    Ok(words.collect(rt.alloc())?)
}

// Carries out each call with ample memory. Whether each ended as it should.
fn all(rt: &HostRuntime) -> io::Result<bool> {
    let mut are_right = true;
    for call in CALLS {
        let end = end_of(rt.alloc(), call, 0);
        are_right = are_right && end == End::Right;
        println!(rt; "{call}: {end}")?;
    }
    Ok(are_right)
}

// Carries out one call behind so many requests, and says whether a request behind it was refused.
fn one(rt: &HostRuntime, call: &str, requests: usize) -> io::Result<bool> {
    let end = end_of(rt.alloc(), call, requests);
    if request(rt.alloc(), BEHIND) {
        println!(rt; "{end}, and nothing was refused behind it")?;
    } else {
        println!(rt; "{end}, and a request was refused behind it")?;
    }
    Ok(true)
}

fn run(rt: &HostRuntime) -> io::Result<bool> {
    let words = arguments(rt)?;
    let [call, requests] = words.as_slice() else {
        return all(rt);
    };
    match requests.as_str().parse::<usize>() {
        Ok(requests) => one(rt, call.as_str(), requests),
        Err(_) => Ok(false),
    }
}

fn main(rt: HostRuntime) -> ExitCode {
    match run(&rt) {
        Ok(true) => ExitCode::from(0),
        _ => ExitCode::from(1),
    }
}
