//! An IP host on a stream of packets: it reads packets as a pcap stream and writes its own as another. The time is
//! that of the records, so it needs neither a clock nor a device, and a recorded session can be replayed.
//!
//! `live_host ADDRESS [SEED [RULES [SOCKETS [BUFFER]]]]`: its IPv4 address, what its initial sequence numbers are made
//! of, the rules of its TCP sockets, how many of them it has, and how large their buffers are.
#![tactic(auto)]

mod clock;
mod fault;
mod host;
mod http;
mod outbox;
mod page;
mod pattern;
mod request;
mod run;
mod service;
mod slot;

use crate::fault::Fault;
use crate::host::Counts;
use crate::run::{LARGE_BUFFER, LEAST_BUFFER, MOST_SOCKETS, Setup, run};
use smoltcp_socket::tcp::{CongestionControl, Rules};
use smoltcp_socket::wire::Ipv4Address;
use std::io::BufReader;
use std::process::ExitCode;
use std::{env, io};

// What `--help` prints.
const HELP: &str = "\
usage: live_host ADDRESS [SEED [RULES [SOCKETS [BUFFER]]]]

Is a host of this IPv4 address, as 10.9.0.2, and of the IPv6 address fd00::
that ends in it. Reads the packets that come to it as a pcap stream (raw IP)
on standard input, and writes its own as another on standard output.

SEED     the key of its initial sequence numbers, which nobody should know: 0 to
         2^64 - 1, 1 where it is left out
RULES    rfc, for peers that are not smoltcp and a wire that loses, cubic, the
         same with CUBIC for Reno, or smoltcp, which it is where it is left out
SOCKETS  how many TCP sockets it has: 4 to 10000, 32 where it is left out; each
         has two buffers of 64 KB, or of 8 KB where there are more than 512; by
         the RFCs' rules of 1 MB where there are at most 32, and a quarter of
         the sockets is kept for those who answer a SYN cookie
BUFFER   the size of each of these buffers in bytes: 512 to 1048576
";

fn main(rt: HostRuntime) -> ExitCode {
    match start(&rt) {
        Ok(()) => ExitCode::SUCCESS,
        Err(fault) => {
            let status = fault.status();
            let _ = rt.eprintln(fault);
            ExitCode::from(status)
        }
    }
}

// What the arguments ask for.
enum Task {
    Help,
    Run(Setup),
}

fn start(rt: &HostRuntime) -> Result<(), Fault> {
    match task_of(rt)? {
        Task::Help => match rt.print(HELP) {
            Ok(()) => Ok(()),
            Err(_) => Err(Fault::Write),
        },
        Task::Run(setup) => {
            let counts = serve(rt, setup)?;
            report(rt, counts);
            Ok(())
        }
    }
}

// Runs the host over standard input and output.
fn serve(rt: &HostRuntime, setup: Setup) -> Result<Counts, Fault> {
    let Ok(mut reader) = BufReader::new(rt.alloc(), rt.reader()) else {
        return Err(Fault::Memory);
    };
    run(rt.alloc(), setup, &mut reader, &mut io::writer(rt))
}

fn task_of(rt: &HostRuntime) -> Result<Task, Fault> {
    let Ok(mut args) = env::args(rt) else {
        return Err(Fault::Memory);
    };
    let _program = args.next();
    let (addr, seed) = (args.next(), args.next());
    let (rules, sockets, buffer) = (args.next(), args.next(), args.next());
    if args.next().is_some() {
        return Err(Fault::Usage);
    }
    if is_help(&addr) && seed.is_none() {
        return Ok(Task::Help);
    }
    let Some(addr) = addr else {
        return Err(Fault::Usage);
    };
    Ok(Task::Run(setup(addr.as_str(), seed, rules, sockets, buffer)?))
}

fn is_help(word: &Option<String>) -> bool {
    match word {
        Some(word) => word.as_str() == "--help",
        None => false,
    }
}

fn setup(
    addr: &str,
    seed: Option<String>,
    rules: Option<String>,
    sockets: Option<String>,
    buffer: Option<String>,
) -> Result<Setup, Fault> {
    let seed = match seed {
        None => Some(1),
        Some(text) => text.as_str().parse::<u64>().ok(),
    };
    let rules = match rules {
        None => Some((Rules::Smoltcp, CongestionControl::Reno)),
        Some(word) => rules_of(word.as_str()),
    };
    let sockets = match sockets {
        None => Some(32),
        Some(text) => sockets_of(text.as_str()),
    };
    let buffer = buffer_of(buffer)?;
    match (address(addr), seed, rules, sockets) {
        (Some(addr), Some(seed), Some((rules, congestion)), Some(sockets)) => Ok(Setup {
            addr,
            seed,
            rules,
            congestion,
            sockets,
            buffer,
        }),
        _ => Err(Fault::Usage),
    }
}

// One for each service, and not too many for the memory.
fn sockets_of(text: &str) -> Option<usize> {
    let count = text.parse::<usize>().ok()?;
    if (4..=MOST_SOCKETS).contains(&count) {
        Some(count)
    } else {
        None
    }
}

// No size where none is asked for.
fn buffer_of(text: Option<String>) -> Result<Option<usize>, Fault> {
    let Some(text) = text else {
        return Ok(None);
    };
    match text.as_str().parse::<usize>() {
        Ok(size) if (LEAST_BUFFER..=LARGE_BUFFER).contains(&size) => Ok(Some(size)),
        _ => Err(Fault::Usage),
    }
}

// The rules, and the kind of congestion control.
fn rules_of(word: &str) -> Option<(Rules, CongestionControl)> {
    match word {
        "rfc" => Some((Rules::Rfc, CongestionControl::Reno)),
        "cubic" => Some((Rules::Rfc, CongestionControl::Cubic)),
        "smoltcp" => Some((Rules::Smoltcp, CongestionControl::Reno)),
        _ => None,
    }
}

// Four numbers of at most 255, with dots between them.
fn address(text: &str) -> Option<Ipv4Address> {
    let mut octets = [0u8; 4];
    let mut parts = text.split('.');
    for octet in octets.iter_mut() {
        *octet = parts.next()?.parse::<u8>().ok()?;
    }
    match parts.next() {
        None => Some(Ipv4Address(octets)),
        Some(_) => None,
    }
}

// What came of the packets, on standard error.
fn report(rt: &HostRuntime, counts: Counts) {
    let Counts {
        arrived,
        malformed,
        unwanted,
        refused,
    } = counts;
    let _ = rt.eprintln(format_args!(
        "{arrived} packets: {malformed} malformed, {unwanted} unwanted, {refused} for no socket"
    ));
}
