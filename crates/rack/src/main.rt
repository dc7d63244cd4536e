//! Drives one end of a trunk from text lines, one call to a line of the input: what the end answers, or that the line is in error.
#![tactic(auto)]

use anyhow::bail;
use call::call_of;
use session::session::Session;
use show::Line;
use std::env;
use text::lines::answer_octets;

mod call;
mod show;

const HELP: &str =
    "rack                   answers each line of standard input by a line of standard output
rack --help            prints these lines
bin/rack --proved ..   proves the program first, and then does the same
The lines and their answers are explained in docs/rack.md.";

fn main(rt: HostRuntime) -> anyhow::Result<()> {
    let mut args = env::args(&rt)?;
    let _program = args.next();
    let first = args.next();
    let rest = args.next();
    match (first.as_ref().map(|word| word.as_str()), rest) {
        (None, _) => answer_lines(&rt),
        (Some("--help"), None) => Ok(println!(rt; "{HELP}")?),
        _ => bail!("wrong arguments; rack --help says which there are"),
    }
}

fn answer_lines(rt: &HostRuntime) -> anyhow::Result<()> {
    let session = Session::new(rt.alloc())?;
    answer_octets(rt, session, |alloc, session, line| {
        let Some(call) = call_of(alloc, line)? else {
            return Ok((Line::NoCall, session));
        };
        let (answer, session) = session.answer(alloc, call)?;
        Ok((Line::Answer(answer), session))
    })
}
