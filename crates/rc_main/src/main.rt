//! The program `ringcheck`: checks programs of liburing calls, and steps them through schedules.
#![tactic(auto)]

ghost use Rattle.std.specs.Prelude.{◌≡◌, ◌≤◌, IfOk, []};
ghost use Rattle.rc_command.specs.Commands.{RunsWords, kept_back, put_out};

use rc_command::command::{Written, command_over};
use rc_command::departures::logs::Logs;
use rc_command::fault::CommandFault;
use rc_command::files::{SystemTexts, Texts};
use rc_command::output::Output;
use rc_command::reasons::tell;
use rc_command::running::Host;
use rc_command::streams::{Buffered, Sink, WriteSink};
use rc_command::words::{WordsFault, given_words, read_words};
use std::io::{Read, Write};
use std::process::ExitCode;
use std::sync::Wait;
use std::thread::Threads;

/// Does what these words say, and answers the exit status.
fn status_of<
    'a,
    R: Threads + Wait + Sync,
    T: Texts + Logs,
    I: Read + Drop,
    O: Write + Drop,
    E: Sink,
>(
    host: &Host<'_, R>,
    texts: &T,
    words: &'a [&'a str],
    reader: I,
    output: &mut Written<O>,
    errors: &mut E,
) -> u8
    requires empty { kept_back output.old ≡ [] }
    requires writes { output.old.sink.failures ≡ 0 }
    requires told { (E.state errors.old).failures ≡ 0 }
    ensures answer { RunsWords (T.gives texts.now) (T.opens texts.now) (I.remaining reader) (put_out O.contents) output.old output.new (E.state errors.old) output.new.sink.writer.is_closed (E.state errors.new) result }
    ensures bound { result ≤ 3 }
{
    let asked = read_words(host.alloc, words);
    command_over(host, texts, asked, reader, output, errors)
}

/// Does what the command line says, with the threads of a handle, and answers the exit status.
fn run<R: Threads + Wait + Sync>(rt: &HostRuntime, handle: &R) -> Result<u8, WordsFault>
    ensures { IfOk result (λ status. status ≤ 3) }
{
    let alloc = rt.alloc();
    let words = given_words(rt)?;
    let mut list = Vec::new(alloc);
    for word in &words {
        list.push(word.as_str())?;
    }
    let host = Host { rt: handle, alloc };
    let texts = SystemTexts { files: rt };
    let mut output = Buffered::new(alloc, WriteSink::new(Output::new(rt.stdout())))?;
    let mut errors = WriteSink::new(rt.stderr());
    Ok(status_of(&host, &texts, &list, rt.stdin(), &mut output, &mut errors))
}

fn main(rt: HostRuntime) -> ExitCode {
    match run(&rt, &rt) {
        Ok(status) => ExitCode::from(status),
        Err(fault) => {
            let fault = CommandFault::Words(fault);
            let mut errors = WriteSink::new(rt.stderr());
            ExitCode::from(tell(rt.alloc(), &fault, &mut errors))
        }
    }
}
