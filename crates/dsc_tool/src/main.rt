//! `dsc`: builds the dyld shared cache of dylibs. `run` does what the words ask for, over any store and
//! any streams; `main` gives it the real ones.
#![tactic(auto)]

ghost use Rattle.std.specs.Prelude.{◌≡◌, drop};
ghost use Rattle.std.specs.Process.{exit_status};
ghost use Rattle.dsc_tool.specs.Statuses.{code_of};

mod cache_text;
mod command;
mod extraction;
mod hex;
mod inputs;
mod number;
mod product;
mod run;
mod split;
mod status;
mod stop;
mod text;
mod trial;
mod verdict_text;

pub use command::{Command, WordsFault, read_words};
use dsc_base::{FileStore, OpenGate, WriterSink};
pub use run::run;
use run::tell;
pub use status::Status;
use std::alloc::Global;
use std::io::ErrorKind;
use std::process::ExitCode;
use std::{env, io};
use text::no_memory_text;

fn main(rt: HostRuntime) -> ExitCode {
    let alloc = rt.alloc();
    let mut store = FileStore::new(&rt);
    let mut out = WriterSink::new(rt.stdout());
    let mut err = WriterSink::new(rt.stderr());
    let status = match read_args(&rt, alloc) {
        Ok(words) => run(
            &rt,
            alloc,
            behind_name(&words),
            &mut store,
            &mut out,
            &mut err,
            &OpenGate,
        ),
        Err(error) if error.kind() == ErrorKind::OutOfMemory => {
            tell(no_memory_text(), Status::Memory, &mut err)
        }
        // A word that isn't text is in no command, and no words are none.
        Err(_) => run(&rt, alloc, &[], &mut store, &mut out, &mut err, &OpenGate),
    };
    exit_code(status)
}

/// All words of the process, from the program's name on.
fn read_args(rt: &HostRuntime, alloc: Global) -> io::Result<Vec<String>> {
    Ok(env::args(rt)?.collect(alloc)?)
}

/// The words behind the program's name.
fn behind_name(words: &[String]) -> &[String]
    ensures { result.now ≡ drop 1 words.now }
{
    match words {
        [_, rest @ ..] => rest,
        [] => words,
    }
}

/// The status as that of the process.
fn exit_code(status: Status) -> ExitCode
    ensures { exit_status result ≡ code_of status }
{
    ExitCode::from(status.code())
}

#[cfg(test)]
mod tests;
