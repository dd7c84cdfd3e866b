//! The program `view`: a command over the current folder, standard input and standard output.
#![tactic(auto)]

ghost use Rattle.std.specs.Prelude.{◌≡◌, None, length, map, string_bytes, IfOk, IfSome};
ghost use Rattle.std.specs.List.{All};
ghost use Rattle.program_status.specs.Sets.{IsOneOf};
ghost use Rattle.commands.specs.Commands.{asked, promised, serve as serving, HasNumbers};
ghost use Rattle.serve_command.specs.Serving.{AllTell, serve_ends};
ghost use Rattle.shared_commands.specs.Desks.{IsFree};
ghost use Rattle.shared_commands.specs.Shared.{batch_asked_for, shared_ends};
ghost use Rattle.view.specs.Program.{program_ends};

use batch_run::Desk;
use commands::{Asked, WordFault, plain, words_of};
use program_status::{Ending, Status, words_behind_name};
use scene_ports::{FileSource, Folder, ReadInlet, WriteOutlet};
use serve_command::serve;
use shared_commands::shared;
use std::alloc::AllocError;
use std::net::{Net, TcpListener, TcpStream};
use std::process::ExitCode;
use std::sync::Wait;
use std::thread::Threads;
use std::{env, io};
use viewer_session::{ViewerPass, Walked};

fn main(rt: HostRuntime) -> ExitCode {
    let status = match words_behind_name(rt.alloc(), env::args(&rt)) {
        Ok(words) => run(&rt, &rt, &words).unwrap_or(Status::Memory),
        Err(status) => status,
    };
    let ending = Ending::new(status);
    if let Some(line) = ending.line {
        // There is nobody left to tell where standard error fails.
        let _ = eprintln!(rt; "{line}");
    }
    ending.code
}

// Runs the words over the current folder: a batch by as many workers as they ask for, a serving by as many viewers, and
// any other command by itself.
fn run<T: Threads + Wait + Sync + Net<Stream = TcpStream, Listener = TcpListener>>(
    threads: &T,
    rt: &HostRuntime,
    words: &[String],
) -> Result<Status, AllocError>
    ensures { IfOk result (IsOneOf (program_ends (asked (map string_bytes words.now)))) }
{
    match words_of(rt.alloc(), words) {
        Ok(Asked::Batch { workers, .. }) => run_shared(threads, rt, words, workers),
        Ok(
            Asked::Serve {
                port,
                viewers,
                frames,
            },
        ) => run_served(threads, rt, port, viewers, frames),
        Ok(
            Asked::Tiles { .. }
            | Asked::Check
            | Asked::Make { .. }
            | Asked::Survey { .. }
            | Asked::Replay { .. },
        ) => run_plain(rt, words),
        Err(WordFault::Usage) => Ok(Status::Usage),
        Err(WordFault::Memory) => Err(AllocError),
    }
}

// Runs the words of a command that one worker carries out.
fn run_plain(rt: &HostRuntime, words: &[String]) -> Result<Status, AllocError>
    ensures { IfOk result (IsOneOf (promised (asked (map string_bytes words.now))).ends) }
{
    let alloc = rt.alloc();
    let mut files = Folder::here(alloc, rt.clone()?);
    let mut keep = Folder::here(alloc, rt.clone()?);
    let mut input = ReadInlet::new(rt.reader());
    let mut out = WriteOutlet::new(io::writer(rt));
    Ok(plain(alloc, words, &mut files, &mut keep, &mut input, &mut out))
}

// Runs the words of a command that so many workers carry out.
fn run_shared<T: Threads + Wait + Sync>(
    threads: &T,
    rt: &HostRuntime,
    words: &[String],
    workers: u32,
) -> Result<Status, AllocError>
    requires { IfSome (batch_asked_for (asked (map string_bytes words.now))) (λ wish. workers ≡ wish.workers) }
    ensures { IfOk result (IsOneOf (shared_ends (batch_asked_for (asked (map string_bytes words.now))))) }
{
    let mut desks = desks_for(rt, workers)?;
    let mut input = ReadInlet::new(rt.reader());
    let mut out = WriteOutlet::new(io::writer(rt));
    Ok(shared(
        threads,
        rt.alloc(),
        words,
        desks.as_mut_slice(),
        &mut input,
        &mut out,
    ))
}

// The desks of so many workers, each with the current folder for its source.
fn desks_for(
    rt: &HostRuntime,
    workers: u32,
) -> Result<Vec<Desk<Folder<HostRuntime>, ViewerPass, Walked>>, AllocError>
    ensures count { IfOk result (λ desks. length desks.items ≡ workers) }
    ensures free { IfOk result (λ desks. All (IsFree ⟦<Folder<HostRuntime> as FileSource>⟧.told None) desks.items) }
{
    let alloc = rt.alloc();
    let mut desks = Vec::new(alloc);
    for _ in 0..workers {
        desks.push(Desk::new(alloc, Folder::here(alloc, rt.clone()?)))?;
    }
    Ok(desks)
}

// Serves the current folder on a port, by so many viewers and frames.
fn run_served<T: Threads + Wait + Sync + Net<Stream = TcpStream, Listener = TcpListener>>(
    threads: &T,
    rt: &HostRuntime,
    port: u32,
    viewers: u32,
    frames: u32,
) -> Result<Status, AllocError>
    requires { HasNumbers (serving port viewers frames) }
    ensures { IfOk result (IsOneOf serve_ends) }
{
    let alloc = rt.alloc();
    let mut files = Folder::here(alloc, rt.clone()?);
    let sources = sources_for(rt, viewers)?;
    Ok(serve(
        threads,
        alloc,
        &mut files,
        sources,
        port as u16,
        frames as usize,
    ))
}

// The current folder, as the source of each of so many viewers.
fn sources_for(rt: &HostRuntime, viewers: u32) -> Result<Vec<Folder<HostRuntime>>, AllocError>
    ensures count { IfOk result (λ sources. length sources.items ≡ viewers) }
    ensures told { IfOk result (λ sources. AllTell ⟦<Folder<HostRuntime> as FileSource>⟧.told None sources.items) }
{
    let alloc = rt.alloc();
    let mut sources = Vec::new(alloc);
    for _ in 0..viewers {
        sources.push(Folder::here(alloc, rt.clone()?))?;
    }
    Ok(sources)
}
