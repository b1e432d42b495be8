//! What a program reads and writes, and how it ends.
ghost use Rattle.std.specs.Prelude.{◌≡◌, IfErr, OnOk, OnErr};

use crate::refusal::Refusal;
use std::fs;
use std::io::Write;
use std::process::ExitCode;

pub fn read_file(rt: &HostRuntime, name: String) -> Result<Vec<u8>, Refusal> {
    fs::read(rt, name.as_str()).map_err(|_| Refusal::Unreadable(name))
}

pub fn write_output(rt: &HostRuntime, bytes: &[u8]) -> Result<(), Refusal>
    ensures { IfErr result (λ refusal. refusal ≡ Refusal.Unwritable) }
{
    rt.stdout()
        .write_all(bytes)
        .map_err(|_| Refusal::Unwritable)
}

// The exit code of a program's outcome; where that is a refusal, it is printed first.
pub fn exit_code(rt: &HostRuntime, program: &str, outcome: Result<(), Refusal>) -> ExitCode
    ensures ok { OnOk outcome (result ≡ ExitCode.SUCCESS) }
    ensures err { OnErr outcome (result ≡ ExitCode.FAILURE) }
{
    match outcome {
        Ok(()) => ExitCode::SUCCESS,
        Err(refusal) => {
            let _ = eprintln!(rt; "{program}: {refusal}");
            ExitCode::FAILURE
        }
    }
}
