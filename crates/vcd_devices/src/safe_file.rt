//! The output of a run as a sink, which tells why it fails.

ghost use Rattle.std.specs.Prelude.{◌≡◌, false, true, IfOk, IfErr};
ghost use Rattle.vcd_devices.specs.OutputFaults.{fault_of};
ghost use Rattle.vcd_replace.specs.Errors.{IsEarlyError, IsLateError};
ghost use Rattle.vcd_replace.specs.declared.replace_error.ReplaceError.{ReplaceError as Error};

use crate::reasons::{tell_folder, tell_reason};
use std::fs::File;
use std::io::ErrorKind;
use std::rt::{Files, Runtime};
use vcd_core::{DeviceFault, Sink, ToWrite};
use vcd_replace::{InPlace, Inputs, OutputFile, ReplaceError};

/// Why the file of an output can't be written.
#[derive(Clone, Copy)]
pub enum OutputFault {
    /// There is a file, and it may not be written.
    Protected,
    /// It is an input of the run, which would be lost.
    IsInput,
    /// Another run writes this file.
    InUse,
    /// The capture was changed before the output was put in its place.
    CaptureChanged,
    /// It can't be created or written, or put in its place.
    Failed,
    /// Memory ran out.
    NoMemory,
}

/// A sink to an [`OutputFile`].
///
/// It is proved that a file is put in its place only after a flush of all that it took.
#[derive(Drop)]
pub struct SafeFile<'a, R: Files> {
    rt: &'a R,
    path: &'a str,
    is_beside: bool,
    sink: ToWrite<OutputFile<'a, R>>,
}

impl<'a, R: Runtime<File = File> + AllocGlobal> SafeFile<'a, R> {
    /// Begins the output at a path. If the system has a reason why it can't be begun, it is told.
    pub fn begin(
        rt: &'a R,
        path: &'a str,
        inputs: Inputs<'a>,
    ) -> Result<SafeFile<'a, R>, OutputFault>
        ensures ready { IfOk result (λ file. ⟦<SafeFile<'a, R> as Sink>⟧.has_failed file ≡ false) }
        ensures fault { IfErr result (λ f. (e : Error) × IsEarlyError e × (f ≡ fault_of e)) }
    {
        match OutputFile::begin(rt, path, inputs) {
            Ok(file) => Ok(SafeFile {
                rt,
                path,
                is_beside: file.is_beside(),
                sink: ToWrite::new(file),
            }),
            Err(error) => Err(output_fault(rt, path, error)),
        }
    }

    /// The runtime that it was begun with.
    pub fn runtime(&self) -> &'a R {
        self.rt
    }

    /// Whether the file is beside its target, which is as it was until `commit`.
    pub fn is_beside(&self) -> bool {
        self.is_beside
    }

    /// Puts the file in the place of its target. If that fails, a target that it is beside is as it
    /// was.
    pub fn commit(self) -> Result<InPlace, OutputFault>
        requires { ⟦<SafeFile<'a, R> as Sink>⟧.is_flushed self ≡ true }
        ensures { IfErr result (λ f. (e : Error) × IsLateError self.entry.sink.writer.capture e
            × (f ≡ fault_of e)) }
    {
        let SafeFile { rt, path, sink, .. } = self;
        match sink.into_inner().put_in_place() {
            Ok(in_place) => Ok(in_place),
            Err(error) => Err(output_fault(rt, path, error)),
        }
    }
}

impl<'a, R: Files> Sink for SafeFile<'a, R> {
    ghost has_failed = { λ file. ⟦<ToWrite<OutputFile<'a, R>> as Sink>⟧.has_failed file.sink };

    ghost is_flushed = { λ file. ⟦<ToWrite<OutputFile<'a, R>> as Sink>⟧.is_flushed file.sink };

    fn write(&mut self, bytes: &[u8]) -> Result<usize, DeviceFault> {
        self.sink.write(bytes)
    }

    fn flush(&mut self) -> Result<(), DeviceFault> {
        self.sink.flush()
    }

    fn failed(&self) -> bool {
        self.sink.failed()
    }
}

/// What an error means for the output. What has no name of its own is told.
fn output_fault<R: Runtime + AllocGlobal>(rt: &R, path: &str, error: ReplaceError) -> OutputFault
    ensures { result ≡ fault_of error }
{
    match error {
        ReplaceError::Protected => OutputFault::Protected,
        ReplaceError::IsInput => OutputFault::IsInput,
        ReplaceError::CaptureChanged => OutputFault::CaptureChanged,
        ReplaceError::InUse { folder } => {
            tell_folder(rt, folder.as_str());
            OutputFault::InUse
        }
        ReplaceError::System(error) => match error.kind() {
            ErrorKind::OutOfMemory => OutputFault::NoMemory,
            _ => {
                tell_reason(rt, path, &error);
                OutputFault::Failed
            }
        },
    }
}
