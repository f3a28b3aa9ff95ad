//! A sink that compares what it takes with a file.

ghost use Rattle.std.specs.Prelude.{◌≡◌, ◌+◌, ◌-◌, ◌^◌, ◌<◌, ◌≤◌, ◌∷◌, [], min, is_some, cond};
ghost use Rattle.std.specs.Prelude.{false, true, None, Some, length, take, IfOk, IfErr, IfSome};
ghost use Rattle.std.specs.Prelude.{OnOk, OnErr};
ghost use Rattle.std.specs.Io.{WritesAtMost};
ghost use Rattle.std.specs.Io.KnownBytes.{Consumes, WriteAppends};
ghost use Rattle.vcd_core.specs.Devices.{FailureMatches};
ghost use Rattle.vcd_devices.specs.Compared as spec;

use crate::verify_fault::VerifyFault;
use std::snapshot::Snapshot;
use vcd_core::{DeviceFault, Sink, Source};

/// How many bytes are compared at once.
const CHUNK: usize = 65_536;

/// A sink that keeps nothing, and takes only the bytes that its source gives: at any other byte it
/// fails.
#[derive(Drop)]
pub struct Compared<S> {
    source: S,
    // the source before its first byte, and before the last write; read by contracts alone
    start: Snapshot<S>,
    last: Snapshot<S>,
    // how many bytes it took, as far as a `u64` counts them
    same: u64,
    fault: Option<VerifyFault>,
    // read by contracts alone
    is_flushed: bool,
}

impl<S: Source> Compared<S> {
    /// A sink that has taken nothing.
    pub fn new(source: S) -> Compared<S>
        ensures shown { ⟦<Compared<S> as Sink>⟧.taken result
            ≡ spec.shown (S.coming source) (S.coming source) }
        ensures not_failed { ⟦<Compared<S> as Sink>⟧.has_failed result ≡ false }
        ensures counted { result.same ≡ 0 }
    {
        let start = Snapshot::of(&source);
        let last = Snapshot::of(&source);
        Compared {
            source,
            start,
            last,
            same: 0,
            fault: None,
            is_flushed: false,
        }
    }

    /// Why it has failed, if it has.
    pub fn fault(&self) -> Option<VerifyFault>
        ensures fault { result ≡ self.now.fault }
        ensures failed { is_some result ≡ ⟦<Compared<S> as Sink>⟧.has_failed self.now }
    {
        self.fault
    }

    /// Refuses a file that goes on after what the sink took.
    pub fn refuse_rest(&mut self) -> Result<(), VerifyFault>
        requires { ⟦<Compared<S> as Sink>⟧.has_failed self.old ≡ false }
        ensures whole { OnOk result (spec.ShowsWhole (⟦<Compared<S> as Sink>⟧.taken self.old)) }
        ensures fault { IfErr result (spec.IsRest self.old.same (S.coming self.old.source)
            (S.coming self.new.source) (S.has_failed self.new.source)) }
    {
        match self.source.read(&mut [0]) {
            Ok(0) => Ok(()),
            Ok(_) => Err(VerifyFault::GoesOn { same: self.same }),
            Err(_) => Err(VerifyFault::NotRead),
        }
    }
}

impl<S: Source> Sink for Compared<S> {
    ghost taken = { λ sink. spec.shown (S.coming sink.start.value)
        (cond (is_some sink.fault) (S.coming sink.last.value) (S.coming sink.source)) };

    ghost has_failed = { λ sink. is_some sink.fault };

    ghost is_flushed = { λ sink. sink.is_flushed };

    fn write(&mut self, bytes: &[u8]) -> Result<usize, DeviceFault>
        ensures count { WritesAtMost result bytes.now }
        ensures some { 0 < length bytes.now → IfOk result (λ count. 0 < count) }
        ensures bytes { WriteAppends (⟦<Compared<S> as Sink>⟧.taken self.old)
            (⟦<Compared<S> as Sink>⟧.taken self.new) result bytes.now }
        ensures unflushed { IfOk result (λ count. 0 < count → self.new.is_flushed ≡ false) }
        ensures fault { FailureMatches (is_some self.old.fault) (is_some self.new.fault) result }
        ensures same { IfOk result (λ count. Consumes (S.coming self.old.source)
            (S.coming self.new.source) (take count bytes.now)) }
        ensures counted { IfOk result (λ count.
            self.new.same ≡ min (self.old.same + count) (2 ^ 64 - 1)) }
        ensures other { OnErr result (self.old.fault ≡ None → IfSome self.new.fault
            (spec.IsOther self.old.same bytes.now (S.coming self.old.source)
            (S.coming self.new.source) (S.has_failed self.new.source))) }
    {
        if self.fault.is_some() {
            return Err(DeviceFault);
        }
        self.is_flushed = false;
        self.last = Snapshot::of(&self.source);
        match take_same(&mut self.source, bytes, self.same) {
            Ok(count) => {
                self.same = self.same.saturating_add(count as u64);
                Ok(count)
            }
            Err(fault) => {
                self.fault = Some(fault);
                Err(DeviceFault)
            }
        }
    }

    fn flush(&mut self) -> Result<(), DeviceFault> {
        if self.fault.is_some() {
            return Err(DeviceFault);
        }
        self.is_flushed = true;
        Ok(())
    }

    fn failed(&self) -> bool {
        self.fault.is_some()
    }
}

/// Takes the next bytes of a source, after so many that were the same, if they are the first of
/// these.
fn take_same<S: Source>(source: &mut S, bytes: &[u8], same: u64) -> Result<usize, VerifyFault>
    ensures same { IfOk result (λ count.
        Consumes (S.coming source.old) (S.coming source.new) (take count bytes.now)) }
    ensures count { IfOk result (λ count. count ≤ length bytes.now) }
    ensures some { 0 < length bytes.now → IfOk result (λ count. 0 < count) }
    ensures other { IfErr result (spec.IsOther same bytes.now (S.coming source.old)
        (S.coming source.new) (S.has_failed source.new)) }
{
    let mut buffer = [0; CHUNK];
    let most = bytes.len().min(CHUNK);
    let Ok(count) = source.read(&mut buffer[..most]) else {
        return Err(VerifyFault::NotRead);
    };
    if count == 0 && !bytes.is_empty() {
        return Err(VerifyFault::EndsEarly { same });
    }
    compare_found(bytes, &buffer[..count], same)
}

/// Counts the bytes that were found, after so many that were the same, if they are the first of
/// these.
fn compare_found(bytes: &[u8], found: &[u8], same: u64) -> Result<usize, VerifyFault>
    ensures same { IfOk result (λ count. take count bytes.now ≡ found.now) }
    ensures count { IfOk result (λ count. count ≡ length found.now) }
    ensures other { IfErr result (spec.IsOtherByte same bytes.now found.now) }
{
    let alike = same_len(bytes, found);
    if alike < found.len() {
        return Err(VerifyFault::Differs {
            same: same.saturating_add(alike as u64),
        });
    }
    Ok(found.len())
}

/// With how many bytes both begin.
fn same_len(bytes: &[u8], found: &[u8]) -> usize
    ensures { result ≡ spec.same_len bytes.now found.now }
{
    for (i, byte) in bytes.iter().enumerate() {
        if found.get(i) != Some(byte) {
            return i;
        }
    }
    bytes.len()
}
