//! The calls of a counted reader or writer, each of which makes one call of its device.
ghost use Rattle.std.specs.Prelude.{◌≡◌, ◌+◌, ◌^◌, ◌<◌, ◌↔◌, length, IfOk, OnOk, OnErr};
ghost use Rattle.std.specs.Io.{ReadsAtMost, WritesAtMost};
ghost use Rattle.std.specs.Io.KnownBytes.{Keeps, ReadConsumes, WriteAppends};
ghost use Rattle.mp_cli.specs.Counted.{device_of, calls_of, failures_of, moving_calls_of, bytes_of, IsFlushed};
ghost use Rattle.mp_cli.specs.Private.Counts.{CountsBytes, CountsFailure};

use super::Counted;
use std::io;
use std::io::{Read, Write};

impl<T> Counted<T> {
    // The last call gave or took this many bytes.
    fn count_moved(&mut self, count: usize)
        requires some { 0 < count }
        requires calls_fit { moving_calls_of self.old < calls_of self.old }
        requires bytes_fit { bytes_of self.old + count < 2 ^ 64 }
        ensures device { device_of self.new ≡ device_of self.old }
        ensures calls { calls_of self.new ≡ calls_of self.old }
        ensures failures { failures_of self.new ≡ failures_of self.old }
        ensures moving { moving_calls_of self.new ≡ moving_calls_of self.old + 1 }
        ensures bytes { bytes_of self.new ≡ bytes_of self.old + count }
        ensures flushed { IsFlushed self.new ↔ IsFlushed self.old }
    {
        self.moving_calls += 1;
        self.bytes += count as u64;
    }
}

impl<T: Read> Counted<T> {
    /// One read of the device.
    pub(crate) fn read(&mut self, piece: &mut [u8]) -> io::Result<usize>
        requires calls_fit { calls_of self.old + 1 < 2 ^ 64 }
        requires bytes_fit { bytes_of self.old + length piece.old < 2 ^ 64 }
        ensures bound { ReadsAtMost result piece.new }
        ensures consumed { ReadConsumes (T.remaining (device_of self.old))
            (T.remaining (device_of self.new)) result piece.new }
        ensures given { IfOk result (CountsBytes self.old self.new) }
        ensures failed { OnErr result (CountsFailure self.old self.new) }
        ensures unflushed { IsFlushed self.new → ⊥ }
    {
        self.calls += 1;
        self.flushed = false;
        let outcome = self.device.read(piece);
        match &outcome {
            Err(_) => self.failures += 1,
            Ok(0) => (),
            Ok(given) => self.count_moved(*given),
        }
        outcome
    }
}

impl<T: Write> Counted<T> {
    /// One write of the device. If it takes none of at least one byte, it failed.
    pub(crate) fn write(&mut self, text: &[u8]) -> io::Result<usize>
        requires calls_fit { calls_of self.old + 1 < 2 ^ 64 }
        requires bytes_fit { bytes_of self.old + length text.now < 2 ^ 64 }
        requires some { 0 < length text.now }
        ensures bound { WritesAtMost result text.now }
        ensures appended { WriteAppends (T.contents (device_of self.old))
            (T.contents (device_of self.new)) result text.now }
        ensures taken { IfOk result (λ count. 0 < count → CountsBytes self.old self.new count) }
        ensures stalled { IfOk result (λ count. count ≡ 0 → CountsFailure self.old self.new) }
        ensures failed { OnErr result (CountsFailure self.old self.new) }
        ensures unflushed { IsFlushed self.new → ⊥ }
    {
        self.calls += 1;
        self.flushed = false;
        let outcome = self.device.write(text);
        match &outcome {
            Err(_) | Ok(0) => self.failures += 1,
            Ok(taken) => self.count_moved(*taken),
        }
        outcome
    }

    /// One flush of the device.
    pub(crate) fn flush(&mut self) -> io::Result<()>
        requires { calls_of self.old + 1 < 2 ^ 64 }
        ensures kept { Keeps (T.contents (device_of self.old)) (T.contents (device_of self.new)) }
        ensures done { OnOk result (CountsBytes self.old self.new 0) }
        ensures flushed { OnOk result (IsFlushed self.new) }
        ensures failed { OnErr result (CountsFailure self.old self.new) }
        ensures unflushed { OnErr result (IsFlushed self.new → ⊥) }
    {
        self.calls += 1;
        let outcome = self.device.flush();
        self.flushed = outcome.is_ok();
        if outcome.is_err() {
            self.failures += 1;
        }
        outcome
    }
}
