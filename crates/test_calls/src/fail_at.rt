ghost use Rattle.std.specs.Prelude.{◌≡◌, ◌<◌, ◌-◌, ◌||◌, IfOk, false, is_err, length, nat_eq, true};
ghost use Rattle.std.specs.Io.{ReadsAtMost, WritesAtMost};
ghost use Rattle.std.specs.Io.KnownBytes.{ReadConsumes, WriteAppends};
ghost use Rattle.devices.specs.Device.{counted, reads_in};

use devices::{DeviceFailed, Sink, Source};

/// A device of which one call fails without reaching what is behind it. The others do.
#[derive(Debug, Drop)]
pub struct FailAt<D> {
    device: D,
    calls_before: u64,
    has_failed: bool,
}

impl<D> FailAt<D> {
    /// A device whose call with this number, counted from 0, fails.
    pub fn new(device: D, call: u64) -> FailAt<D>
        ensures device { result.device ≡ device }
        ensures call { result.calls_before ≡ call }
        ensures fresh { result.has_failed ≡ false }
    {
        FailAt {
            device,
            calls_before: call,
            has_failed: false,
        }
    }
}

impl<S: Source> Source for FailAt<S> {
    ghost remaining = { λ source. S.remaining source.device };

    ghost reads = { λ source. S.reads source.device };

    ghost failed = { λ source. source.has_failed || S.failed source.device };

    fn read(&mut self, buf: &mut [u8]) -> Result<usize, DeviceFailed>
        ensures bound { ReadsAtMost result buf.new }
        ensures bytes { ReadConsumes (S.remaining self.old.device) (S.remaining self.new.device) result buf.new }
        ensures reads { S.reads self.new.device ≡ counted (S.reads self.old.device) (reads_in result) }
        ensures failed { (self.new.has_failed || S.failed self.new.device) ≡ ((self.old.has_failed || S.failed self.old.device) || is_err result) }
        ensures numbered { self.old.calls_before ≡ 0 → self.old.has_failed ≡ false → (is_err result ≡ true) × (self.new.device ≡ self.old.device) }
        ensures calls { self.new.calls_before ≡ self.old.calls_before - 1 }
        ensures once { self.new.has_failed ≡ (self.old.has_failed || nat_eq self.old.calls_before 0) }
    {
        if self.calls_before == 0 && !self.has_failed {
            self.has_failed = true;
            return Err(DeviceFailed);
        }
        self.calls_before = self.calls_before.saturating_sub(1);
        self.device.read(buf)
    }
}

impl<S: Sink> Sink for FailAt<S> {
    ghost contents = { λ sink. S.contents sink.device };

    ghost failed = { λ sink. sink.has_failed || S.failed sink.device };

    fn write(&mut self, bytes: &[u8]) -> Result<usize, DeviceFailed>
        ensures bound { WritesAtMost result bytes.now }
        ensures some { IfOk result (λ count. 0 < length bytes.now → 0 < count) }
        ensures bytes { WriteAppends (S.contents self.old.device) (S.contents self.new.device) result bytes.now }
        ensures failed { (self.new.has_failed || S.failed self.new.device) ≡ ((self.old.has_failed || S.failed self.old.device) || is_err result) }
        ensures numbered { self.old.calls_before ≡ 0 → self.old.has_failed ≡ false → (is_err result ≡ true) × (self.new.device ≡ self.old.device) }
        ensures calls { self.new.calls_before ≡ self.old.calls_before - 1 }
        ensures once { self.new.has_failed ≡ (self.old.has_failed || nat_eq self.old.calls_before 0) }
    {
        if self.calls_before == 0 && !self.has_failed {
            self.has_failed = true;
            return Err(DeviceFailed);
        }
        self.calls_before = self.calls_before.saturating_sub(1);
        self.device.write(bytes)
    }
}
