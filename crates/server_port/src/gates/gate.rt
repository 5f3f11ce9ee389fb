ghost use Rattle.std.specs.Prelude.{Bool, IsTrue, is_ok, ⊤};

/// Where a thread that serves may be held.
#[derive(Clone, Copy, Debug, PartialEq, Eq)]
pub enum Point {
    /// An event has been read, and is to be entered next. Several messages may be read before the first of them has its answer.
    FrameRead,
    /// An event has its answer.
    Answered,
    /// A policy has been made ready, and is to come into force next.
    Prepared,
}

/// The gate lets nothing more pass.
#[derive(Clone, Copy, Debug, PartialEq, Eq)]
pub struct GateClosed;

/// What a thread passes at each point. It may hold the thread there; the hub's lock is free meanwhile.
pub trait Gate {
    ghost use Rattle.server_port.specs.declared.gates.gate.Point.{Point};

    /// A point, whether the gate lets it pass, and the gate before and after it.
    ghost passes: { Self → Point → Bool → Self → Type 0 } = { λ _ _ _ _. ⊤ };

    /// Passes a point, once the gate lets it. It returns `GateClosed` where nothing passes any more.
    fn pass(&mut self, point: Point) -> Result<(), GateClosed>
        ensures { passes self.old point (is_ok result) self.new };
}

/// A gate that holds nobody.
#[derive(Clone, Copy, Debug, Drop)]
pub struct Open;

impl Gate for Open {
    ghost passes = { λ _ _ lets _. IsTrue lets };

    fn pass(&mut self, _point: Point) -> Result<(), GateClosed> {
        Ok(())
    }
}
