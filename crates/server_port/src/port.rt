ghost use Rattle.std.specs.Prelude.{◌≡◌};

use crate::gates::{Gate, Point};
use server_log::Noted;
use server_state::history::{Kept, Rotation};
use server_state::mail::{OutgoingMail, ServerState};
use shared_hub::{Run, RunContext, Seat, SharedHub};
use std::alloc::Global;
use std::mem;
use std::sync::Wait;
use worker_port::{Course, Why, WorkerPort};

/// A thread's access to the hub: its seat, and the gate that each of its events passes.
#[derive(Drop)]
pub struct Access<L: Run, G: Drop> {
    pub seat: Seat<L>,
    pub gate: G,
}

/// A thread's port to the hub.
pub struct ServerPort<'a, L: Run, R: Wait, G: Gate + Drop> {
    pub(crate) rt: &'a R,
    pub(crate) alloc: Global,
    pub(crate) shared: &'a SharedHub<L>,
    pub(crate) seat: Seat<L>,
    pub(crate) gate: G,
    pub(crate) is_spent: bool,
    pub(crate) rotation: Rotation,
    /// What all ports have counted.
    pub(crate) kept: &'a Kept,
    pub(crate) outgoing: OutgoingMail,
    /// What is to be told of the events of a turn.
    pub(crate) noted: Noted,
    /// What goes with the messages of a run, and what the hub told beside the latest answer.
    pub(crate) context: RunContext,
    pub(crate) course: Course,
    /// For how many milliseconds the socket took nothing whose connection's Take comes next.
    pub(crate) stall_ms: u64,
}

impl<L: Run, R: Wait, G: Gate + Drop> Drop for ServerPort<'_, L, R, G> {
    fn drop(self) {
        let Self {
            rt: _,
            alloc: _,
            shared: _,
            seat: _,
            gate: _,
            is_spent: _,
            rotation: _,
            kept: _,
            outgoing: _,
            noted: _,
            context: _,
            course: _,
            stall_ms: _,
        } = self;
    }
}

impl<'a, L: Run, R: Wait, G: Gate + Drop> ServerPort<'a, L, R, G> {
    ghost use Rattle.std.specs.Prelude.{◌≡◌, ◌||◌, Bool, None, false, not};
    ghost use Rattle.server_state.specs.history.Rotating.{fresh};
    ghost use Rattle.server_port.specs.Points.{ArePassed, answered_if};

    /// Makes the port of a thread with such access. It has no share yet.
    pub fn new(
        rt: &'a R,
        alloc: Global,
        shared: &'a SharedHub<L>,
        state: &'a ServerState<'a>,
        access: Access<L, G>,
        outgoing: OutgoingMail,
    ) -> ServerPort<'a, L, R, G>
        ensures seat { result.seat ≡ access.seat }
        ensures rotation { result.rotation ≡ fresh state.now.limits.history }
        ensures course { result.course ≡ record { share = 0; why = None; has_passed = false; has_entered = false } }
        ensures spent { result.is_spent ≡ false }
    {
        let Access { seat, gate } = access;
        ServerPort {
            rt,
            alloc,
            shared,
            seat,
            gate,
            is_spent: false,
            rotation: Rotation::new(alloc, state.limits.history),
            kept: state.kept(),
            outgoing,
            noted: Noted::new(alloc, state.log.level()),
            context: RunContext::new(alloc),
            course: Course {
                share: 0,
                why: None,
                has_passed: false,
                has_entered: false,
            },
            stall_ms: 0,
        }
    }

    /// Passes a point. Where the gate lets it pass no more, that is noted for good.
    pub fn pass(&mut self, point: Point)
        ensures spent { (lets : Bool) × G.passes self.old.gate point lets self.new.gate × (self.new.is_spent ≡ (self.old.is_spent || not lets)) }
        ensures course { self.new.course ≡ self.old.course }
        ensures rotation { self.new.rotation ≡ self.old.rotation }
        ensures context { self.new.context ≡ self.old.context }
        ensures noted { self.new.noted ≡ self.old.noted }
        ensures seat { self.new.seat ≡ self.old.seat }
    {
        if self.gate.pass(point).is_err() {
            self.is_spent = true;
        }
    }

    /// A message passes the gate once it has its answer, unless it is held back.
    #[inline(always)]
    pub(crate) fn pass_answered(&mut self)
        ensures points { ArePassed G.passes (answered_if self.old.course.why) self.old.gate self.old.is_spent self.new.gate self.new.is_spent }
        ensures course { self.new.course ≡ self.old.course }
        ensures rotation { self.new.rotation ≡ self.old.rotation }
        ensures context { self.new.context ≡ self.old.context }
        ensures noted { self.new.noted ≡ self.old.noted }
        ensures seat { self.new.seat ≡ self.old.seat }
    {
        match self.course.why {
            None => self.pass(Point::Answered),
            Some(_) => {}
        }
    }
}

impl<L: Run, R: Wait, G: Gate + Drop> WorkerPort for ServerPort<'_, L, R, G> {
    ghost use Rattle.std.specs.Prelude.{◌≡◌, ◌≤◌, ◌+◌, Bool, None, Option, false, max, nat_eq};
    ghost use Rattle.server_state.specs.declared.history.kept.Added.{Added};
    ghost use Rattle.server_state.specs.history.Bytes.{IsCounted};
    ghost use Rattle.server_state.specs.history.Rotating.{but_last};
    ghost use Rattle.server_port.specs.Histories.{once, passed, tried};

    ghost course = { λ port. port.course };

    ghost spent = { λ port. port.is_spent };

    ghost stall_ms = { λ port. port.stall_ms };

    ghost rest = { λ port. port.context.told.rest };

    fn is_spent(&self) -> bool
        ensures spent { result ≡ self.now.is_spent }
    {
        self.is_spent
    }

    fn outgoing(&mut self) -> &mut OutgoingMail {
        &mut self.outgoing
    }

    fn noted(&mut self) -> &mut Noted {
        &mut self.noted
    }

    fn allow(&mut self, deliveries: usize)
        ensures course { self.new.course ≡ record self.old.course { share = max self.old.course.share deliveries } }
        ensures seat { self.new.seat ≡ self.old.seat }
    {
        self.course.share = self.course.share.max(deliveries);
    }

    fn has_no_share(&self) -> bool
        ensures share { result ≡ nat_eq self.now.course.share 0 }
    {
        self.course.share == 0
    }

    fn begin_turn(&mut self, has_passed: bool)
        ensures course { self.new.course ≡ record { share = self.old.course.share; why = None; has_passed = has_passed; has_entered = false } }
        ensures seat { self.new.seat ≡ self.old.seat }
    {
        self.course.why = None;
        self.course.has_passed = has_passed;
        self.course.has_entered = false;
        self.rotation.drop_old(self.kept);
    }

    fn has_entered(&self) -> bool
        ensures entered { result ≡ self.now.course.has_entered }
    {
        self.course.has_entered
    }

    fn keep(&mut self, bytes: usize)
        ensures counted { (told : Option Added) × IsCounted self.old.rotation.uncounted bytes told self.new.rotation.uncounted × (self.new.rotation.tries ≡ tried (passed told) self.old.rotation.tries) × (self.new.seat.rotations ≤ self.old.seat.rotations + once (passed told)) }
        ensures course { self.new.course ≡ self.old.course }
        ensures count { self.new.seat.count ≡ self.old.seat.count }
    {
        let _ = self.count_bytes(bytes as u64);
    }

    fn why(&self) -> Option<Why>
        ensures why { result ≡ self.now.course.why }
    {
        self.course.why
    }

    fn waiting(&self, conn: u64) -> usize {
        self.shared.waiting(self.rt, conn)
    }

    fn begin_take(&mut self, millis: u64)
        ensures stall { self.new.stall_ms ≡ millis }
        ensures none { self.new.context.told.rest ≡ None }
        ensures course { self.new.course ≡ self.old.course }
        ensures seat { self.new.seat ≡ self.old.seat }
    {
        self.context.told.rest = None;
        self.stall_ms = millis;
    }

    fn untold(&mut self) -> u64
        ensures stall { result ≡ self.old.stall_ms }
        ensures none { self.new.stall_ms ≡ 0 }
        ensures course { self.new.course ≡ self.old.course }
        ensures seat { self.new.seat ≡ self.old.seat }
    {
        mem::replace(&mut self.stall_ms, 0)
    }

    fn take_rest(&mut self) -> Option<usize>
        ensures rest { result ≡ self.old.context.told.rest }
        ensures none { self.new.context.told.rest ≡ None }
        ensures course { self.new.course ≡ self.old.course }
        ensures seat { self.new.seat ≡ self.old.seat }
    {
        self.context.told.rest.take()
    }

    fn shed(&mut self, most: usize) -> bool
        ensures left { self.new.rotation ≡ record self.old.rotation { spent = but_last most self.old.rotation.spent } }
        ensures course { self.new.course ≡ self.old.course }
        ensures seat { self.new.seat ≡ self.old.seat }
    {
        self.rotation.shed(most)
    }
}
