ghost use Rattle.std.specs.Prelude.{◌≡◌, ◌≤◌, ◌<◌, false, true, is_some, length, slice_get, OnOk};
ghost use Rattle.vh_orders.specs.Orders.{Given, is_pass, is_return};

use crate::activation::{Activation, first_seen};
use crate::control::Control;
use crate::kernel::Kernel;
use crate::label::Label;
use crate::occurrence::{Occurrence, Told};
use crate::ordered::Ordered;
use std::alloc::Global;
use vh_base::{CbNumber, Fault, MOST_FRAMES, MOST_NUMBERS, NoMemory, Order};
use vh_orders::{Who, is_pass, is_return, perform};

impl Kernel {
    ghost use Rattle.vh_kernel.specs.Outcome.{move_of};
    ghost use Rattle.vh_kernel.specs.State.{State, with_top, without_item};
    ghost use Rattle.vh_kernel.specs.Step.{telling_outcome, occurrence_move, called_for, frame_of, top_move, activation_move, order_move, pass_move, item_move, agenda_move};
    ghost use Rattle.vh_kernel.specs.Views.{state_of, given_by, Moves};

    // An occurrence that was on top of control is told.
    pub(crate) fn occur(&mut self, alloc: Global, what: Occurrence) -> Result<Label, NoMemory>
        ensures { Moves (item_move (Control.Pending what) (state_of self.old) 0 (given_by self.old))
            result self.new }
    {
        if self.frames() >= MOST_FRAMES {
            self.control.push(Control::Pending(what))?;
            return Ok(self.fail(Fault::F1));
        }
        if self.occurrence > MOST_NUMBERS {
            self.control.push(Control::Pending(what))?;
            return Ok(self.fail(Fault::F3));
        }
        self.tell(alloc, what)
    }

    // An occurrence that is next on the agenda is told.
    pub(crate) fn occur_next(&mut self, alloc: Global, what: Occurrence) -> Result<Label, NoMemory>
        ensures { Moves (occurrence_move what (state_of self.old) (without_item
            (state_of self.old)))
            result self.new }
    {
        if self.frames() >= MOST_FRAMES {
            return Ok(self.fail(Fault::F1));
        }
        if self.occurrence > MOST_NUMBERS {
            return Ok(self.fail(Fault::F3));
        }
        let _ = self.agenda.pop_front();
        self.tell(alloc, what)
    }

    // It gets the next number and a frame.
    fn tell(&mut self, alloc: Global, what: Occurrence) -> Result<Label, NoMemory>
        requires few { length (state_of self.old).world.frames < MOST_FRAMES }
        requires few_told { (state_of self.old).occurrence ≤ MOST_NUMBERS }
        ensures { Moves (occurrence_move what (state_of self.old)
            (state_of self.old)) result self.new }
    {
        let number = self.occurrence;
        let what = what.with_text(alloc, &mut self.texts)?;
        self.open_frame(alloc, number, &what)?;
        let label = Label::Occ(number, what.reason(), what.object());
        self.occurrence = number + 1;
        self.control.push(Control::Frame(Told { number, what }))?;
        Ok(label)
    }

    // The frame on top of control fires the callback that was chosen, or is done.
    pub(crate) fn fire(&mut self, alloc: Global, k: u32) -> Result<Label, NoMemory>
        requires { is_some (frame_of (slice_get (state_of self.old).control 0)) ≡ true }
        ensures { Moves (top_move (slice_get (state_of self.old).control 0) (state_of self.old) k
            (given_by self.old))
            result self.new }
    {
        let Some(told) = self.control.frame() else {
            unreachable!();
        };
        let number = told.number;
        let Some(c) = self.take_left(k) else {
            if let Some(Control::Frame(told)) = self.control.pop() {
                self.leave_text(told.what);
            }
            self.close_frame();
            return Ok(Label::Done(number));
        };
        self.call(alloc, c)?;
        Ok(Label::Fire(number, c))
    }

    // An occurrence that is done leaves the text of its value, which is no more in the memory that is kept here.
    fn leave_text(&mut self, what: Occurrence)
        ensures { state_of self.new ≡ state_of self.old }
    {
        if let Some(seen) = &mut self.spare {
            seen.value = None;
        }
        if let Some(order) = self.spare_order.take() {
            self.spare_order = Some(order.into_memory());
        }
        self.texts.keep(what.into_text());
    }

    // What a callback calls for the occurrence on top of control begins.
    fn call(&mut self, alloc: Global, c: CbNumber) -> Result<(), NoMemory>
        ensures { OnOk result (state_of self.new
            ≡ called_for (frame_of (slice_get (state_of self.old).control 0)) c
            (state_of self.old)) }
    {
        let Some(told) = self.control.frame() else {
            return Ok(());
        };
        let Some(live) = self.world.registry.callback(c) else {
            return Ok(());
        };
        let time = self.world.simulation.time();
        let seen = first_seen(alloc, &live.registration, &told.what, time)?;
        let body = live.body;
        let memory = self.spare.take();
        let who = Who::Callback(c);
        let activation = Activation::new(alloc, memory, who, body.script, body.start, seen)?;
        self.control.push(Control::Activation(activation))
    }

    // An activation that was on top of control gives its next order, or returns.
    pub(crate) fn act(&mut self, alloc: Global, activation: Activation) -> Result<Label, NoMemory>
        ensures { Moves (activation_move (slice_get
            (state_of self.old).world.scripts activation.script)
            (slice_get (state_of self.old).world.variables activation.script) activation
            (state_of self.old) (given_by self.old)) result self.new }
    {
        if self.returns(&activation) {
            return Ok(self.ret(activation));
        }
        self.give_order(alloc, activation)
    }

    // Does an activation return, with nothing else that it does?
    fn returns(&self, activation: &Activation) -> bool
        ensures { result ≡ true → activation_move (slice_get
            (state_of self.now).world.scripts activation.now.script)
            (slice_get (state_of self.now).world.variables activation.now.script) activation.now
            (state_of self.now) (given_by self.now)
            ≡ (Label.Ret activation.now.who, state_of self.now) }
    {
        let i = activation.script();
        let Some(script) = self.world.scripts.get(i) else {
            return false;
        };
        let Some(_vars) = self.world.vars.get(i) else {
            return false;
        };
        script.returns_at(activation.point())
    }

    // It returns, and leaves the memory of what it saw.
    fn ret(&mut self, activation: Activation) -> Label
        ensures label { result ≡ Label.Ret activation.who }
        ensures same { state_of self.new ≡ state_of self.old }
    {
        let who = activation.who();
        self.spare = Some(activation.into_memory());
        Label::Ret(who)
    }

    // It gives its next order, or returns.
    fn give_order(&mut self, alloc: Global, activation: Activation) -> Result<Label, NoMemory>
        ensures { Moves (activation_move (slice_get
            (state_of self.old).world.scripts activation.script)
            (slice_get (state_of self.old).world.variables activation.script) activation
            (state_of self.old) (given_by self.old)) result self.new }
    {
        let i = activation.script();
        if i >= self.world.scripts.len() || i >= self.world.vars.len() {
            return Ok(Label::Ret(activation.who()));
        }
        let mut activation = activation;
        let order = activation.next_order(alloc, &self.world.scripts[i], &mut self.world.vars[i])?;
        if is_return(&order) {
            return Ok(self.ret(activation));
        }
        self.obey(alloc, activation, order)
    }

    // It goes on after an order.
    fn obey(
        &mut self,
        alloc: Global,
        activation: Activation,
        order: Order,
    ) -> Result<Label, NoMemory>
        requires { is_return order ≡ false }
        ensures { (before : State) → Moves (order_move false order activation before
            (state_of self.old)
            (given_by self.old)) result self.new }
    {
        if is_pass(&order) {
            return self.pass(activation);
        }
        self.ask(alloc, activation, order)
    }

    // It goes on by a step that asks for nothing.
    fn pass(&mut self, activation: Activation) -> Result<Label, NoMemory>
        ensures { (o : Order) (before : State) → Moves (pass_move true o activation before
            (state_of self.old)
            (given_by self.old)) result self.new }
    {
        let who = activation.who();
        let mut activation = activation;
        activation.pass();
        self.control.push(Control::Activation(activation))?;
        Ok(Label::Pass(who))
    }

    // It goes on by an order that is answered.
    fn ask(
        &mut self,
        alloc: Global,
        activation: Activation,
        order: Order,
    ) -> Result<Label, NoMemory>
        requires goes_on { is_return order ≡ false }
        requires asks { is_pass order ≡ false }
        ensures { (before : State) → Moves (pass_move false order activation before
            (state_of self.old)
            (given_by self.old)) result self.new }
    {
        let who = activation.who();
        let answer = perform(alloc, &mut self.world, who, &order)?;
        let mut activation = activation;
        activation.note(&answer)?;
        self.control.push(Control::Activation(activation))?;
        let memory = self.spare_order.take();
        Ok(Label::Do(who, Ordered::new(alloc, memory, order)?, answer))
    }
}
