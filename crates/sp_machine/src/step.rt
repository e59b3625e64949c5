ghost use Rattle.std.specs.Prelude.{◌≡◌};
ghost use Rattle.sp_isa.specs.Core.{IsCore};
ghost use Rattle.sp_isa.specs.Step.{step};
ghost use Rattle.sp_machine.specs.Event.{event, event_of};
ghost use Rattle.sp_machine.specs.Ports.{IsModelStep};
ghost use Rattle.sp_machine.specs.code.Machine.{fetched};

use crate::{Event, Machine};
use sp_base::Reg;
use sp_isa::{Instr, decode};

/// Steps of the machine.
impl Machine {
    fn event_of(&self, i: Instr) -> Event
        ensures { result ≡ event_of i self.now }
    {
        match i {
            Instr::In(port) => Event::In(port),
            Instr::Out(port) => Event::Out(port, self.reg(Reg::A)),
            Instr::Hlt => Event::Halted,
            _ => Event::Plain,
        }
    }

    /// The three bytes at the program counter.
    fn fetch(&self) -> [u8; 3]
        ensures { result ≡ fetched self.now }
    {
        let pc = self.pc();
        [
            self.cell(pc),
            self.cell(pc.wrapping_add(1)),
            self.cell(pc.wrapping_add(2)),
        ]
    }

    /// One step, `input` being the byte that an IN takes. It is the model's step from each state with this core whose next
    /// input is that byte. A step allocates nothing, and copies no memory.
    #[tactic(auto, unfolding(sp_isa::specs::Step::step, crate::specs::Event::event))]
    pub fn step(&mut self, input: u8) -> Event
        ensures state { self.new ≡ step input self.old }
        ensures event { result ≡ event self.old }
        ensures model { IsModelStep input self.old self.new result }
        ensures core { IsCore self.new }
    {
        if self.halted() {
            return Event::Halted;
        }
        let bytes = self.fetch();
        let Some((i, _)) = decode(bytes) else {
            return Event::Stuck(bytes[0]);
        };
        let event = self.event_of(i);
        self.execute(input, i);
        event
    }
}
