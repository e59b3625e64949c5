ghost use Rattle.std.specs.Prelude.{◌≡◌, IfOk};
ghost use Rattle.sp_isa.specs.Operands.{with_pair};
ghost use Rattle.sp_run.specs.Start.{bit, with_setting, with_settings, inputs_of, with_counter, IsStartCore};

use crate::settings::{Options, Setting};
use sp_base::{Image, Loc, Memory, Pair, Reg};
use sp_hex::load;
use sp_machine::Machine;
use std::alloc::Global;

/// Puts a word into a register pair, its high byte into the first register, or into the stack pointer.
#[tactic(auto, unfolding(sp_isa::specs::Operands::with_pair))]
fn set_pair(machine: &mut Machine, pair: Pair, word: u16)
    ensures { machine.new ≡ with_pair pair word machine.old }
{
    let high = (word / 256) as u8;
    let low = (word % 256) as u8;
    let (first, second) = match pair {
        Pair::B => (Reg::B, Reg::C),
        Pair::D => (Reg::D, Reg::E),
        Pair::H => (Reg::H, Reg::L),
        Pair::Sp => return machine.set_sp(word),
    };
    machine.set_reg(second, low);
    machine.set_reg(first, high);
}

#[tactic(auto, unfolding(crate::specs::Start::with_setting))]
fn make(machine: &mut Machine, setting: Setting)
    ensures { machine.new ≡ with_setting setting machine.old }
{
    match setting {
        Setting::Register(register, byte) => machine.set_reg(register, byte),
        Setting::Pair(pair, word) => set_pair(machine, pair, word),
        Setting::Flag(flag, on) => machine.set_flag(Loc::from(flag), u8::from(on)),
        Setting::Input(_) => {}
        Setting::Cell(address, byte) => machine.set_cell(address, byte),
    }
}

fn make_all(machine: &mut Machine, settings: &[Setting])
    ensures { machine.new ≡ with_settings settings.now machine.old }
{
    for setting in settings {
        make(machine, *setting);
    }
}

/// The machine with which a run starts.
pub fn started(alloc: Global, image: &Image, options: &Options) -> Result<Machine, Memory>
    ensures { IfOk result (IsStartCore image.now options.now) }
{
    let mut machine = Machine::new(alloc)?;
    load(image, &mut machine);
    make_all(&mut machine, options.settings.as_slice());
    if let Some(pc) = options.pc {
        machine.set_pc(pc);
    }
    Ok(machine)
}

/// The inputs that settings give.
pub fn inputs_of(alloc: Global, settings: &[Setting]) -> Result<Vec<u8>, Memory>
    ensures { IfOk result (λ inputs. inputs.items ≡ inputs_of settings.now) }
{
    let inputs = settings.iter().filter_map(|setting| match *setting {
        Setting::Input(byte) => Some(byte),
        _ => None,
    });
    Ok(inputs.collect(alloc)?)
}
