ghost use Rattle.sp_hex.specs.Load.{IsLoaded};

use sp_base::{Image, Reg};
use sp_machine::Machine;

/// Puts each byte of the image into the machine's memory at its address. It takes no memory, and the time that
/// it takes grows with the number of the image's bytes.
pub fn load(image: &Image, m: &mut Machine)
    ensures { IsLoaded image.now m.old m.new }
{
    // This call ensures that the machine has a cell for each address.
    let _b = m.reg(Reg::B);
    let mut from = 0u32;
    while let Some((address, byte)) = image.next(from) {
        m.set_cell(address, byte);
        from = u32::from(address) + 1;
    }
}
