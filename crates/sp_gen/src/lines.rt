//! Lines of a text.

ghost use Rattle.std.specs.Prelude.{◌≡◌, ◌++◌, OnOk, decimal};
ghost use Rattle.sp_gen.specs.Generated.{line, name};

use sp_base::Memory;

/// Adds a line.
#[tactic(auto, unfolding(crate::specs::Generated::line))]
pub fn push_line(text: &mut Vec<u8>, words: &str) -> Result<(), Memory>
    ensures { OnOk result (text.new.items ≡ text.old.items ++ line words.now) }
{
    text.extend_from_slice(words.as_bytes())?;
    text.push(b'\n')?;
    Ok(())
}

fn push_number(text: &mut Vec<u8>, number: u32) -> Result<(), Memory>
    ensures { OnOk result (text.new.items ≡ text.old.items ++ decimal number) }
{
    let mut buffer = itoa::Buffer::new();
    text.extend_from_slice(buffer.format(number).as_bytes())?;
    Ok(())
}

/// Adds the name of the routine with a number.
fn push_name(text: &mut Vec<u8>, k: u32) -> Result<(), Memory>
    ensures { OnOk result (text.new.items ≡ text.old.items ++ name k) }
{
    text.push(b'G')?;
    push_number(text, k)
}

/// Adds a line that ends with a number.
#[tactic(auto, unfolding(crate::specs::Generated::line))]
pub fn push_numbered(text: &mut Vec<u8>, front: &str, number: u32) -> Result<(), Memory>
    ensures { OnOk result (text.new.items ≡ text.old.items ++ line (front.now ++ decimal number)) }
{
    text.extend_from_slice(front.as_bytes())?;
    push_number(text, number)?;
    text.push(b'\n')?;
    Ok(())
}

/// Adds a line that ends with a routine's name.
#[tactic(auto, unfolding(crate::specs::Generated::line))]
pub fn push_named(text: &mut Vec<u8>, front: &str, k: u32) -> Result<(), Memory>
    ensures { OnOk result (text.new.items ≡ text.old.items ++ line (front.now ++ name k)) }
{
    text.extend_from_slice(front.as_bytes())?;
    push_name(text, k)?;
    text.push(b'\n')?;
    Ok(())
}

/// Adds a line that begins with a routine's name.
#[tactic(auto, unfolding(crate::specs::Generated::line))]
pub fn push_labelled(text: &mut Vec<u8>, k: u32, back: &str) -> Result<(), Memory>
    ensures { OnOk result (text.new.items ≡ text.old.items ++ line (name k ++ back.now)) }
{
    push_name(text, k)?;
    text.extend_from_slice(back.as_bytes())?;
    text.push(b'\n')?;
    Ok(())
}

/// Adds a line with a routine's name and a number.
#[tactic(auto, unfolding(crate::specs::Generated::line))]
pub fn push_load(text: &mut Vec<u8>, k: u32, between: &str, number: u32) -> Result<(), Memory>
    ensures { OnOk result (text.new.items ≡ text.old.items ++ line (name k ++ between.now ++ decimal number)) }
{
    push_name(text, k)?;
    text.extend_from_slice(between.as_bytes())?;
    push_number(text, number)?;
    text.push(b'\n')?;
    Ok(())
}

/// Adds a line with the names of two routines.
#[tactic(auto, unfolding(crate::specs::Generated::line))]
pub fn push_call(text: &mut Vec<u8>, k: u32, between: &str, callee: u32) -> Result<(), Memory>
    ensures { OnOk result (text.new.items ≡ text.old.items ++ line (name k ++ between.now ++ name callee)) }
{
    push_name(text, k)?;
    text.extend_from_slice(between.as_bytes())?;
    push_name(text, callee)?;
    text.push(b'\n')?;
    Ok(())
}

/// Adds a line with a routine's name between two texts.
#[tactic(auto, unfolding(crate::specs::Generated::line))]
pub fn push_between(text: &mut Vec<u8>, front: &str, k: u32, back: &str) -> Result<(), Memory>
    ensures { OnOk result (text.new.items ≡ text.old.items ++ line (front.now ++ name k ++ back.now)) }
{
    text.extend_from_slice(front.as_bytes())?;
    push_name(text, k)?;
    text.extend_from_slice(back.as_bytes())?;
    text.push(b'\n')?;
    Ok(())
}
