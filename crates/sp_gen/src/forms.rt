//! The four forms of routines, and the scripts for them.

ghost use Rattle.std.specs.Prelude.{◌≡◌, OnOk};
ghost use Rattle.sp_gen.specs.Generated.{loads, counts, calls, copies, copy_script, routine_lines, script_lines};
ghost use Rattle.sp_gen.specs.code.Onto.{onto};

use crate::lines::{
    push_between, push_call, push_labelled, push_line, push_load, push_named, push_numbered,
};
use sp_base::Memory;

fn push_loads(text: &mut Vec<u8>, k: u32, value: u32) -> Result<(), Memory>
    ensures { OnOk result (text.new.items ≡ onto text.old.items (loads k value)) }
{
    push_named(text, ";# routine ", k)?;
    push_numbered(text, ";# post A = ", value)?;
    push_line(text, ";# changes A")?;
    push_load(text, k, ": MVI A,", value)?;
    push_line(text, "RET")?;
    push_line(text, ";# end")?;
    Ok(())
}

fn push_counts(text: &mut Vec<u8>, k: u32) -> Result<(), Memory>
    ensures { OnOk result (text.new.items ≡ onto text.old.items (counts k)) }
{
    push_named(text, ";# routine ", k)?;
    push_line(text, ";# post B = 0")?;
    push_line(text, ";# reads B")?;
    push_line(text, ";# changes B, FLAGS")?;
    push_line(text, ";# assert B >= 0")?;
    push_labelled(text, k, ": DCR B")?;
    push_named(text, "JNZ ", k)?;
    push_line(text, "RET")?;
    push_line(text, ";# end")?;
    Ok(())
}

fn push_calls(text: &mut Vec<u8>, k: u32, callee: u32, value: u32) -> Result<(), Memory>
    ensures { OnOk result (text.new.items ≡ onto text.old.items (calls k callee value)) }
{
    push_named(text, ";# routine ", k)?;
    push_numbered(text, ";# post A = ", value)?;
    push_line(text, ";# changes A")?;
    push_line(text, ";# depth 2")?;
    push_call(text, k, ": CALL ", callee)?;
    push_line(text, "RET")?;
    push_line(text, ";# end")?;
    Ok(())
}

fn push_copies(text: &mut Vec<u8>, k: u32) -> Result<(), Memory>
    ensures { OnOk result (text.new.items ≡ onto text.old.items (copies k)) }
{
    push_named(text, ";# routine ", k)?;
    push_line(text, ";# pre B <= C")?;
    push_line(text, ";# post A < C + 1")?;
    push_line(text, ";# reads B, C")?;
    push_line(text, ";# changes A")?;
    push_labelled(text, k, ": MOV A,B")?;
    push_line(text, "RET")?;
    push_line(text, ";# end")?;
    Ok(())
}

/// Adds the routine with a number.
pub fn push_routine(text: &mut Vec<u8>, k: u32) -> Result<(), Memory>
    ensures { OnOk result (text.new.items ≡ onto text.old.items (routine_lines k)) }
{
    match k % 4 {
        0 => push_loads(text, k, k % 256),
        1 => push_counts(text, k),
        2 => push_calls(text, k, k - 2, (k - 2) % 256),
        _ => push_copies(text, k),
    }
}

fn push_copy_script(text: &mut Vec<u8>, k: u32) -> Result<(), Memory>
    ensures { OnOk result (text.new.items ≡ onto text.old.items (copy_script k)) }
{
    push_between(text, "script ", k, ".1")?;
    push_line(text, "linear 1 1 h1")?;
    push_line(text, "end")?;
    Ok(())
}

/// Adds the script for the routine with a number, if it needs one.
pub fn push_script(text: &mut Vec<u8>, k: u32) -> Result<(), Memory>
    ensures { OnOk result (text.new.items ≡ onto text.old.items (script_lines k)) }
{
    match k % 4 {
        3 => push_copy_script(text, k),
        _ => Ok(()),
    }
}
