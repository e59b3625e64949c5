//! Whole sources.

ghost use Rattle.std.specs.Prelude.{◌≡◌, IfOk};
ghost use Rattle.sp_gen.specs.Generated.{source_text, scripts_text};

use crate::forms::{push_routine, push_script};
use crate::lines::push_line;
use sp_base::Memory;
use std::alloc::Global;

/// A source, and the scripts for its conditions, as the bytes of their texts.
#[derive(Debug, Drop)]
pub struct Generated {
    pub source: Vec<u8>,
    pub scripts: Vec<u8>,
}

/// A source of `count` routines G0, G1, .. with the scripts for their conditions, each some 90 bytes long. Four forms take turns: a
/// routine loads A with a number, counts B down to 0, calls the routine two before it, or copies B.
pub fn generate(alloc: Global, count: u32) -> Result<Generated, Memory>
    ensures source { IfOk result (λ made. made.source.items ≡ source_text count) }
    ensures scripts { IfOk result (λ made. made.scripts.items ≡ scripts_text count) }
{
    let source = source(alloc, count)?;
    let scripts = scripts(alloc, count)?;
    Ok(Generated { source, scripts })
}

fn source(alloc: Global, count: u32) -> Result<Vec<u8>, Memory>
    ensures { IfOk result (λ text. text.items ≡ source_text count) }
{
    let mut text = Vec::new(alloc);
    push_line(&mut text, ";# stack 2300H, 23FFH")?;
    for k in 0..count {
        push_routine(&mut text, k)?;
    }
    Ok(text)
}

fn scripts(alloc: Global, count: u32) -> Result<Vec<u8>, Memory>
    ensures { IfOk result (λ text. text.items ≡ scripts_text count) }
{
    let mut text = Vec::new(alloc);
    for k in 0..count {
        push_script(&mut text, k)?;
    }
    Ok(text)
}
