//! Where a memory ends that another term follows.
ghost use Rattle.std.specs.Prelude.{◌≡◌, ◌≤◌, length, IfSome};
ghost use Rattle.std.specs.List.{prefix_len};
ghost use Rattle.std.specs.Option.{option_copied};
ghost use Rattle.sp_fdl.specs.Text.{is_run};
ghost use Rattle.sp_fdl.specs.code.Tokens.{run_of, after_run};
ghost use Rattle.sp_script_text.specs.code.Arguments.{past_close, after_memory};

/// A run is made of letters, digits, `_` and `~`.
fn is_run(byte: u8) -> bool
    ensures { result ≡ is_run byte }
{
    byte.is_ascii_alphanumeric() || byte == b'_' || byte == b'~'
}

fn run_len(text: &[u8]) -> usize
    ensures value { result ≡ prefix_len is_run text.now }
    ensures within { result ≤ length text.now }
{
    text.iter().take_while(|byte| is_run(**byte)).count()
}

/// The longest run at the front, and what follows it.
#[tactic(auto, using(sp_fdl::proofs::TakenLemmas::run_of_is, sp_fdl::proofs::TakenLemmas::after_run_is))]
fn split_run(text: &[u8]) -> (&[u8], &[u8])
    ensures run { result.0.now ≡ run_of text.now }
    ensures rest { result.1.now ≡ after_run text.now }
    ensures within { length result.1.now ≤ length text.now }
{
    text.split_at(run_len(text))
}

/// What follows the parenthesis that closes the first one.
fn past_close(text: &[u8]) -> Option<&[u8]>
    ensures value { option_copied result ≡ past_close 0 text.now }
    ensures within { IfSome result (λ rest. length rest.now ≤ length text.now) }
{
    let mut level = 0usize;
    for (i, byte) in text.iter().enumerate() {
        if *byte == b'(' {
            level += 1;
        } else if *byte == b')' {
            if level <= 1 {
                let (_, rest) = text.split_at(i + 1);
                return Some(rest);
            }
            level -= 1;
        }
    }
    None
}

/// What follows a memory at the front.
#[tactic(auto, unfolding(crate::specs::code::Arguments::after_memory))]
pub(crate) fn after_memory(text: &[u8]) -> Option<&[u8]>
    ensures value { option_copied result ≡ after_memory text.now }
    ensures within { IfSome result (λ rest. length rest.now ≤ length text.now) }
{
    let (run, rest) = split_run(text);
    if run == b"update".as_slice() {
        past_close(rest)
    } else {
        Some(rest)
    }
}
