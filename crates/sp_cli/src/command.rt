//! Command lines.
ghost use Rattle.std.specs.Prelude.{◌≡◌, ◌↔◌, ℕ, List, IsTrue, MatchOption, option_map};
ghost use Rattle.sp_cli.specs.Command as cmd;
ghost use Rattle.sp_cli.specs.Command.{words_of};
ghost use Rattle.sp_cli.specs.code.Views.{verify_of, asm_of, run_of, check_of, command_of};

/// The names of the files of `verify`.
#[derive(Clone, Copy)]
pub struct Verify<'a> {
    pub source: &'a str,
    pub scripts: &'a str,
    pub image: &'a str,
}

/// The names of the files of `asm`.
#[derive(Clone, Copy)]
pub struct Asm<'a> {
    pub source: &'a str,
    pub image: &'a str,
}

/// The name of the file of `run`, and its option words.
#[derive(Clone, Copy)]
pub struct Run<'a> {
    pub image: &'a str,
    pub options: &'a [String],
}

/// The name of the file of `check`.
#[derive(Clone, Copy)]
pub struct Check<'a> {
    pub source: &'a str,
}

#[derive(Clone, Copy)]
pub enum Command<'a> {
    Verify(Verify<'a>),
    Asm(Asm<'a>),
    Run(Run<'a>),
    Check(Check<'a>),
}

impl<'a> Command<'a> {
    /// The name of the file that the command may write.
    pub fn image_name(self) -> Option<&'a str>
        ensures { option_map (λ name. name.now) result ≡ cmd.image_name (command_of self.entry) }
    {
        match self {
            Command::Verify(verify) => Some(verify.image),
            Command::Asm(asm) => Some(asm.image),
            Command::Run(_) => None,
            Command::Check(_) => None,
        }
    }
}

/// Whether a word doesn't begin with `-`.
fn is_file_name(word: &str) -> bool
    ensures { IsTrue result ↔ cmd.IsFileName word.now }
{
    word.as_bytes().first() != Some(&b'-')
}

fn verify_of(words: &[String]) -> Option<Verify<'_>>
    ensures { MatchOption result ((source scripts image : List ℕ) → ¬ cmd.HasForm (words_of words.now) (cmd.Verify source scripts image)) (λ v. cmd.HasForm (words_of words.now) (verify_of v)) }
{
    match words {
        [command, source, scripts, image] => {
            let source = source.as_str();
            let scripts = scripts.as_str();
            let image = image.as_str();
            if command.as_str() == "verify"
                && is_file_name(source)
                && is_file_name(scripts)
                && is_file_name(image)
            {
                Some(Verify {
                    source,
                    scripts,
                    image,
                })
            } else {
                None
            }
        }
        _ => None,
    }
}

fn asm_of(words: &[String]) -> Option<Asm<'_>>
    ensures { MatchOption result ((source image : List ℕ) → ¬ cmd.HasForm (words_of words.now) (cmd.Asm source image)) (λ a. cmd.HasForm (words_of words.now) (asm_of a)) }
{
    match words {
        [command, source, image] => {
            let source = source.as_str();
            let image = image.as_str();
            if command.as_str() == "asm" && is_file_name(source) && is_file_name(image) {
                Some(Asm { source, image })
            } else {
                None
            }
        }
        _ => None,
    }
}

fn run_of(words: &[String]) -> Option<Run<'_>>
    ensures { MatchOption result ((image : List ℕ) (options : List (List ℕ)) → ¬ cmd.HasForm (words_of words.now) (cmd.Run image options)) (λ r. cmd.HasForm (words_of words.now) (run_of r)) }
{
    match words {
        [command, image, options @ ..] => {
            let image = image.as_str();
            if command.as_str() == "run" && is_file_name(image) && sp_run::is_in_form(options) {
                Some(Run { image, options })
            } else {
                None
            }
        }
        _ => None,
    }
}

fn check_of(words: &[String]) -> Option<Check<'_>>
    ensures { MatchOption result ((source : List ℕ) → ¬ cmd.HasForm (words_of words.now) (cmd.Check source))
        (λ c. cmd.HasForm (words_of words.now) (check_of c)) }
{
    match words {
        [command, source] => {
            let source = source.as_str();
            if command.as_str() == "check" && is_file_name(source) {
                Some(Check { source })
            } else {
                None
            }
        }
        _ => None,
    }
}

/// The command whose form the words have.
pub fn command_of(words: &[String]) -> Option<Command<'_>>
    ensures { MatchOption result (cmd.HasNoForm (words_of words.now)) (λ c. cmd.HasForm (words_of words.now) (command_of c)) }
{
    if let Some(verify) = verify_of(words) {
        return Some(Command::Verify(verify));
    }
    if let Some(asm) = asm_of(words) {
        return Some(Command::Asm(asm));
    }
    if let Some(run) = run_of(words) {
        return Some(Command::Run(run));
    }
    match check_of(words) {
        Some(check) => Some(Command::Check(check)),
        None => None,
    }
}
