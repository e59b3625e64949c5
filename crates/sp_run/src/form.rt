ghost use Rattle.std.specs.Prelude.{◌≡◌, ◌∷◌, [], ℕ, List, None, true, false, is_some};
ghost use Rattle.sp_run.specs.Words.{words_of};
ghost use Rattle.sp_run.specs.Options.{options_of};
ghost use Rattle.sp_run.specs.Form.{admits, fits};

use crate::names::{OptionName, alone, joined};
use crate::targets::setting_of;
use crate::values::{count_value, word_value};

/// What was read of the option words so far.
#[derive(Clone, Copy, Debug)]
pub struct Reader {
    /// The option whose value the next word is.
    due: Option<OptionName>,
    has_pc: bool,
    has_steps: bool,
}

impl Reader {
    /// Takes the value of an option. False where it has no such value, or stands a second time.
    fn take_value(&mut self, name: OptionName, value: &[u8]) -> bool
        ensures due { self.new.due ≡ None }
        ensures taken { result ≡ true → (given : List (OptionName × List ℕ)) → fits self.new.has_pc self.new.has_steps given ≡ fits self.old.has_pc self.old.has_steps ((name, value.now) ∷ given) }
        ensures refused { result ≡ false → (given : List (OptionName × List ℕ)) → fits self.old.has_pc self.old.has_steps ((name, value.now) ∷ given) ≡ false }
    {
        self.due = None;
        match name {
            OptionName::Pc => {
                let again = self.has_pc;
                self.has_pc = true;
                !again && word_value(value).is_some()
            }
            OptionName::Steps => {
                let again = self.has_steps;
                self.has_steps = true;
                !again && count_value(value).is_some()
            }
            OptionName::Set => setting_of(value).is_some(),
        }
    }

    /// Takes the next word. False where it is in no form.
    fn take(&mut self, word: &[u8]) -> bool
        ensures taken { result ≡ true → (words : List (List ℕ)) → admits self.new words ≡ admits self.old (word.now ∷ words) }
        ensures refused { result ≡ false → (words : List (List ℕ)) → admits self.old (word.now ∷ words) ≡ false }
    {
        if let Some(name) = self.due {
            return self.take_value(name, word);
        }
        if let Some(name) = alone(word) {
            self.due = Some(name);
            return true;
        }
        match joined(word) {
            Some((name, value)) => self.take_value(name, value),
            None => false,
        }
    }
}

/// Whether words are in the form of option words: `--pc V` or `--pc=V` at most once, `--steps V` or `--steps=V` at
/// most once, and `--set X=V` any number of times. It takes no memory.
pub fn is_in_form(words: &[String]) -> bool
    ensures { result ≡ is_some (options_of (words_of words.now)) }
{
    let mut reader = Reader {
        due: None,
        has_pc: false,
        has_steps: false,
    };
    for word in words {
        if !reader.take(word.as_str().as_bytes()) {
            return false;
        }
    }
    reader.due.is_none()
}
