//! The words, one after the other.
ghost use Rattle.std.specs.Prelude.{◌≡◌, ◌≢◌, Some, None, OnOk, IfOk, IfSome};
ghost use Rattle.std.specs.Option.{option_map};
ghost use Rattle.press_words.specs.Grammar.{is_bare, form_of, read_word, with_positional, with_form, with_option};
ghost use Rattle.press_words.specs.Grammar.{chose, no_words};
ghost use Rattle.press_words.specs.Code.Seen.{seen_form, chosen_so_far, AreInRange};

use crate::choosing::{Choice, Choices, option_of};
use crate::lexing::at_equals;
use crate::options::WordsFault;
use arrayvec::ArrayVec;
use std::marker::Model;

/// What may come next.
#[derive(Clone, Copy, Debug, PartialEq, Eq)]
pub(crate) enum Next {
    /// Any word.
    Any,
    /// The value of an option.
    ValueOf(Choice),
    /// Positional words alone: the options have ended.
    Positional,
}

/// What a word is by its form.
#[derive(Clone, Copy, Debug)]
enum Form<'a> {
    /// A positional word, or a value.
    Bare,
    /// `--`, behind which every word is positional.
    Ender,
    /// `--x`.
    Named(&'a str),
    /// `--x=v`.
    Given(&'a str, &'a str),
}

/// How far the words are read.
#[derive(Drop)]
pub(crate) struct Reading<'a> {
    pub(crate) chosen: Choices<'a>,
    pub(crate) positionals: ArrayVec<&'a str, 17>,
    pub(crate) next: Next,
}

impl<'a> Model for Reading<'a> {
    ghost use Rattle.std.specs.Prelude.{map};
    ghost use Rattle.press_words.specs.Grammar.{ReadingValue};
    ghost use Rattle.press_words.specs.Code.Seen.{chosen_so_far, AreInRange};

    ghost Value = { ReadingValue };

    ghost view = { λ r. record {
      chosen = chosen_so_far r.chosen;
      positionals = map (λ word. word.now) r.positionals.items;
      next = r.next;
    } };

    ghost invariant = { λ r. AreInRange r.chosen };
}

/// Whether a word is a dash alone, or doesn't begin with a dash.
fn is_bare(word: &[u8]) -> bool
    ensures { result ≡ is_bare word.now }
{
    match word {
        [] => true,
        [_] => true,
        [first, ..] => *first != b'-',
    }
}

fn form_of(word: &str) -> Form<'_>
    ensures { seen_form result ≡ form_of word.now }
{
    if is_bare(word.as_bytes()) {
        return Form::Bare;
    }
    if word == "--" {
        return Form::Ender;
    }
    match at_equals(word) {
        None => Form::Named(word),
        Some((name, value)) => Form::Given(name, value),
    }
}

impl<'a> Reading<'a> {
    /// Nothing is read yet.
    pub(crate) fn new() -> Reading<'a>
        ensures { result ≡ no_words }
    {
        Reading {
            chosen: Choices::none(),
            positionals: ArrayVec::new(),
            next: Next::Any,
        }
    }

    /// One more word. A refusal leaves what was read good for nothing.
    pub(crate) fn read_word(&mut self, word: &'a str) -> Result<(), WordsFault>
        ensures ok { OnOk result (read_word self.old word.now ≡ Some self.new) }
        ensures usage { result ≡ Err WordsFault.Usage → read_word self.old word.now ≡ None }
    {
        match self.next {
            Next::Any => self.read_form(form_of(word), word),
            Next::ValueOf(choice) => {
                if is_bare(word.as_bytes()) {
                    self.choose(self.chosen.with(choice, word))
                } else {
                    Err(WordsFault::Usage)
                }
            }
            Next::Positional => self.add_positional(word),
        }
    }

    /// A word where any may come.
    fn read_form(&mut self, form: Form<'a>, word: &'a str) -> Result<(), WordsFault>
        ensures ok { OnOk result (with_form (seen_form form.entry) word.now self.old ≡ Some self.new) }
        ensures usage { result ≡ Err WordsFault.Usage → with_form (seen_form form.entry) word.now self.old ≡ None }
    {
        match form {
            Form::Bare => self.add_positional(word),
            Form::Ender => {
                self.next = Next::Positional;
                Ok(())
            }
            Form::Named(name) => self.name_option(option_of(name)),
            Form::Given(name, value) => self.give_option(option_of(name), value),
        }
    }

    /// One more positional word, where there is room for it.
    fn add_positional(&mut self, word: &'a str) -> Result<(), WordsFault>
        ensures ok { OnOk result (with_positional word.now self.old ≡ Some self.new) }
        ensures usage { result ≡ Err WordsFault.Usage → with_positional word.now self.old ≡ None }
    {
        match self.positionals.try_push(word) {
            Ok(()) => Ok(()),
            Err(_) => Err(WordsFault::Usage),
        }
    }

    /// An option without a value in its word: its value comes next, but a report takes none.
    fn name_option(&mut self, choice: Option<Choice>) -> Result<(), WordsFault>
        ensures ok { OnOk result (with_option choice None self.old ≡ Some self.new) }
        ensures usage { result ≡ Err WordsFault.Usage → with_option choice None self.old ≡ None }
    {
        match choice {
            None => Err(WordsFault::Usage),
            Some(Choice::Report) => self.choose(self.chosen.reported()),
            Some(choice) => {
                self.next = Next::ValueOf(choice);
                Ok(())
            }
        }
    }

    /// An option with its value in its word.
    fn give_option(&mut self, choice: Option<Choice>, value: &'a str) -> Result<(), WordsFault>
        ensures ok { OnOk result (with_option choice (Some value.now) self.old ≡ Some self.new) }
        ensures usage { result ≡ Err WordsFault.Usage → with_option choice (Some value.now) self.old ≡ None }
    {
        match choice {
            None => Err(WordsFault::Usage),
            Some(choice) => self.choose(self.chosen.with(choice, value)),
        }
    }

    /// What was chosen with an option more; a refusal where there is none.
    fn choose(&mut self, chosen: Option<Choices<'a>>) -> Result<(), WordsFault>
        requires { IfSome chosen AreInRange }
        ensures ok { OnOk result (chose self.old (option_map chosen_so_far chosen.entry) ≡ Some self.new) }
        ensures usage { result ≡ Err WordsFault.Usage → chose self.old (option_map chosen_so_far chosen.entry) ≡ None }
    {
        let Some(chosen) = chosen else {
            return Err(WordsFault::Usage);
        };
        self.chosen = chosen;
        self.next = Next::Any;
        Ok(())
    }
}
