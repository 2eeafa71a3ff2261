//! The options of the command line: their names, what values they take, and what they have chosen.
ghost use Rattle.std.specs.Prelude.{◌≡◌, IfSome};
ghost use Rattle.std.specs.Option.{option_map};
ghost use Rattle.press_words.specs.Choices.{option_of, no_choices, once, chosen_with, reported};
ghost use Rattle.press_words.specs.Code.Seen.{chosen_so_far, AreInRange};

use crate::lexing::{depth, file, number_from, sides};

/// An option.
#[derive(Clone, Copy, Debug, PartialEq, Eq)]
pub(crate) enum Choice {
    /// `--size WxH`: the sides of the page in points of 1/72 inch.
    Size,
    /// `--res N`: the dots of an inch.
    Res,
    /// `--band N`: the rows of a band.
    Band,
    /// `--workers N`: the threads that draw.
    Workers,
    /// `--cache N`: the links that are kept.
    Cache,
    /// `--intent N`: the rendering intent.
    Intent,
    /// `--output FILE`: the output profile.
    Output,
    /// `--gray FILE`: the default profile of gray.
    Gray,
    /// `--rgb FILE`: the default profile of red, green and blue.
    Rgb,
    /// `--cmyk FILE`: the default profile of cyan, magenta, yellow and black.
    Cmyk,
    /// `--report`: a line that says what was counted.
    Report,
    /// `--sample N`: a sample page in place of a program.
    Sample,
    /// `--rehearse N`: the schedule of a rehearsal.
    Rehearse,
    /// `--depth N`: the bits of a sample of the page.
    Depth,
}

/// What the options have chosen so far.
#[derive(Clone, Copy, Debug)]
pub(crate) struct Choices<'a> {
    pub(crate) size: Option<(u32, u32)>,
    pub(crate) res: Option<u32>,
    pub(crate) band: Option<u32>,
    pub(crate) workers: Option<u32>,
    pub(crate) cache: Option<u32>,
    pub(crate) intent: Option<u8>,
    pub(crate) output: Option<&'a str>,
    pub(crate) gray: Option<&'a str>,
    pub(crate) rgb: Option<&'a str>,
    pub(crate) cmyk: Option<&'a str>,
    pub(crate) report: bool,
    pub(crate) sample: Option<u32>,
    pub(crate) rehearse: Option<u32>,
    pub(crate) depth: Option<u8>,
}

/// The option of a name.
pub(crate) fn option_of(name: &str) -> Option<Choice>
    ensures { result ≡ option_of name.now }
{
    match name {
        "--size" => Some(Choice::Size),
        "--res" => Some(Choice::Res),
        "--band" => Some(Choice::Band),
        "--workers" => Some(Choice::Workers),
        "--cache" => Some(Choice::Cache),
        "--intent" => Some(Choice::Intent),
        "--output" => Some(Choice::Output),
        "--gray" => Some(Choice::Gray),
        "--rgb" => Some(Choice::Rgb),
        "--cmyk" => Some(Choice::Cmyk),
        "--report" => Some(Choice::Report),
        "--sample" => Some(Choice::Sample),
        "--rehearse" => Some(Choice::Rehearse),
        "--depth" => Some(Choice::Depth),
        _ => None,
    }
}

impl<'a> Choices<'a> {
    /// Nothing is chosen yet.
    pub(crate) fn none() -> Choices<'a>
        ensures value { chosen_so_far result ≡ no_choices }
        ensures bounds { AreInRange result }
    {
        Choices {
            size: None,
            res: None,
            band: None,
            workers: None,
            cache: None,
            intent: None,
            output: None,
            gray: None,
            rgb: None,
            cmyk: None,
            report: false,
            sample: None,
            rehearse: None,
            depth: None,
        }
    }

    /// What is chosen once an option has its value; nothing where it was given before, or the value is none of its.
    pub(crate) fn with(self, choice: Choice, value: &'a str) -> Option<Choices<'a>>
        requires { AreInRange self }
        ensures value { option_map chosen_so_far result ≡ chosen_with choice value.now (chosen_so_far self.entry) }
        ensures bounds { IfSome result AreInRange }
    {
        match choice {
            Choice::Size if self.size.is_none() => Some(Choices {
                size: Some(sides(value)?),
                ..self
            }),
            Choice::Res if self.res.is_none() => Some(Choices {
                res: Some(number_from(value, 1, 2400)?),
                ..self
            }),
            Choice::Band if self.band.is_none() => Some(Choices {
                band: Some(number_from(value, 1, 16_384)?),
                ..self
            }),
            Choice::Workers if self.workers.is_none() => Some(Choices {
                workers: Some(number_from(value, 0, 16)?),
                ..self
            }),
            Choice::Cache if self.cache.is_none() => Some(Choices {
                cache: Some(number_from(value, 1, 64)?),
                ..self
            }),
            Choice::Intent if self.intent.is_none() => Some(Choices {
                intent: Some(number_from(value, 0, 2)? as u8),
                ..self
            }),
            Choice::Output if self.output.is_none() => Some(Choices {
                output: Some(file(value)?),
                ..self
            }),
            Choice::Gray if self.gray.is_none() => Some(Choices {
                gray: Some(file(value)?),
                ..self
            }),
            Choice::Rgb if self.rgb.is_none() => Some(Choices {
                rgb: Some(file(value)?),
                ..self
            }),
            Choice::Cmyk if self.cmyk.is_none() => Some(Choices {
                cmyk: Some(file(value)?),
                ..self
            }),
            Choice::Sample if self.sample.is_none() => Some(Choices {
                sample: Some(number_from(value, 0, u32::MAX)?),
                ..self
            }),
            Choice::Rehearse if self.rehearse.is_none() => Some(Choices {
                rehearse: Some(number_from(value, 0, u32::MAX)?),
                ..self
            }),
            Choice::Depth if self.depth.is_none() => Some(Choices {
                depth: Some(depth(value)?),
                ..self
            }),
            _ => None,
        }
    }

    /// What is chosen once a report is asked for; nothing where it was before.
    pub(crate) fn reported(self) -> Option<Choices<'a>>
        requires { AreInRange self }
        ensures value { option_map chosen_so_far result ≡ reported (chosen_so_far self.entry) }
        ensures bounds { IfSome result AreInRange }
    {
        if self.report {
            None
        } else {
            Some(Choices {
                report: true,
                ..self
            })
        }
    }
}
