//! What the words of the command line ask for.
ghost use Rattle.std.specs.Prelude.{◌≡◌, ◌≤◌, ◌<◌, ◌*◌, Some, None, IfOk, IsSome, [], ◌∷◌, ◌++◌, length, map};
ghost use Rattle.std.specs.Option.{option_map};
ghost use Rattle.press_words.specs.Values.{named_file_of};
ghost use Rattle.press_words.specs.Grammar.{read};
ghost use Rattle.press_words.specs.Options.{dots_of, page_within, page_of, page_chosen, name_next, named_in};
ghost use Rattle.press_words.specs.Options.{is_complete, program_in, settled, options_with, options_of};
ghost use Rattle.std.specs.List.{list_any};
ghost use Rattle.std.specs.Str.{bytes_eq};
ghost use Rattle.press_words.specs.Code.Seen.{text_in, seen_file, chosen_so_far, AreInRange};

use crate::choosing::Choices;
use crate::lexing::{at_equals, file, is_name};
use crate::reading::{Next, Reading};
use arrayvec::ArrayVec;
use press_ports::Words;
use std::marker::Model;

/// Why no options were read.
#[derive(Clone, Copy, Debug, PartialEq, Eq)]
pub enum WordsFault {
    /// The words aren't in the grammar.
    Usage,
}

/// A page in dots, with the dots of an inch. A side has 1 to 16,384 dots and the page at most 67,108,864; there are 1
/// to 2,400 dots an inch.
#[derive(Clone, Copy, Debug, PartialEq, Eq)]
pub struct PageSize {
    pub width: u32,
    pub height: u32,
    pub res: u32,
}

impl Model for PageSize {
    ghost use Rattle.press_words.specs.Options.{PageSizeValue};
    ghost use Rattle.press_words.specs.Code.Seen.{IsPageSize};

    ghost Value = { PageSizeValue };

    ghost view = { λ p. record { width = p.width; height = p.height; res = p.res } };

    ghost invariant = { λ p. IsPageSize p.width p.height p.res };

    ghost inverse = { λ v. record { width = v.width; height = v.height; res = v.res } };
}

/// A named profile: its name, by which a program asks for it, and its file.
#[derive(Clone, Copy, Debug, Default, PartialEq, Eq)]
pub struct NamedFile<'a> {
    pub name: &'a str,
    pub file: &'a str,
}

/// What the words of the command line ask for. The texts are those of the words.
#[derive(Drop)]
pub struct Options<'a> {
    /// The width and the height of the page, in points of 1/72 inch.
    pub size: (u32, u32),
    /// The page in dots.
    pub page: PageSize,
    /// The rows of a band, 1 to 16,384.
    pub band: u32,
    /// The threads that draw, at most 16; with 0 the calling thread does.
    pub workers: u32,
    /// The links that are kept, 1 to 64.
    pub cache: u32,
    /// The rendering intent, at most 2.
    pub intent: u8,
    /// The file of the output profile.
    pub output: Option<&'a str>,
    /// The file of the default profile of gray.
    pub gray: Option<&'a str>,
    /// The file of the default profile of red, green and blue.
    pub rgb: Option<&'a str>,
    /// The file of the default profile of cyan, magenta, yellow and black.
    pub cmyk: Option<&'a str>,
    /// The file of the program; none with a sample page.
    pub program: Option<&'a str>,
    /// Whether the report line is wanted.
    pub report: bool,
    /// The number of the sample page that stands in place of a program.
    pub sample: Option<u32>,
    /// The number of the schedule of a rehearsal.
    pub rehearse: Option<u32>,
    /// The named profiles in the order of the words, at most 16, with distinct names.
    pub named: ArrayVec<NamedFile<'a>, 16>,
    /// The bits of a sample of the page, 8 or 16.
    pub depth: u8,
}

impl<'a> Model for Options<'a> {
    ghost use Rattle.std.specs.Prelude.{map, ◌≤◌};
    ghost use Rattle.press_words.specs.Options.{OptionsValue};
    ghost use Rattle.press_words.specs.Code.Seen.{text_in, seen_file};

    ghost Value = { OptionsValue };

    ghost invariant = { λ o. 1 ≤ o.band };

    ghost view = { λ o. record {
      size = o.size;
      page = o.page;
      band = o.band;
      workers = o.workers;
      cache = o.cache;
      intent = o.intent;
      output = text_in o.output;
      gray = text_in o.gray;
      rgb = text_in o.rgb;
      cmyk = text_in o.cmyk;
      program = text_in o.program;
      report = o.report;
      sample = o.sample;
      rehearse = o.rehearse;
      named = map seen_file o.named.items;
      depth = o.depth;
    } };
}

/// The size of a page, in points, where the words tell none.
const SIZE: (u32, u32) = (612, 792);

/// The dots of an inch, where the words tell none.
const RES: u32 = 72;

impl<'a> Options<'a> {
    /// What the words ask for. `Usage` comes exactly where the words aren't in the grammar. No memory is taken.
    #[tactic(auto, unfolding(crate::specs::Options::options_of))]
    pub fn read(words: &'a Words) -> Result<Options<'a>, WordsFault>
        ensures ok { IfOk result (λ options. options_of words.now ≡ Some options) }
        ensures usage { result ≡ Err WordsFault.Usage → options_of words.now ≡ None }
    {
        let reading = read_all(words)?;
        settled(&reading)
    }
}

/// What is read of all words.
#[tactic(auto, unfolding(crate::specs::Grammar::read))]
fn read_all<'a>(words: &'a Words) -> Result<Reading<'a>, WordsFault>
    ensures ok { IfOk result (λ reading. read words.now ≡ Some reading) }
    ensures usage { result ≡ Err WordsFault.Usage → read words.now ≡ None }
{
    let mut reading = Reading::new();
    for word in words.items() {
        reading.read_word(word.as_str())?;
    }
    Ok(reading)
}

/// What words that were read ask for.
fn settled<'a>(reading: &Reading<'a>) -> Result<Options<'a>, WordsFault>
    ensures ok { IfOk result (λ options. settled reading.now ≡ Some options) }
    ensures usage { result ≡ Err WordsFault.Usage → settled reading.now ≡ None }
{
    if !is_complete(reading.next) {
        return Err(WordsFault::Usage);
    }
    let Some((program, words)) = program_in(
        reading.chosen.sample.is_some(),
        reading.positionals.as_slice(),
    ) else {
        return Err(WordsFault::Usage);
    };
    let Some(page) = page_chosen(&reading.chosen) else {
        return Err(WordsFault::Usage);
    };
    let named = named_in(words)?;
    Ok(options_with(&reading.chosen, page, program, named))
}

/// Whether no option waits for its value.
fn is_complete(next: Next) -> bool
    ensures { result ≡ is_complete next }
{
    match next {
        Next::Any => true,
        Next::ValueOf(_) => false,
        Next::Positional => true,
    }
}

/// The program, and the words behind it. With a sample page there is no program.
fn program_in<'a, 'b>(
    is_sample: bool,
    words: &'b [&'a str],
) -> Option<(Option<&'a str>, &'b [&'a str])>
    ensures { option_map (λ parts. (text_in parts.0, map (λ word. word.now) parts.1.now)) result
        ≡ program_in is_sample (map (λ word. word.now) words.now) }
{
    if is_sample {
        return Some((None, words));
    }
    match words {
        [] => None,
        [program, rest @ ..] => Some((Some(file(program)?), rest)),
    }
}

/// The page that was chosen.
fn page_chosen(chosen: &Choices<'_>) -> Option<PageSize>
    requires { AreInRange chosen.now }
    ensures { result ≡ page_chosen (chosen_so_far chosen.now) }
{
    page_of(chosen.size.unwrap_or(SIZE), chosen.res.unwrap_or(RES))
}

/// The page of these sides in points and dots of an inch.
fn page_of(sides: (u32, u32), res: u32) -> Option<PageSize>
    requires width { sides.0 ≤ 14400 }
    requires height { sides.1 ≤ 14400 }
    requires some { 1 ≤ res }
    requires most { res ≤ 2400 }
    ensures { result ≡ page_of sides res }
{
    page_within(dots(sides.0, res), dots(sides.1, res), res)
}

/// So many points in dots, rounded to the nearest, and at least one.
fn dots(points: u32, res: u32) -> u32
    requires points { points ≤ 14400 }
    requires res { res ≤ 2400 }
    ensures { result ≡ dots_of points res }
{
    ((2 * (points * res) + 72) / 144).max(1)
}

fn page_within(width: u32, height: u32, res: u32) -> Option<PageSize>
    requires some { 1 ≤ res }
    requires most { res ≤ 2400 }
    ensures { result ≡ page_within width height res }
{
    if width <= 16_384 && height <= 16_384 && width * height <= 67_108_864 {
        Some(PageSize { width, height, res })
    } else {
        None
    }
}

/// The named profiles of these words.
#[tactic(auto, unfolding(crate::specs::Options::named_in))]
fn named_in<'a>(words: &[&'a str]) -> Result<ArrayVec<NamedFile<'a>, 16>, WordsFault>
    ensures ok { IfOk result (λ named. named_in (map (λ word. word.now) words.now) ≡ Some (map seen_file named.items)) }
    ensures usage { result ≡ Err WordsFault.Usage → named_in (map (λ word. word.now) words.now) ≡ None }
{
    let mut named = ArrayVec::new();
    for word in words {
        let Some(file) = named_after(named.as_slice(), word) else {
            return Err(WordsFault::Usage);
        };
        named.push(file);
    }
    Ok(named)
}

/// The named profile of a word, where there is room for it and its name is new.
fn named_after<'a>(named: &[NamedFile<'_>], word: &'a str) -> Option<NamedFile<'a>>
    ensures value { option_map (λ file. map seen_file named.now ++ seen_file file ∷ []) result
        ≡ name_next (Some (map seen_file named.now)) word.now }
    ensures room { IsSome result → length named.now < 16 }
{
    let file = named_file(word)?;
    if named.len() < 16 && !is_taken(named, file.name) {
        Some(file)
    } else {
        None
    }
}

/// Whether a name stands among these.
fn is_taken(named: &[NamedFile<'_>], name: &str) -> bool
    ensures { result ≡ list_any (λ other. bytes_eq other.name name.now) (map seen_file named.now) }
{
    any_has(named, name)
}

fn any_has(named: &[NamedFile<'_>], name: &str) -> bool
    ensures { result ≡ list_any (λ other. bytes_eq other.name.now name.now) named.now }
{
    named.iter().any(|other| has_name(other, name))
}

fn has_name(other: &NamedFile<'_>, name: &str) -> bool
    ensures { result ≡ bytes_eq other.now.name.now name.now }
{
    other.name == name
}

/// The name and the file of a word such as `camera=camera.icc`.
fn named_file(word: &str) -> Option<NamedFile<'_>>
    ensures { option_map seen_file result ≡ named_file_of word.now }
{
    let (name, file) = at_equals(word)?;
    if is_name(name.as_bytes()) && !file.is_empty() {
        Some(NamedFile { name, file })
    } else {
        None
    }
}

/// What was chosen, with the defaults where nothing was.
fn options_with<'a>(
    chosen: &Choices<'a>,
    page: PageSize,
    program: Option<&'a str>,
    named: ArrayVec<NamedFile<'a>, 16>,
) -> Options<'a>
    requires { AreInRange chosen.now }
    ensures { result ≡ options_with (chosen_so_far chosen.now) page (text_in program.entry)
        (map seen_file named.entry.items) }
{
    Options {
        size: chosen.size.unwrap_or(SIZE),
        page,
        band: chosen.band.unwrap_or(64),
        workers: chosen.workers.unwrap_or(4),
        cache: chosen.cache.unwrap_or(8),
        intent: chosen.intent.unwrap_or(0),
        output: chosen.output,
        gray: chosen.gray,
        rgb: chosen.rgb,
        cmyk: chosen.cmyk,
        program,
        report: chosen.report,
        sample: chosen.sample,
        rehearse: chosen.rehearse,
        named,
        depth: chosen.depth.unwrap_or(8),
    }
}
