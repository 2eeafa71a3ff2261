//! What a run does with what the words ask for.
ghost use Rattle.std.specs.Prelude.{◌≡◌, ◌<◌, None, IfSome, OnErr};
ghost use Rattle.std.specs.Option.{option_map};
ghost use Rattle.press_job.specs.Asked.{asked_of, asked_by, is_built, is_sample, source_of, setup_of, depth_of};
ghost use Rattle.press_job.specs.Code.Seen.{seen, seen_source};
ghost use Rattle.press_words.specs.Options.{options_of};
ghost use Rattle.press_words.specs.Code.Seen.{text_in};

use page_model::Depth;
use press_ports::Words;
use press_words::{Options, PageSize, WordsFault};
use ps_machine::Setup;

/// Where the text of the program comes from.
#[derive(Clone, Copy, Debug)]
pub(crate) enum Source<'a> {
    /// The file of this name.
    File(&'a str),
    /// The sample page of this number.
    Sample(u32),
}

/// What a run is asked for.
#[derive(Clone, Copy, Debug)]
pub(crate) struct Asked<'a> {
    /// The page in dots, with the dots of an inch.
    pub(crate) page: Setup,
    /// How many bits a sample of a page has.
    pub(crate) depth: Depth,
    /// The rows of a band, at least 1.
    pub(crate) band: u32,
    /// Where the text of the program comes from.
    pub(crate) source: Source<'a>,
    /// Whether the report line is wanted.
    pub(crate) report: bool,
}

impl<'a> Asked<'a> {
    /// Whether the program is a sample page.
    pub(crate) fn is_sample(&self) -> bool
        ensures { result ≡ is_sample (seen_source self.now.source) }
    {
        match self.source {
            Source::File(_) => false,
            Source::Sample(_) => true,
        }
    }
}

/// What the words ask for, `None` exactly where they aren't in the grammar or ask for what isn't built.
pub(crate) fn asked_of(words: &Words) -> Option<Asked<'_>>
    ensures value { option_map seen result ≡ asked_of words.now }
    ensures rows { IfSome result (λ asked. 0 < asked.band) }
{
    match Options::read(words) {
        Ok(options) => asked_by(&options),
        Err(WordsFault::Usage) => None,
    }
}

/// What options ask for, `None` where it isn't built.
fn asked_by<'a>(options: &Options<'a>) -> Option<Asked<'a>>
    ensures value { option_map seen result ≡ asked_by options.now }
    ensures rows { IfSome result (λ asked. 0 < asked.band) }
{
    if !is_built(options) {
        return None;
    }
    let source = source_of(options.sample, options.program)?;
    Some(Asked {
        page: setup_of(options.page),
        depth: depth_of(options.depth),
        band: options.band,
        source,
        report: options.report,
    })
}

/// Whether the options ask for no profile, by an option or by a name, and for no rehearsal.
fn is_built(options: &Options<'_>) -> bool
    ensures { result ≡ is_built options.now }
{
    options.output.is_none()
        && options.gray.is_none()
        && options.rgb.is_none()
        && options.cmyk.is_none()
        && options.rehearse.is_none()
        && options.named.as_slice().is_empty()
}

/// Where the text of the program comes from; the words name a sample page or a file.
fn source_of(sample: Option<u32>, program: Option<&str>) -> Option<Source<'_>>
    ensures { option_map seen_source result ≡ source_of sample (text_in program.entry) }
{
    match (sample, program) {
        (Some(n), _) => Some(Source::Sample(n)),
        (None, Some(name)) => Some(Source::File(name)),
        (None, None) => None,
    }
}

fn setup_of(page: PageSize) -> Setup
    ensures { result ≡ setup_of page }
{
    Setup {
        width: page.width,
        height: page.height,
        res: page.res,
    }
}

/// The depth of samples of so many bits, 8 or 16.
fn depth_of(bits: u8) -> Depth
    ensures { result ≡ depth_of bits }
{
    if bits == 16 {
        Depth::Sixteen
    } else {
        Depth::Eight
    }
}
