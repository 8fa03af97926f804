//! Parsing of the command line.

ghost use Rattle.std.specs.Prelude.{◌≡◌, IfOk, map, codes};
ghost use Rattle.std.specs.Prelude.{option_map, option_and_then, unwrap_or};
ghost use Rattle.std.specs.Prelude.{false, []};
ghost use Rattle.std.specs.String.{string_bytes};
ghost use Rattle.clap.specs.Words.{all_of, app_of, found_of, rows_of, rule_of};
ghost use Rattle.navconvert.specs.Commands.{IsCommand, ReadsWords, command_with};
ghost use Rattle.navconvert.specs.Commands.{files_rule, has_flag, name_rule, row_rule};
ghost use Rattle.navconvert.specs.Commands.{value_in};
ghost use Rattle.file_conversion.specs.Words.{kind_named, target_named};

use clap::builder::ValueParser;
use clap::{Arg, ArgAction, ArgMatches, Command, Error};
use file_conversion::{Target, kind_named, target_named};
use std::alloc::{AllocError, Global};
use whole_file::Kind;

/// What the arguments name.
#[derive(Drop)]
pub(crate) struct Asked<'a> {
    /// What the parser found.
    pub matches: ArgMatches<'a>,
}

impl<'a> Asked<'a> {
    /// The files, `-` for standard input.
    pub(crate) fn files(&self) -> Option<&[&'a str]>
        ensures { option_map (λ files. map (λ file. file.now) files.now) result
            ≡ all_of (codes "files") (rows_of (found_of self.now.matches)) }
    {
        self.matches.get_strs("files")
    }

    /// The format that `--from` names; `None` if each file tells its own.
    pub(crate) fn from(&self) -> Option<Kind>
        ensures { result ≡ option_and_then kind_named (value_in self.now (codes "from")) }
    {
        kind_named(self.value("from")?)
    }

    /// The target.
    pub(crate) fn to(&self) -> Target
        ensures { result ≡ unwrap_or (option_and_then target_named
            (value_in self.now (codes "to"))) Target.Rinex }
    {
        match self.value("to") {
            None => Target::Rinex,
            Some(word) => target_named(word).unwrap_or(Target::Rinex),
        }
    }

    /// The leap seconds of a header.
    pub(crate) fn leap(&self) -> &'a str
        ensures { result.now ≡ unwrap_or (value_in self.now (codes "leap")) (codes "18") }
    {
        self.value("leap").unwrap_or("18")
    }

    /// The value of an option.
    pub(crate) fn value(&self, name: &str) -> Option<&'a str>
        ensures { option_map (λ text. text.now) result ≡ value_in self.now name.now }
    {
        self.matches.get_str(name)
    }

    /// Whether a flag is given.
    pub(crate) fn has(&self, name: &str) -> bool
        ensures { result ≡ has_flag self.now name.now }
    {
        matches!(self.value(name), Some("true"))
    }
}

/// What the arguments ask for; they do not include the program's name.
///
/// # Errors
///
/// Help or the version was asked for, or the arguments are not valid: `print` writes the text to
/// standard output or standard error.
pub(crate) fn read_words<'a>(alloc: Global, words: &'a [String]) -> Result<Asked<'a>, Error>
    ensures { ReadsWords (map string_bytes words.now) result }
{
    match command_of(alloc) {
        Ok(command) => parsed(command, words),
        Err(AllocError) => Err(Error::from(AllocError)),
    }
}

// What this command finds in the words.
fn parsed<'a>(command: Command<'a>, words: &'a [String]) -> Result<Asked<'a>, Error>
    requires { IsCommand (app_of command) }
    ensures { ReadsWords (map string_bytes words.now) result }
{
    match command.try_get_matches_from(words) {
        Ok(matches) => Ok(Asked { matches }),
        Err(error) => Err(error),
    }
}

// An option: what a use of it does, what its value has to be, its defaults, and the names of its
// value.
struct Row {
    name: &'static str,
    short: Option<char>,
    action: ArgAction,
    parser: ValueParser<'static>,
    defaults: &'static [&'static str],
    values: &'static [&'static str],
    help: &'static str,
}

// An option with a text as its value.
const OPTION: Row = Row {
    name: "",
    short: None,
    action: ArgAction::Set,
    parser: ValueParser::String,
    defaults: &[],
    values: &[],
    help: "",
};

// An option without a value.
const FLAG: Row = Row {
    action: ArgAction::SetTrue,
    parser: ValueParser::Bool,
    ..OPTION
};

static OPTIONS: [Row; 15] = [
    Row {
        name: "from",
        short: Some('f'),
        parser: ValueParser::Names(&[
            "auto", "capture", "stream", "rinex", "rinex3", "rinex2", "ubx", "sbf",
        ]),
        defaults: &["auto"],
        values: &["FORMAT"],
        help: "The format of the files; auto recognises it by their content",
        ..OPTION
    },
    Row {
        name: "to",
        short: Some('t'),
        parser: ValueParser::Names(&[
            "rinex", "rinex3", "rtcm", "list", "count", "frames", "merged", "merged3", "cover",
            "capture",
        ]),
        defaults: &["rinex"],
        values: &["FORMAT"],
        help: "The format of the outputs",
        ..OPTION
    },
    Row {
        name: "output",
        short: Some('o'),
        values: &["OUT"],
        help: "The output: a file, a directory, or - for standard output",
        ..OPTION
    },
    Row {
        name: "week",
        parser: ValueParser::Signed(1024, 8191),
        values: &["WEEK"],
        help: "A GPS week near the data; by default that of the clock",
        ..OPTION
    },
    Row {
        name: "leap",
        parser: ValueParser::Signed(0, 99),
        values: &["SECONDS"],
        help: "The leap seconds of a header; by default those of the files, or 18",
        ..OPTION
    },
    Row {
        name: "date",
        values: &["DATE"],
        help: "The date of a header, as \"20240101 000000 UTC\"",
        ..OPTION
    },
    Row {
        name: "long-name",
        values: &["SITE"],
        help: "Name outputs by the convention of RINEX 3, with this site and the times in the data",
        ..OPTION
    },
    Row {
        name: "report",
        values: &["FILE"],
        help: "A new file for reports: each rejection, and counts",
        ..OPTION
    },
    Row {
        name: "overwrite",
        help: "Replace existing files",
        ..FLAG
    },
    Row {
        name: "quiet",
        short: Some('q'),
        help: "Print errors only",
        ..FLAG
    },
    Row {
        name: "dry-run",
        short: Some('n'),
        help: "Print the command that does the same, of navbridge where it can, and do nothing",
        ..FLAG
    },
    Row {
        name: "check",
        help: "Only check the files: print each rejection, and write no output",
        ..FLAG
    },
    Row {
        name: "json",
        help: "Print one JSON object for each file",
        ..FLAG
    },
    Row {
        name: "list-forms",
        help: "List the formats, and do nothing",
        ..FLAG
    },
    Row {
        name: "diff",
        help: "Compare two navigation files, as diff does; write what differs",
        ..FLAG
    },
];

// The command.
fn command_of<'a>(alloc: Global) -> Result<Command<'a>, AllocError>
    ensures { IfOk result (λ command. IsCommand (app_of command)) }
{
    with_rows(alloc, OPTIONS.as_slice())
}

// The files.
fn files_of<'a>(alloc: Global) -> Arg<'a>
    ensures rule { rule_of result ≡ files_rule }
    ensures local { result.global ≡ false }
{
    Arg::new(alloc, "files")
        .value_name("FILE")
        .help("Input files; - is standard input")
        .num_args(1..)
}

// The command without its options.
fn bare_command<'a>(alloc: Global) -> Result<Command<'a>, AllocError>
    ensures { IfOk result (λ command. app_of command ≡ command_with []) }
{
    Command::new(alloc, "navconvert")
        .no_binary_name(true)
        .version("2.0.0")
        .about("Converts files of GNSS broadcast orbits")
        .arg(files_of(alloc))
}

// The command with options of these rows.
fn with_rows<'a>(alloc: Global, rows: &[Row]) -> Result<Command<'a>, AllocError>
    ensures { IfOk result (λ command. app_of command ≡ command_with (map row_rule rows.now)) }
{
    let bare = bare_command(alloc)?;
    let mut command = bare;
    for row in rows {
        command = command.arg(option_of(alloc, row))?;
    }
    Ok(command)
}

// An option.
fn option_of<'a>(alloc: Global, row: &Row) -> Arg<'a>
    ensures rule { rule_of result ≡ row_rule row.now }
    ensures local { result.global ≡ false }
{
    named_option(alloc, row)
        .action(row.action)
        .value_names(row.values)
        .value_parser(row.parser)
        .default_values(row.defaults)
        .help(row.help)
}

// An option that has its names alone.
fn named_option<'a>(alloc: Global, row: &Row) -> Arg<'a>
    ensures rule { rule_of result ≡ name_rule row.now }
    ensures local { result.global ≡ false }
{
    let arg = Arg::new(alloc, row.name).long(row.name);
    match row.short {
        None => arg,
        Some(short) => arg.short(short),
    }
}
