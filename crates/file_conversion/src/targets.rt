//! The arguments and the file name endings of formats and targets.

ghost use Rattle.std.specs.Prelude.{◌≡◌};
ghost use Rattle.file_conversion.specs.Words.{ending_of, kind_named, target_named, to_word};

use whole_file::Kind;

/// The format that is written.
#[derive(Clone, Copy, PartialEq, Eq)]
pub enum Target {
    /// A navigation file of RINEX 4.
    Rinex,
    /// A navigation file of RINEX 3.
    Rinex3,
    /// Frames of RTCM 3.
    Rtcm,
    /// A list of the ephemerides.
    List,
    /// Counts.
    Count,
    /// A line for each frame.
    Frames,
    /// One navigation file of RINEX 4 merged from several.
    Merged,
    /// One of RINEX 3 merged from several.
    Merged3,
    /// The times for which there is an ephemeris.
    Cover,
    /// A capture.
    Capture,
}

impl Target {
    /// All of them: those of a file, and then those of several.
    pub const ALL: [Target; 10] = [
        Target::Rinex,
        Target::Rinex3,
        Target::Rtcm,
        Target::List,
        Target::Count,
        Target::Frames,
        Target::Capture,
        Target::Merged,
        Target::Merged3,
        Target::Cover,
    ];

    /// Whether several files make one output of it.
    pub fn takes_several(self) -> bool {
        matches!(self, Target::Merged | Target::Merged3 | Target::Cover)
    }
}

/// The value of `--to` for a target.
pub fn to_word(target: Target) -> &'static str
    ensures { result.now ≡ to_word target }
{
    match target {
        Target::Rinex => "rinex",
        Target::Rinex3 => "rinex3",
        Target::Rtcm => "rtcm",
        Target::List => "list",
        Target::Count => "count",
        Target::Frames => "frames",
        Target::Merged => "merged",
        Target::Merged3 => "merged3",
        Target::Cover => "cover",
        Target::Capture => "capture",
    }
}

/// The ending of the names of files of a target.
pub fn ending_of(target: Target) -> &'static str
    ensures { result.now ≡ ending_of target }
{
    match target {
        Target::Rinex | Target::Rinex3 => "rnx",
        Target::Rtcm => "rtcm3",
        Target::Merged | Target::Merged3 => "merged.rnx",
        Target::Capture => "navcap",
        Target::List | Target::Count | Target::Frames | Target::Cover => to_word(target),
    }
}

/// The target that a value of `--to` names.
pub fn target_named(word: &str) -> Option<Target>
    ensures { result ≡ target_named word.now }
{
    match word {
        "rinex" => Some(Target::Rinex),
        "rinex3" => Some(Target::Rinex3),
        "rtcm" => Some(Target::Rtcm),
        "list" => Some(Target::List),
        "count" => Some(Target::Count),
        "frames" => Some(Target::Frames),
        "merged" => Some(Target::Merged),
        "merged3" => Some(Target::Merged3),
        "cover" => Some(Target::Cover),
        "capture" => Some(Target::Capture),
        _ => None,
    }
}

/// The format that a value of `--from` names; `capture` is taken as one that names no week.
pub fn kind_named(word: &str) -> Option<Kind>
    ensures { result ≡ kind_named word.now }
{
    match word {
        "capture" => Some(Kind::Capture1),
        "stream" => Some(Kind::Stream),
        "rinex" => Some(Kind::Rinex4),
        "rinex3" => Some(Kind::Rinex3),
        "rinex2" => Some(Kind::Rinex2),
        "ubx" => Some(Kind::Ubx),
        "sbf" => Some(Kind::Sbf),
        _ => None,
    }
}
