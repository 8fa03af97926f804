//! Theorems about what is written of a stream: each is the contract of a function that does
//! nothing.

ghost use Rattle.std.specs.Prelude.{◌≡◌, ℕ, List, ◌++◌};
ghost use Rattle.std.specs.List.{flat_map};
ghost use Rattle.nav_io.specs.Prefix.{IsPrefix};
ghost use Rattle.nav_eph.specs.declared.items.NavItem.{NavItem};
ghost use Rattle.rinex_write.specs.Texts.{rinex_text};
ghost use Rattle.rinex_write.specs.Texts3.{rinex3_text};
ghost use Rattle.rinex_write.specs.declared.words.HeaderWords.{HeaderWords};
ghost use Rattle.streams.specs.ItemTexts.{rtcm_item};
ghost use Rattle.streams.specs.Streams.{flushed_output_by, flushed_readings, readings_report};
ghost use Rattle.streams.specs.Streams.{stream_list, stream_meaning};
ghost use Rattle.streams.specs.Streams.{stream_output_by, stream_report};
ghost use Rattle.streams.specs.declared.stream_target.StreamTo.TheVariants as streams;

use framing::decided_frames_stay;

/// What a run writes of a stream is the text of the list of its items.
pub fn what_is_written_of_a_stream_is_the_text_of_its_list()
    ensures rinex { (words : HeaderWords) (r : ℕ) (bytes : List ℕ)
        → (stream_meaning (streams.Rinex words) r).whole.output bytes
        ≡ rinex_text words (stream_list r bytes) }
    ensures rinex3 { (words : HeaderWords) (r : ℕ) (bytes : List ℕ)
        → (stream_meaning (streams.Rinex3 words) r).whole.output bytes
        ≡ rinex3_text words (stream_list r bytes) }
    ensures rtcm { (r : ℕ) (bytes : List ℕ)
        → (stream_meaning streams.Rtcm r).whole.output bytes
        ≡ flat_map rtcm_item (stream_list r bytes) }
{}

/// What is written and reported of some bytes while more may come stays: it is a prefix of what is
/// written and reported then of these bytes and more, and of a complete stream that begins with
/// them.
pub fn what_is_written_of_a_stream_stays()
    ensures pieces { (prefix : List ℕ) (text : NavItem → List ℕ) (r : ℕ) (bytes more : List ℕ)
        → IsPrefix (flushed_output_by prefix text r bytes)
        (flushed_output_by prefix text r (bytes ++ more))
        × IsPrefix (readings_report 1 (flushed_readings r bytes))
        (readings_report 1 (flushed_readings r (bytes ++ more))) }
    ensures whole { (prefix : List ℕ) (text : NavItem → List ℕ) (r : ℕ) (bytes more : List ℕ)
        → IsPrefix (flushed_output_by prefix text r bytes)
        (stream_output_by prefix text r (bytes ++ more))
        × IsPrefix (readings_report 1 (flushed_readings r bytes))
        (stream_report r (bytes ++ more)) }
{
    decided_frames_stay();
}
