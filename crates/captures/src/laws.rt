//! Theorems about the definitions: each is the contract of an empty function.

ghost use Rattle.std.specs.Prelude.{◌≡◌, ℕ, List, ◌++◌, Option, Some};
ghost use Rattle.nav_io.specs.Prefix.{IsPrefix};
ghost use Rattle.streams.specs.declared.target.Target.{Target};
ghost use Rattle.streams.specs.declared.target.Target.TheVariants.{Count};
ghost use Rattle.captures.specs.Captures.{capture_of, flushed_output, flushed_report};
ghost use Rattle.captures.specs.Captures.{output_of, report_of_capture};
ghost use Rattle.sent_captures.specs.Text.{capture_text};
ghost use Rattle.captures.specs.declared.seed_target.SeedTo.TheVariants as seeds;
ghost use Rattle.captures.specs.Seeds.{generated, seed_output, seed_report};

use capture_log::what_is_closed_stays;

/// The generated text is a capture with the reference week that it was made for, and what is
/// written and reported of a seed with its counts is what a run over that capture writes and
/// reports.
pub fn generated_captures_are_accepted()
    ensures capture { (seed n r : ℕ)
        → capture_of (Some r) (capture_text seed n r) ≡ Some (generated seed n r) }
    ensures output { (seed n r : ℕ) → output_of Count (Some r) (capture_text seed n r)
        ≡ seed_output seeds.Count seed n r }
    ensures report { (seed n r : ℕ) → report_of_capture (Some r) (capture_text seed n r)
        ≡ seed_report seeds.Count seed n r }
{
    nav_io::written_lines_are_given();
}

/// What is written and reported of some bytes while more may come stays: it is a prefix of what is
/// written and reported then of these bytes and more, and of a complete capture that begins with
/// them.
pub fn what_is_written_of_a_capture_stays()
    ensures pieces { (to : Target) (week : Option ℕ) (bytes more : List ℕ)
        → IsPrefix (flushed_output to week bytes) (flushed_output to week (bytes ++ more))
        × IsPrefix (flushed_report week bytes) (flushed_report week (bytes ++ more)) }
    ensures whole { (to : Target) (week : Option ℕ) (bytes more : List ℕ)
        → IsPrefix (flushed_output to week bytes) (output_of to week (bytes ++ more))
        × IsPrefix (flushed_report week bytes) (report_of_capture week (bytes ++ more)) }
{
    what_is_closed_stays();
}
