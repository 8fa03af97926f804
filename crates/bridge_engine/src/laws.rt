//! Theorems about the definitions, each on a function with an empty body.

ghost use Rattle.std.specs.Prelude.{◌≡◌, ◌↔◌, ℕ, List, Option, Some};
ghost use Rattle.nav_io.specs.Lines.{Line};
ghost use Rattle.capture_lines.specs.declared.item.LineItem.{LineItem};
ghost use Rattle.capture_log.specs.Log.{line_items_of};
ghost use Rattle.captures.specs.Captures.{Capture, capture_of};
ghost use Rattle.bridge_engine.specs.CaptureBytes.{IsCapture, StandFor};
ghost use Rattle.bridge_engine.specs.declared.job.Job.{Job};
ghost use Rattle.bridge_engine.specs.Job.{IsJob};

/// Arguments name at most one conversion.
pub fn words_give_one_job()
    ensures { (words : List (List ℕ)) (job other : Job)
        → IsJob words job → IsJob words other → job ≡ other }
{}

/// `capture_of` finds a capture exactly if the bytes are one, and each line is read as the item
/// that it encodes: bytes are at most one capture, and its lines encode one list of items.
pub fn captures_are_selected()
    ensures capture { (week : Option ℕ) (bytes : List ℕ) (c : Capture)
        → (capture_of week bytes ≡ Some c) ↔ IsCapture week bytes c }
    ensures items { (lines : List Line) (items : List LineItem)
        → StandFor lines items ↔ (items ≡ line_items_of lines) }
{
    capture_lines::each_first_line_is_one_head();
    capture_lines::each_line_stands_for_one_thing();
}
