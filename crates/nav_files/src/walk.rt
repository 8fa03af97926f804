//! The differences of two files, one after another.

ghost use Rattle.std.specs.Prelude.{◌≡◌, ◌↔◌, ◌∷◌, [], IfOk, IsTrue, MatchOption};
ghost use Rattle.nav_io.specs.Writes.{Writes};
ghost use Rattle.nav_files.specs.Differences.{diff_text, differences};

use crate::difference::Difference;
use crate::file_items::{FileItems, Lacking};
use crate::ordered::compare_keys;
use crate::texts::write_difference;
use nav_io::{Failed, Sink};
use std::cmp::Ordering;
use std::marker::Model;

// The differences that are left: of the items of each file that the other lacks.
#[derive(Drop)]
struct Walk<'a> {
    firsts: Lacking<'a>,
    seconds: Lacking<'a>,
}

impl<'a> Model for Walk<'a> {
    ghost use Rattle.std.specs.Prelude.{List};
    ghost use Rattle.nav_files.specs.declared.difference.Difference.{Difference};
    ghost use Rattle.nav_files.specs.Differences.{paired};

    ghost Value = { List Difference };

    ghost view = { λ w. paired w.firsts w.seconds };
}

impl<'a> Walk<'a> {
    // The next difference.
    fn next(&mut self) -> Option<Difference>
        ensures { MatchOption result (self.old ≡ [])
            (λ difference. self.old ≡ difference ∷ self.new) }
    {
        match (self.firsts.first(), self.seconds.first()) {
            (None, None) => None,
            (Some(x), None) => {
                self.firsts.pass();
                Some(Difference::OnlyFirst(x))
            }
            (None, Some(y)) => {
                self.seconds.pass();
                Some(Difference::OnlySecond(y))
            }
            (Some(x), Some(y)) => match compare_keys(&x, &y) {
                Ordering::Less => {
                    self.firsts.pass();
                    Some(Difference::OnlyFirst(x))
                }
                Ordering::Equal => {
                    self.firsts.pass();
                    self.seconds.pass();
                    Some(Difference::Both(x, y))
                }
                Ordering::Greater => {
                    self.seconds.pass();
                    Some(Difference::OnlySecond(y))
                }
            },
        }
    }
}

/// Writes the lines of the differences of two files, and returns whether there is none.
///
/// # Errors
///
/// `Failed` only if the output's count of errors rose in this call or is at its maximum; a prefix
/// of the lines was written then.
pub fn write_differences<T: Sink>(
    first: &FileItems,
    second: &FileItems,
    out: &mut T,
) -> Result<bool, Failed>
    ensures writes { Writes (T.written out.old) (T.written out.new) (T.faults out.old)
        (T.faults out.new) result (diff_text first.now second.now) }
    ensures same { IfOk result (λ same. IsTrue same ↔ (differences first.now second.now ≡ [])) }
{
    let mut walk = Walk {
        firsts: first.lacking(second),
        seconds: second.lacking(first),
    };
    let mut same = true;
    'differences: while let Some(difference) = walk.next() {
        write_difference(&difference, out)?;
        same = false;
    }
    Ok(same)
}
