ghost use Rattle.std.specs.Prelude.{◌≡◌, ℕ, ℤ, List, IsTrue, IsFalse, length, false};
ghost use Rattle.nav_tables.specs.declared.field.Field.{Field};
ghost use Rattle.nav_tables.specs.Messages.{AreInRange};
ghost use Rattle.nav_tables.specs.declared.link.Link.{Link};
ghost use Rattle.nav_tables.specs.declared.link.Part.{Part};
ghost use Rattle.nav_tables.specs.Links.{AreFit, AreStated, are_apart, are_links, columns_of};
ghost use Rattle.nav_tables.specs.Links.{filled};
ghost use Rattle.nav_tables.specs.Links.{nth, ranges_fit, say};

/// Columns return the numbers that they are of, if those that no column has were right before.
pub fn numbers_come_back()
    ensures { (parts : List Part) (links : List Link) (numbers given before : List ℤ) →
        IsTrue (are_links (length before) parts links) → AreFit parts links numbers →
        length before ≡ length numbers →
        ((k : ℕ) → say parts links k ≡ false → nth before k ≡ nth numbers k) →
        filled parts links (columns_of parts links numbers given) before ≡ numbers }
{}

/// The numbers in columns give these columns back.
pub fn columns_come_back()
    ensures { (parts : List Part) (links : List Link) (columns given before : List ℤ) →
        IsTrue (are_links (length before) parts links) → IsTrue (are_apart parts links) →
        AreStated parts links given columns →
        columns_of parts links (filled parts links columns before) given ≡ columns }
{}

/// Numbers in the ranges of their fields fit the columns.
pub fn numbers_in_range_fit()
    ensures { (fields : List Field) (parts : List Part) (links : List Link) (numbers : List ℤ) →
        IsTrue (are_links (length fields) parts links) → IsTrue (ranges_fit fields parts links) →
        AreInRange fields numbers → AreFit parts links numbers }
{}
