ghost use Rattle.std.specs.Prelude.{◌≡◌, ℕ, List, IsTrue, ℤ, Ok};
ghost use Rattle.nav_bits.specs.Packed.{AreBytes};
ghost use Rattle.nav_tables.specs.declared.field.Table.{Table};
ghost use Rattle.nav_tables.specs.Messages.{AreInRange, ArePlain, is_table, message_bytes};
ghost use Rattle.nav_tables.specs.Messages.{message_in};

/// What is read is in range: one number for each field.
pub fn numbers_are_in_range()
    ensures { (t : Table) (bytes : List ℕ) (numbers : List ℤ) → message_in t bytes ≡ Ok numbers →
        AreInRange t.fields.now numbers }
{}

/// What is written is read back equal.
pub fn written_is_read()
    ensures { (t : Table) (numbers : List ℤ) → IsTrue (is_table t) →
        AreInRange t.fields.now numbers → message_in t (message_bytes t numbers) ≡ Ok numbers }
{}

/// What is read is written as the same bytes, where reserved bits are 0 and no 0 has a sign.
pub fn read_is_written()
    ensures { (t : Table) (bytes : List ℕ) (numbers : List ℤ) → IsTrue (is_table t) →
        AreBytes t.bytes bytes → ArePlain bytes 0 t.fields.now → message_in t bytes ≡ Ok numbers →
        message_bytes t numbers ≡ bytes }
{}
